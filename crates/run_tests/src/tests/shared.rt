//! Types whose values threads may share and send to one another, which the check proves.

use expand::Master;
use lam_geom::{Axis, MaskBox, Span};
use lam_list::Seq;
use pair_rules::Pair;
use rule_table::{Class, Layer, Numbers, Rule, Tech};
use stick_lex::{LexFault, Text, Token};
use sym_items::{Coords, Item, Items};

fn crosses_threads<T: Send + Sync>() {}

#[test]
fn values_cross_threads() {
    crosses_threads::<Axis>();
    crosses_threads::<Span>();
    crosses_threads::<MaskBox>();
    crosses_threads::<Seq<u64>>();
    crosses_threads::<Text>();
    crosses_threads::<Token>();
    crosses_threads::<LexFault>();
    crosses_threads::<Tech>();
    crosses_threads::<Numbers>();
    crosses_threads::<Class>();
    crosses_threads::<Layer>();
    crosses_threads::<Rule>();
    crosses_threads::<Item>();
    crosses_threads::<Items>();
    crosses_threads::<Coords>();
    crosses_threads::<Pair>();
    crosses_threads::<Master>();
}
