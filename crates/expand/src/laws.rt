//! What holds of every master.

ghost use Rattle.expand.specs.{Masters.IsMaster, Laws.{BetweenMeans, IsLawful}};

use crate::master::Master;
use cons_graph::Why;
use rule_table::Tech;
use sym_items::End;

/// A law, with nothing to run: the items of a master lie among its variables and are as many as its parts have; a
/// constraint graph can be made of its structure on each axis; and values that meet the structure, with the origin at
/// 0, keep every variable and every item's high end at or above the origin, and each item as long as it has to be.
pub fn master_is_lawful(tech: &Tech, master: &Master)
    requires { IsMaster tech.now master.now }
    ensures { IsLawful tech.now master.now }
{}

/// A law, with nothing to run: what the inequality between two ends says, in u.
pub fn between_means(low: End, high: End, len: i64, why: Why)
    ensures { BetweenMeans low high len why }
{}
