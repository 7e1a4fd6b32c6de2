//! Netlists as texts.
//!
//! What the layer above uses: `netlist_text` gives exactly the text of a netlist: how many nets and devices there
//! are, how many pieces each net has by layer, and each device with its size, its terminals and its place. Its counts
//! and words can be had alone.
#![tactic(auto)]

mod counting;
mod lines;
mod text;

pub use counting::{PieceCounts, counts_of};
pub use lines::{head_line, kind_word, push_net, terminal_words};
pub use text::netlist_text;
