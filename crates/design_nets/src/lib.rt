//! The netlist of the sticks of all instances, made from the plan, the masters, and layouts that give each item a box
//! and can be drawn; and what of it no layout changes, with the names of the design.
//!
//! What the layer above uses: `stick_netlist` gives the pieces of all boxes with the nets of the parts of the sticks
//! that they belong to, and a device for each transistor; `named_nets` gives the text of the nets and transistors by
//! their names, without layouts. Both take time linear in the boxes, the nets of all instances, the ports that meet and
//! what is written, but for a table of each two masters. Channels are in grains, half hundredths of a micron.
#![tactic(auto)]

mod channels;
mod connections;
mod fet_nodes;
mod instances;
mod laws;
mod linking;
mod masters;
mod meetings;
mod named_lines;
mod named_parts;
mod names;
mod naming;
mod neighbours;
mod node_items;
mod numbered_lists;
mod numbering;
mod owners;
mod pieces;
mod shapes;
mod sticks;
mod transistors;

pub use laws::{named_parts_have_pieces, named_text_is_determined, names_tell_the_netlist};
pub use naming::named_nets;
pub use sticks::stick_netlist;
