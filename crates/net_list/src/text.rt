//! The text of a netlist.
ghost use Rattle.std.specs.Prelude.{◌≡◌, ◌<◌, All, IfOk, length};
ghost use Rattle.net_list.specs.Lines.{text_of_netlist};

use crate::counting::{counts_of, layers_of};
use crate::lines::{head_line, push_devices, push_nets};
use lam_geom::MaskBox;
use net_model::Netlist;
use std::alloc::{AllocError, Global};
use stick_lex::Text;

/// The text of a netlist of these boxes. Linear in the pieces, nets and devices. The only refusal is want of memory.
pub fn netlist_text(alloc: Global, list: &Netlist, boxes: &[MaskBox]) -> Result<Text, AllocError>
    requires { All (λ piece. piece.box_no < length boxes.now) list.now.pieces }
    ensures { IfOk result (λ text. text ≡ text_of_netlist boxes.now list.now) }
{
    let layers = layers_of(alloc, boxes)?;
    let counts = counts_of(alloc, list.nets, list.pieces.as_slice(), &layers)?;
    let devices = list.devices.as_slice();
    let head = head_line(alloc, list.nets, devices.len())?;
    let mut out = Vec::from_slice(alloc, head.as_bytes())?;
    push_nets(&mut out, &counts)?;
    push_devices(&mut out, alloc, devices)?;
    Text::new(alloc, &out)
}
