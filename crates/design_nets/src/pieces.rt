//! The pieces of the sticks, box by box.
ghost use Rattle.std.specs.Prelude.{◌≡◌, ◌++◌, ◌≤◌, ◌<◌, ◌^◌, All, length, map, OnOk, IfOk};
ghost use Rattle.net_model.specs.Netlists.{place_of, nets_of};
ghost use Rattle.design_nets.specs.declared.{owners.OwnNet.OwnNet as SomeNet, pieces.Placed.Placed as SomePiece};
ghost use Rattle.design_nets.specs.Pieces.{is_fet, pieces_of_item, AreDrawn, AreInstancePieces, stand_of, own_of};

use crate::instances::Instance;
use crate::masters::layer_shown;
use crate::owners::OwnNet;
use crate::shapes::Shape;
use box_pieces::Part;
use cell_model::{Cell, Nets, NodeKind};
use expand::Master;
use lam_geom::MaskLayer;
use net_model::Piece;
use std::alloc::{AllocError, Global};

/// A piece: the number of its box, its part of it, and the net of its instance that it belongs to.
#[derive(Clone, Copy)]
pub struct Placed {
    pub box_no: u32,
    pub part: Part,
    pub own: OwnNet,
}

/// The pieces of all boxes, and of each box the number of its first piece, and then that of all.
#[derive(Drop)]
pub struct Pieces {
    pub all: Vec<Placed>,
    pub starts: Vec<u32>,
}

/// The pieces of all boxes, which show these shapes. The only refusal is want of memory.
pub fn pieces_of(
    alloc: Global,
    masters: &[Master],
    nets: &[Nets],
    instances: &[Instance],
    shapes: &[Shape],
) -> Result<Pieces, AllocError>
    requires drawn { AreDrawn masters.now nets.now instances.now shapes.now }
    requires few { length shapes.now ≤ 2 ^ 20 }
    ensures { IfOk result
        (λ pieces. AreInstancePieces masters.now nets.now instances.now shapes.now pieces.all.items
        pieces.starts.items) }
{
    let mut all = Vec::with_capacity(alloc, shapes.len())?;
    let mut starts = Vec::with_capacity(alloc, shapes.len() + 1)?;
    starts.push(0)?;
    for k in 0..shapes.len() {
        let shape = shapes[k];
        let master = instances[shape.instance].master as usize;
        push_pieces(&mut all, &masters[master], &nets[master], k as u32, shape)?;
        starts.push(all.len() as u32)?;
    }
    Ok(Pieces { all, starts })
}

// Adds the pieces of the box with this number, which shows an item of an instance of a master.
fn push_pieces(
    pieces: &mut Vec<Placed>,
    master: &Master,
    nets: &Nets,
    box_no: u32,
    shape: Shape,
) -> Result<(), AllocError>
    requires item { shape.item < length master.now.items.list }
    requires nodes { length nets.now.node ≡ length master.now.cell.nodes }
    ensures { OnOk result (pieces.new.items ≡ pieces.old.items ++ pieces_of_item master.now nets.now box_no shape) }
{
    let item = master.items.list.as_slice()[shape.item];
    let instance = shape.instance;
    match layer_shown(item.class) {
        MaskLayer::ND if is_fet(&master.cell, item.owner) => {
            let of_node = nets.node.as_slice()[item.owner as usize];
            pieces.push(placed_part(box_no, Part::Low, instance, of_node.low))?;
            pieces.push(placed_part(box_no, Part::High, instance, of_node.high))?;
        }
        MaskLayer::ND | MaskLayer::NP | MaskLayer::NM => {
            pieces.push(placed_part(box_no, Part::Whole, instance, item.net))?;
        }
        MaskLayer::NC | MaskLayer::NI | MaskLayer::NB => {}
    }
    Ok(())
}

fn placed_part(box_no: u32, part: Part, instance: usize, net: u32) -> Placed
    ensures { result ≡ record { box_no = box_no; part = part; own = record { instance = instance; net = net } } }
{
    let own = OwnNet { instance, net };
    Placed { box_no, part, own }
}

/// Whether part number `owner` of a cell is a transistor.
pub fn is_fet(cell: &Cell, owner: u32) -> bool
    ensures { result ≡ is_fet cell.now owner }
{
    match cell.nodes.as_slice().get(owner as usize) {
        Some(node) => matches!(node.kind, NodeKind::Fet { .. }),
        None => false,
    }
}

/// The nets of pieces. The only refusal is want of memory.
pub fn owners(alloc: Global, pieces: &[Placed]) -> Result<Vec<OwnNet>, AllocError>
    ensures { IfOk result (λ owners. owners.items ≡ map own_of pieces.now) }
{
    pieces.iter().map(|piece| piece.own).collect(alloc)
}

/// The pieces with these nets of the sticks. The only refusal is want of memory.
pub fn netted(alloc: Global, pieces: &[Placed], nets: &[u32]) -> Result<Vec<Piece>, AllocError>
    requires { length nets.now ≡ length pieces.now }
    ensures places { IfOk result (λ netted. map place_of netted.items ≡ map stand_of pieces.now) }
    ensures nets { IfOk result (λ netted. nets_of netted.items ≡ nets.now) }
{
    let mut netted = Vec::with_capacity(alloc, pieces.len())?;
    for a in 0..pieces.len() {
        let Placed { box_no, part, .. } = pieces[a];
        let net = nets[a];
        netted.push(Piece { box_no, part, net })?;
    }
    Ok(netted)
}
