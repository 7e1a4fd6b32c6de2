//! Where the items of the nodes of masters stand.
ghost use Rattle.std.specs.{Prelude.{◌≡◌, ◌<◌, All, length, map, IfOk}, List.range_with_len};
ghost use Rattle.design_nets.specs.{Shapes.drawn_in, Transistors.{AreOfOwners, AreNodeItems, AreItemsOfNodes}};

use expand::Master;
use lam_list::Seq;
use rule_table::Class;
use std::alloc::{AllocError, Global};
use sym_items::Item;

/// Of each node of a master the position of its poly among the items that are boxes, and the number of its channel,
/// if it has these.
#[derive(Drop)]
pub struct NodeItems {
    pub polys: Vec<usize>,
    pub channels: Vec<usize>,
}

/// The items of the nodes of each master, of whose items these are boxes. The only refusal is want of memory.
pub fn items_of_nodes(
    alloc: Global,
    masters: &[Master],
    drawn: &[Seq<usize>],
) -> Result<Vec<NodeItems>, AllocError>
    requires { drawn.now ≡ map drawn_in masters.now }
    ensures { IfOk result (λ all. AreItemsOfNodes masters.now all.items) }
{
    let mut all = Vec::new(alloc);
    for m in 0..masters.len() {
        all.push(node_items(alloc, &masters[m], drawn[m].as_slice())?)?;
    }
    Ok(all)
}

// The items of the nodes of a master, of whose items these are boxes.
fn node_items(alloc: Global, master: &Master, drawn: &[usize]) -> Result<NodeItems, AllocError>
    requires { drawn.now ≡ drawn_in master.now }
    ensures { IfOk result (AreNodeItems master.now) }
{
    let items = master.items.list.as_slice();
    let nodes = master.cell.nodes.as_slice().len();
    let every = first_numbers(alloc, items.len())?;
    let polys = of_owners(alloc, items, drawn, Class::P, nodes)?;
    let channels = of_owners(alloc, items, &every, Class::G, nodes)?;
    Ok(NodeItems { polys, channels })
}

// So many numbers from 0 on.
fn first_numbers(alloc: Global, count: usize) -> Result<Vec<usize>, AllocError>
    ensures { IfOk result (λ numbers. numbers.items ≡ range_with_len 0 count) }
{
    let mut numbers = Vec::with_capacity(alloc, count)?;
    for n in 0..count {
        numbers.push(n)?;
    }
    Ok(numbers)
}

// For each of so many owners that has an item of a class among some, the position of one.
fn of_owners(
    alloc: Global,
    items: &[Item],
    among: &[usize],
    class: Class,
    count: usize,
) -> Result<Vec<usize>, AllocError>
    requires { All (λ n. n < length items.now) among.now }
    ensures { IfOk result (λ places. AreOfOwners items.now among.now class count places.items) }
{
    let mut places = vec![in alloc; 0; count]?;
    for j in 0..among.len() {
        let item = &items[among[j]];
        let owner = item.owner as usize;
        if item.class == class && owner < count {
            places[owner] = j;
        }
    }
    Ok(places)
}
