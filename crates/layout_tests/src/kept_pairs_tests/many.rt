//! As many items as a layout may have, side by side and above one another.

use super::boxed::{have_boxes, lie_clean};
use coarse_grid::{find_clash, first_clash};
use lam_geom::Axis;
use lam_list::Seq;
use pair_rules::Pair;
use rule_table::{Class, Tech};
use shadow_prune::kept;
use std::alloc::{AllocError, Global};
use std::process::Abort;
use std::test::Fail;
use sym_items::{Coords, End, Item, NOWHERE};

// How many squares there are, and how many stand above one another.
const SQUARES: u32 = 65_536;

const ROWS: u32 = 16;

// A metal square of a part and a net of its own, about the variable of that number on each axis.
pub fn square(k: u32) -> Item {
    let (low, high) = (End { var: k, off: -3 }, End { var: k, off: 3 });
    Item {
        class: Class::M,
        net: k,
        owner: k,
        xl: low,
        xh: high,
        yl: low,
        yh: high,
        least_x: 6,
        least_y: 6,
        at_low: NOWHERE,
        at_high: NOWHERE,
    }
}

// Where square `k` stands: columns and rows are 12 apart, so neighbours keep just the spacing of metal.
fn point(k: u32) -> (i64, i64) {
    (
        12 * (i64::from(k / ROWS) + 1),
        12 * (i64::from(k % ROWS) + 1),
    )
}

fn squares(alloc: Global) -> Result<Vec<Item>, AllocError> {
    let mut items = Vec::new(alloc);
    for k in 0..SQUARES {
        items.push(square(k))?;
    }
    Ok(items)
}

fn layout(alloc: Global) -> Result<Coords, AllocError> {
    let (mut x, mut y) = (Vec::new(alloc), Vec::new(alloc));
    for k in 0..SQUARES {
        let (across, up) = point(k);
        x.push(across)?;
        y.push(up)?;
    }
    Ok(Coords {
        x: Seq::from_vec(x),
        y: Seq::from_vec(y),
    })
}

// There are so many pairs, each of them of two squares whose numbers differ by so much.
fn assert_pairs<A: Abort>(rt: &A, pairs: &[Pair], count: usize, apart: u32) {
    assert_eq!(rt; pairs.len(), count);
    for pair in pairs {
        let after = u64::from(pair.i) + u64::from(apart);
        assert_eq!(rt; (u64::from(pair.j), pair.s), (after, 6));
    }
}

#[test]
fn many_pairs(rt: HostRuntime) -> Result<(), Fail> {
    let (alloc, tech) = (rt.alloc(), Tech::shipped());
    let items = squares(alloc)?;
    let coords = layout(alloc)?;
    if !lie_clean(alloc, &tech, &items, &coords)? {
        return Err("not clean")?;
    }
    match kept(alloc, Axis::Y, &tech, &items, &coords, 61_440) {
        Ok(pairs) => assert_pairs(&rt, &pairs, 61_440, 1),
        Err(_) => return Err("no kept pairs on y")?,
    }
    match kept(alloc, Axis::X, &tech, &items, &coords, 65_520) {
        Ok(pairs) => assert_pairs(&rt, &pairs, 65_520, ROWS),
        Err(_) => return Err("no kept pairs on x")?,
    }
    Ok(())
}

#[test]
fn the_first_clash_is_that_of_squares_a_unit_too_near(rt: HostRuntime) -> Result<(), Fail> {
    let (alloc, tech) = (rt.alloc(), Tech::shipped());
    let items = [square(0), square(1), square(2), square(3)];
    for (last, clash) in [(36, None), (35, Some((2, 3)))] {
        let coords = Coords {
            x: Seq::from_vec([0i64, 12, 12, 12].to_vec(alloc)?),
            y: Seq::from_vec([12i64, 12, 24, last].to_vec(alloc)?),
        };
        if !have_boxes(&items, &coords) {
            return Err("an item has no box")?;
        }
        assert_eq!(rt; find_clash(&tech, &items, &coords), clash);
        assert_eq!(rt; first_clash(alloc, &tech, &items, &coords)?, clash);
    }
    Ok(())
}
