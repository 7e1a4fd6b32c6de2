//! A few metal squares in a row, 12 apart and 6 wide, each of a net of its own.

use super::boxed::{have_boxes, lie_clean};
use super::many::square;
use lam_geom::Axis;
use lam_list::Seq;
use pair_rules::Pair;
use rule_table::Tech;
use scan_line::{Lanes, Scan};
use shadow_prune::{KeptFault, kept};
use std::alloc::{AllocError, Global};
use std::test::Fail;
use sym_items::{Coords, Item};

// Squares beside each other, and where they stand.
fn row(alloc: Global, count: u32) -> Result<(Vec<Item>, Coords), AllocError> {
    let mut items = Vec::new(alloc);
    let (mut x, mut y) = (Vec::new(alloc), Vec::new(alloc));
    for k in 0..count {
        items.push(square(k))?;
        x.push(12 * (i64::from(k) + 1))?;
        y.push(12i64)?;
    }
    let coords = Coords {
        x: Seq::from_vec(x),
        y: Seq::from_vec(y),
    };
    Ok((items, coords))
}

fn pair(i: u32, j: u32) -> Pair {
    Pair { i, j, s: 6 }
}

#[test]
fn candidates_are_all_that_end_at_the_last_square(rt: HostRuntime) -> Result<(), Fail> {
    let (alloc, tech) = (rt.alloc(), Tech::shipped());
    let (items, coords) = row(alloc, 5)?;
    if items.len() < 5 || !lie_clean(alloc, &tech, &items, &coords)? {
        return Err("no clean row")?;
    }
    let lanes = Lanes::new(alloc, Axis::X, &items, &coords)?;
    let mut all = Vec::new(alloc);
    lanes.candidates(Axis::X, &tech, &items, &coords, 4, &mut all)?;
    let in_order = [pair(0, 4), pair(1, 4), pair(2, 4), pair(3, 4)];
    assert_eq!(rt; all.as_slice(), in_order.as_slice());
    Ok(())
}

// The numbers of some squares in the order in which a scan comes to them, and those that it lends at each.
fn scanned(alloc: Global, items: &[Item], coords: &Coords) -> Result<(Vec<u32>, Vec<u32>), Fail> {
    if !have_boxes(items, coords) {
        return Err("no boxes")?;
    }
    let tech = Tech::shipped();
    let mut scan = Scan::new(alloc, Axis::X, &tech, items, coords)?;
    let (mut come, mut before) = (Vec::new(alloc), Vec::new(alloc));
    for _turn in 0..6 {
        if let Some(j) = scan.advance()? {
            come.push(j)?;
        }
        for near in scan.before() {
            before.push(near.item.owner)?;
        }
    }
    Ok((come, before))
}

#[test]
fn a_scan_comes_to_each_square_and_lends_what_ends_there(rt: HostRuntime) -> Result<(), Fail> {
    let (items, coords) = row(rt.alloc(), 5)?;
    let (come, before) = scanned(rt.alloc(), &items, &coords)?;
    assert_eq!(rt; come.as_slice(), [0u32, 1, 2, 3, 4].as_slice());
    assert_eq!(rt;
        before.as_slice(),
        [0u32, 0, 1, 0, 1, 2, 0, 1, 2, 3].as_slice()
    );
    Ok(())
}

#[test]
fn one_kept_pair_more_than_the_limit_is_too_many(rt: HostRuntime) -> Result<(), Fail> {
    let (alloc, tech) = (rt.alloc(), Tech::shipped());
    let (items, coords) = row(alloc, 3)?;
    if !lie_clean(alloc, &tech, &items, &coords)? {
        return Err("no clean row")?;
    }
    match kept(alloc, Axis::X, &tech, &items, &coords, 2) {
        Ok(pairs) => assert_eq!(rt; pairs.as_slice(), [pair(0, 1), pair(1, 2)].as_slice()),
        Err(_) => return Err("no kept pairs")?,
    }
    match kept(alloc, Axis::X, &tech, &items, &coords, 1) {
        Err(KeptFault::TooMany) => Ok(()),
        _ => Err("not too many")?,
    }
}

#[test]
fn faults_may_be_shared_by_threads(rt: HostRuntime) {
    fn is_shared<T: Send + Sync>(_value: &T) -> bool {
        true
    }
    assert!(rt; is_shared(&KeptFault::TooMany));
}
