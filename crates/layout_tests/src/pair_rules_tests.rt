//! Which items of a row face each other, and the inequality that a pair of them gives.
ghost use Rattle.std.specs.Prelude.{◌≡◌, ◌<◌, ◌^◌, IfOk, All, length};
ghost use Rattle.sym_items.specs.Boxes.{HasBox};
ghost use Rattle.pair_rules.specs.Worked as worked;

use cons_graph::{Edge, Names, Why};
use lam_geom::Axis;
use lam_list::Seq;
use pair_rules::{Pair, all_pairs};
use pitch_join::Joint;
use rule_table::{Class, Tech};
use std::alloc::{AllocError, Global};
use std::test::Fail;
use sym_items::{Coords, End, Item, Items, NOWHERE};

// A metal box 6 wide along two variables of x and two of y.
fn metal(owner: u32, net: u32, x: (u32, u32), y: (u32, u32)) -> Item
    ensures { result ≡ worked.metal owner net x.0 x.1 y.0 y.1 }
{
    Item {
        class: Class::M,
        net,
        owner,
        xl: End { var: x.0, off: -3 },
        xh: End { var: x.1, off: 3 },
        yl: End { var: y.0, off: -3 },
        yh: End { var: y.1, off: 3 },
        least_x: 6,
        least_y: 6,
        at_low: NOWHERE,
        at_high: NOWHERE,
    }
}

// The joint with this number.
fn joint(owner: u32, net: u32) -> Item
    requires { owner < 100 }
    ensures { result ≡ worked.joint owner net }
{
    let centre = 2 + owner;
    metal(owner, net, (centre, centre), (centre, centre))
}

// Three joints in a row, and where they start.
fn row_of_three() -> [Item; 3]
    ensures { result ≡ worked.row_of_three }
{
    [joint(0, 0), joint(1, 1), joint(2, 2)]
}

fn row_start(alloc: Global) -> Result<Coords, AllocError>
    ensures { IfOk result (λ c. c ≡ worked.row_start) }
{
    Ok(Coords {
        x: Seq::from_vec([0i64, 48, 12, 24, 36].to_vec(alloc)?),
        y: Seq::from_vec([0i64, 24, 12, 12, 12].to_vec(alloc)?),
    })
}

// Two items the spacing of metal apart.
fn apart(i: u32, j: u32) -> Pair {
    Pair { i, j, s: 6 }
}

// The candidates of an axis under the rules that the program ships with.
fn candidates(
    alloc: Global,
    axis: Axis,
    items: &[Item],
    coords: &Coords,
) -> Result<Vec<Pair>, AllocError>
    requires few { length items.now < 2 ^ 32 }
    requires boxes { All (HasBox coords.now) items.now }
{
    all_pairs(alloc, axis, &Tech::shipped(), items, coords)
}

#[test]
fn three_joints_in_a_row_face_each_other(rt: HostRuntime) -> Result<(), Fail> {
    let row = row_start(rt.alloc())?;
    let in_order = [apart(0, 1), apart(0, 2), apart(1, 2)];
    let across = candidates(rt.alloc(), Axis::X, &row_of_three(), &row)?;
    assert_eq!(rt; across.as_slice(), in_order.as_slice());
    let upwards = candidates(rt.alloc(), Axis::Y, &row_of_three(), &row)?;
    assert!(rt; upwards.is_empty());
    Ok(())
}

// The second joint of the row lies 6 u past the first, whose half widths are 3 u each: 12 u from centre to centre.
#[test]
fn a_kept_pair_is_added_as_an_inequality(rt: HostRuntime) -> Result<(), Fail> {
    let items = Items {
        list: Seq::from_vec(row_of_three().to_vec(rt.alloc())?),
        x_vars: 5,
        y_vars: 5,
    };
    let mut joint = Joint {
        vars: 5,
        base: Seq::from_vec([1u32].to_vec(rt.alloc())?),
        edges: Vec::new(rt.alloc()),
        names: Names::new(rt.alloc()),
    };
    joint.add_kept(Axis::X, 0, &items, &[Pair { i: 0, j: 1, s: 6 }])?;
    let added = Edge {
        from: 2,
        to: 3,
        len: 12,
        why: Why::Space,
    };
    assert!(rt; joint.edges.as_slice() == [added].as_slice());
    Ok(())
}
