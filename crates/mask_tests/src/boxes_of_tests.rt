//! The first break among typed-in boxes, and the words of boxes that are found. A box goes by its layer, its low
//! corner, and its width and height in grains.
ghost use Rattle.std.specs.Prelude.{◌≤◌, ◌<ℤ◌, All, IfOk, length};
ghost use Rattle.lam_geom.specs.{declared.boxes.MaskBox.MaskBox, Places.{IsPlacedBox, IsPlacedSpan}};
ghost use Rattle.crossing_model.specs.Boxes.{AreSearchable, IsSolid};

use flat_check::first_break;
use lam_geom::{BoxXY, MaskBox, MaskLayer, Span};
use lam_io::OpenGate;
use rule_table::Tech;
use std::alloc::{AllocError, Global};
use std::test::Fail;

#[derive(Clone, Copy)]
struct Row(MaskLayer, i16, i16, u16, u16);

// A span by its low end. It is at least one grain long.
fn span(lo: i16, length: u16) -> Span
    ensures placed { IsPlacedSpan result }
    ensures solid { result.lo <ℤ result.hi }
{
    let lo = i64::from(lo);
    let hi = lo + i64::from(length.max(1));
    Span { lo, hi }
}

fn mask_box(row: &Row) -> MaskBox
    ensures placed { IsPlacedBox result.area }
    ensures solid { IsSolid result }
{
    let x = span(row.1, row.3);
    let y = span(row.2, row.4);
    let area = BoxXY { x, y };
    MaskBox { layer: row.0, area }
}

// A box for each of a few rows, in their order.
fn boxes_of(alloc: Global, rows: &[Row]) -> Result<Vec<MaskBox>, AllocError>
    requires { length rows.now ≤ 32 }
    ensures searchable { IfOk result (λ boxes. AreSearchable boxes.items) }
    ensures placed { IfOk result (λ boxes. All (λ (b : MaskBox). IsPlacedBox b.area) boxes.items) }
{
    let mut boxes = Vec::new(alloc);
    for row in rows {
        boxes.push(mask_box(row))?;
    }
    Ok(boxes)
}

/// The words of some boxes, parted by commas: the layer, the low corner, and the width and height in grains.
pub fn words_of(alloc: Global, boxes: &[MaskBox]) -> Result<String, AllocError> {
    let mut words = String::new(alloc);
    for MaskBox { layer, area } in boxes {
        if !words.is_empty() {
            words.push_str(", ")?;
        }
        let BoxXY { x, y } = area;
        let (width, height) = (x.hi.wrapping_sub(x.lo), y.hi.wrapping_sub(y.lo));
        write!(words, "{layer:?} {} {} {width} {height}", x.lo, y.lo)?;
    }
    Ok(words)
}

// Metal of different nets keeps 6 units, of 300 grains each.
#[test]
fn metal_keeps_its_spacing_to_the_grain(rt: HostRuntime) -> Result<(), Fail> {
    for (left, is_near) in [(3600i16, false), (3599, true)] {
        let rows = [
            Row(MaskLayer::NM, 0, 0, 1800, 1800),
            Row(MaskLayer::NM, left, 0, 1800, 1800),
        ];
        let boxes = boxes_of(rt.alloc(), &rows)?;
        let first = first_break(&rt, rt.alloc(), &OpenGate, &Tech::shipped(), &boxes, 1)?;
        assert_eq!(rt; first.is_some(), is_near, "at {left}");
    }
    Ok(())
}
