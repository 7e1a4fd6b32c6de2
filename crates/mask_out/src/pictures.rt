//! The picture of a plan.
ghost use Rattle.std.specs.Prelude.{◌≡◌, ◌^◌, ◌<◌, ◌≤◌, All, length, map, IfOk};
ghost use Rattle.lam_geom.specs.{Places.IsPlacedBox, declared.boxes.Axis.TheVariants.{X, Y}};
ghost use Rattle.rule_table.specs.Technology.{widest_of};
ghost use Rattle.sym_items.specs.Layouts.{size_in};
ghost use Rattle.plan_model.specs.Plan.{grids_of, AreOfMasters};
ghost use Rattle.mask_out.specs.Pictures.{drawing_of, drawings_in, calls_of, HaveBoxes, IsDrawable, IsDrawingAt};
ghost use Rattle.mask_out.specs.Pictures.{IsCallOf};

use crate::calls::calls_in;
use crate::drawing::{Picture, Symbol};
use crate::symbols::symbol;
use expand::Master;
use lam_io::OpenGate;
use lam_list::Seq;
use par_phase::map_numbers;
use plan_model::Plan;
use rule_table::Tech;
use std::alloc::{AllocError, Global};
use std::thread::Threads;
use sym_items::Coords;

// The symbol of each master in its layout, made in so many shares.
fn symbols_in<H: Threads + Sync>(
    rt: &H,
    alloc: Global,
    masters: &[Master],
    coords: &[Coords],
    shares: u32,
) -> Result<Vec<Symbol>, AllocError>
    requires few { length masters.now < 2 ^ 32 }
    requires counted { length coords.now ≡ length masters.now }
    requires boxes { HaveBoxes coords.now masters.now }
    requires shares { (1 ≤ shares) × (shares ≤ 64) }
    ensures placed { IfOk result
        (λ symbols. All (λ symbol. All (λ box. IsPlacedBox box.area) symbol.boxes) symbols.items) }
    ensures symbols { IfOk result (λ symbols. map drawing_of symbols.items ≡ drawings_in masters.now coords.now) }
{
    let draw = |m: &u32| -> Result<Symbol, AllocError>
        requires { (m.now < length masters.now) × (length coords.now ≡ length masters.now)
            × HaveBoxes coords.now masters.now }
        ensures { IfOk result (λ symbol. All (λ box. IsPlacedBox box.area) symbol.boxes
            × IsDrawingAt masters.entry.now coords.entry.now m.entry.now (drawing_of symbol)) }
    {
        let m = *m as usize;
        symbol(alloc, &masters[m], &coords[m])
    };
    map_numbers(rt, alloc, &OpenGate, masters.len() as u32, shares, &draw)
}

/// The picture of a plan: the symbol of each master in its layout, in order, made in so many shares, and one call for
/// each instance, as `calls_in` gives them. The only refusal is want of memory.
pub fn picture<H: Threads + Sync>(
    rt: &H,
    alloc: Global,
    tech: &Tech,
    plan: &Plan,
    masters: &[Master],
    coords: &[Coords],
    shares: u32,
) -> Result<Picture, AllocError>
    requires few { length masters.now < 2 ^ 32 }
    requires counted { length coords.now ≡ length masters.now }
    requires boxes { HaveBoxes coords.now masters.now }
    requires of_masters { All (AreOfMasters (length masters.now)) (grids_of plan.now) }
    requires drawable { IsDrawable (size_in X coords.now) (size_in Y coords.now) (widest_of tech.now)
        (grids_of plan.now) }
    requires shares { (1 ≤ shares) × (shares ≤ 64) }
    ensures placed { IfOk result (λ p. All (λ symbol. All (λ box. IsPlacedBox box.area) symbol.boxes) p.symbols) }
    ensures symbols { IfOk result (λ p. map drawing_of p.symbols ≡ drawings_in masters.now coords.now) }
    ensures called { IfOk result (λ p. All (IsCallOf (length p.symbols)) p.calls) }
    ensures calls { IfOk result
        (λ p. p.calls ≡ calls_of (size_in X coords.now) (size_in Y coords.now) (widest_of tech.now)
        (grids_of plan.now)) }
{
    let symbols = symbols_in(rt, alloc, masters, coords, shares)?;
    let calls = calls_in(alloc, tech, plan, coords)?;
    Ok(Picture {
        symbols: Seq::from_vec(symbols),
        calls: Seq::from_vec(calls),
    })
}
