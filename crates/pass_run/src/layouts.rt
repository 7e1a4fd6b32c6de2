//! The layouts of masters, and the values of the joint variables.

ghost use Rattle.std.specs.{Prelude.{◌≡◌, ◌+◌, ◌≤◌, length, map, All, IfOk}, List.range_with_len};
ghost use Rattle.expand.specs.{Masters.IsMaster, Variables.variables_of};
ghost use Rattle.pair_rules.specs.Laws.{moved};
ghost use Rattle.pitch_join.specs.Joined.{bases_of, system_variables};
ghost use Rattle.pass_run.specs.Layouts.{start_of_master, starts_of, own_values, system_values, with_values};
ghost use Rattle.pass_run.specs.OneMaster.{part_from, own_part};

use coarse_grid::start;
use expand::{Master, master_is_lawful};
use lam_geom::Axis;
use lam_io::Gate;
use lam_list::Seq;
use par_phase::map_split;
use rule_table::Tech;
use std::alloc::{AllocError, Global};
use std::thread::Threads;
use sym_items::Coords;

/// The start layout of each master, over which the first pass is made, in as many shares as `split` says. The only
/// refusal is want of memory.
pub fn starts<H: Threads + Sync, G: Gate>(
    rt: &H,
    alloc: Global,
    gate: &G,
    tech: &Tech,
    masters: &[Master],
    split: u32,
) -> Result<Vec<Coords>, AllocError>
    requires masters { All (IsMaster tech.now) masters.now }
    requires split { (1 ≤ split) × (split ≤ 64) }
    ensures { IfOk result (λ layouts. layouts.items ≡ starts_of tech.now masters.now) }
{
    let draw = |master: &Master| -> Result<Coords, AllocError>
        requires { IsMaster tech.now master.now }
        ensures { IfOk result (λ layout. layout ≡ start_of_master tech.entry.now master.entry.now) }
    { start(alloc, tech, &master.cell) };
    map_split(rt, alloc, gate, masters, split, &draw)
}

// The values of a layout but the origin's.
fn own_values(axis: Axis, layout: &Coords) -> &[i64]
    ensures { result.now ≡ own_values axis layout.now }
{
    match layout.values(axis).split_first() {
        Some((_, own)) => own,
        None => &[],
    }
}

/// The values of the joint variables of an axis in some layouts. The only refusal is want of memory.
pub fn system_values(alloc: Global, axis: Axis, layouts: &[Coords]) -> Result<Vec<i64>, AllocError>
    ensures { IfOk result (λ values. values.items ≡ system_values axis layouts.now) }
{
    let mut values = Vec::new(alloc);
    values.push(0)?;
    for layout in layouts {
        values.extend_from_slice(own_values(axis, layout))?;
    }
    Ok(values)
}

// What values of the joint variables give to the variables of a master, which has `vars`, those beside the origin from
// `base` on.
fn local_values(alloc: Global, base: u32, vars: u32, x: &[i64]) -> Result<Vec<i64>, AllocError>
    requires some { 1 ≤ vars }
    requires origin { 1 ≤ length x.now }
    requires within { base + vars ≤ length x.now + 1 }
    ensures { IfOk result (λ values. values.items ≡ map (part_from base x.now) (range_with_len 0 vars)) }
{
    let first = base as usize;
    let mut values = Vec::new(alloc);
    values.extend_from_slice(&x[..1])?;
    values.extend_from_slice(&x[first..first + (vars as usize - 1)])?;
    Ok(values)
}

// A layout with other values on one axis.
fn moved(alloc: Global, axis: Axis, layout: &Coords, values: Vec<i64>) -> Result<Coords, AllocError>
    ensures { IfOk result (λ c. c ≡ moved axis layout.now values.items) }
{
    let values = Seq::from_vec(values);
    match axis {
        Axis::X => Ok(Coords {
            x: values,
            y: copied(alloc, &layout.y)?,
        }),
        Axis::Y => Ok(Coords {
            x: copied(alloc, &layout.x)?,
            y: values,
        }),
    }
}

// The same list again.
fn copied(alloc: Global, list: &Seq<i64>) -> Result<Seq<i64>, AllocError>
    ensures { IfOk result (λ copy. copy ≡ list.now) }
{
    Ok(Seq::from_vec(Vec::from_slice(alloc, list.as_slice())?))
}

// The layout of a master with its part of values of the joint variables on an axis, those beside the origin from
// `base` on.
fn with_part(
    alloc: Global,
    tech: &Tech,
    master: &Master,
    layout: &Coords,
    base: u32,
    axis: Axis,
    x: &[i64],
) -> Result<Coords, AllocError>
    requires master { IsMaster tech.now master.now }
    requires within { base + variables_of axis master.now.cell ≤ length x.now + 1 }
    requires origin { 1 ≤ length x.now }
    ensures { IfOk result (λ c. c ≡ moved axis layout.now (own_part axis base master.now x.now)) }
{
    master_is_lawful(tech, master);
    let vars = master.items.vars(axis);
    let values = local_values(alloc, base, vars, x)?;
    moved(alloc, axis, layout, values)
}

/// The layouts with these values of the joint variables on an axis: in each its master has its own part of them, and
/// the other axis stays. The only refusal is want of memory.
pub fn with_parts(
    alloc: Global,
    tech: &Tech,
    masters: &[Master],
    before: &[Coords],
    base: &[u32],
    axis: Axis,
    x: &[i64],
) -> Result<Vec<Coords>, AllocError>
    requires each { All (IsMaster tech.now) masters.now }
    requires few { length masters.now ≤ 256 }
    requires counted { length before.now ≡ length masters.now }
    requires bases { base.now ≡ bases_of axis masters.now }
    requires one_each { length x.now ≡ system_variables axis masters.now }
    ensures { IfOk result (λ layouts. layouts.items ≡ with_values axis masters.now before.now x.now) }
{
    let mut layouts = Vec::new(alloc);
    for m in 0..masters.len() {
        let master = &masters[m];
        layouts.push(with_part(alloc, tech, master, &before[m], base[m], axis, x)?)?;
    }
    Ok(layouts)
}
