//! Laws alone: the design that is made from a number has no fault, and under the numbers that the program ships with
//! the inequalities of its passes are short, over few variables.
#![tactic(auto)]

ghost use Rattle.std.specs.Prelude.{◌≡◌, ◌+◌, ◌^◌, ◌≤◌, pos, ◌≤ℤ◌, All, IsOk, List, Ok, length, map};
ghost use Rattle.lam_geom.specs.declared.boxes.Axis.{Axis};
ghost use Rattle.rule_table.specs.{declared.technology.Tech.Tech as SomeTech, Technology.{numbers_of, shipped_numbers}};
ghost use Rattle.sym_items.specs.declared.items.Coords.{Coords};
ghost use Rattle.expand.specs.{declared.master.Master.Master as SomeMaster, Masters.IsMaster};
ghost use Rattle.pitch_join.specs.Joined.{system_variables, pruned_system};
ghost use Rattle.stick_text.specs.{Says.SaysDesign, Writable.IsWritable};
ghost use Rattle.stick_print.specs.Canonical.{canonical};
ghost use Rattle.checked_cells.specs.{Grids.resolved_cells, CheckedCell.{CheckedCell, cell_of, known_at}};
ghost use Rattle.design_gen.specs.Made.{made};

use expand::Master;
use plan_model::Plan;
use rule_table::Tech;

/// A law, with nothing to run: the design made from `n` is one that a stick text says, its canonical text, each line
/// under its number; and the checks of names and sizes find no fault in it, whatever the technology. So `resolve` may
/// be called with it, and then gives its cells or lacks memory.
pub fn made_designs_have_no_fault(n: u32)
    requires { n ≤ 64 }
    ensures said { SaysDesign (canonical (made n)) (made n) }
    ensures writable { IsWritable (made n) }
    ensures checked { (tech : SomeTech) → IsOk (resolved_cells tech (made n)) }
{}

/// A law, with nothing to run: under the numbers that the program ships with, each inequality that a pass lists of the
/// one master of the design made from `n` is at most 32 u long, whatever the layouts, and such a pass has few
/// variables. So no walk that meets no variable twice is longer than 2^19 u.
pub fn made_designs_stay_small(n: u32, tech: &Tech, plan: &Plan, masters: &[Master])
    requires few { n ≤ 64 }
    requires shipped { numbers_of tech.now ≡ shipped_numbers }
    requires are { All (IsMaster tech.now) masters.now }
    requires made { (cells : List CheckedCell) × (resolved_cells tech.now (made n) ≡ Ok cells)
        × (map (λ (m : SomeMaster). m.cell) masters.now ≡ map (λ k. cell_of (known_at cells k)) plan.now.masters) }
    requires alone { length masters.now ≡ 1 }
    ensures short { (axis : Axis) (layouts : List Coords)
        → All (λ e. e.len ≤ℤ pos 32) (pruned_system axis tech.now plan.now masters.now layouts) }
    ensures few_variables { (axis : Axis) → system_variables axis masters.now ≤ 2 ^ 13 + 2 }
{}
