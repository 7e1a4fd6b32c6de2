//! Laws of the definitions: functions with nothing to run.

ghost use Rattle.std.specs.Prelude.{List};
ghost use Rattle.stick_text.specs.declared.design.GridText.{GridText};
ghost use Rattle.checked_cells.specs.CheckedCell.{CheckedCell};
ghost use Rattle.grid_plan.specs.Planned.{PlanIsDetermined};

/// A law, with nothing to run: two plans of the same grids over the same cells are one.
pub fn plan_is_determined()
    ensures { (cells : List CheckedCell) (grids : List GridText) → PlanIsDetermined cells grids }
{}
