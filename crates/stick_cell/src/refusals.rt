//! Laws: why a line or a cell is refused.
ghost use Rattle.std.specs.Prelude.{◌≡◌, List, Err};
ghost use Rattle.rule_table.specs.declared.technology.Tech.{Tech};
ghost use Rattle.stick_text.specs.declared.{design.{Form.Form, CellText.CellText}, fault.StickKind.StickKind};
ghost use Rattle.stick_text.specs.declared.fault.StickFault.{StickFault};
ghost use Rattle.checked_cells.specs.{CheckedCell.CheckedCell, Lines.{after_form, after_cell}};
ghost use Rattle.stick_cell.specs.Refusals.{IsWrongLine, IsWrongCell};

/// A line of a cell that is refused breaks the rule of the kind that it is refused with, and one that breaks a rule
/// is refused.
pub fn a_refused_line_breaks_a_rule()
    ensures refused { (tech : Tech) (cells : List CheckedCell) (known : CheckedCell) (form : Form) (kind : StickKind)
        → after_form tech cells known form ≡ Err kind
        → IsWrongLine tech cells known form kind }
    ensures broken { (tech : Tech) (cells : List CheckedCell) (known : CheckedCell) (form : Form) (kind : StickKind)
        → IsWrongLine tech cells known form kind
        → (first : StickKind) × (after_form tech cells known form ≡ Err first) }
{}

/// A cell that is refused breaks a rule at the line of its fault, one of a name, of a line or of the ports at its
/// end, and one that breaks a rule is refused.
pub fn a_refused_cell_breaks_a_rule()
    ensures refused { (tech : Tech) (cells : List CheckedCell) (text : CellText) (fault : StickFault)
        → after_cell tech cells text ≡ Err fault → IsWrongCell tech cells text fault }
    ensures broken { (tech : Tech) (cells : List CheckedCell) (text : CellText) (fault : StickFault)
        → IsWrongCell tech cells text fault
        → (first : StickFault) × (after_cell tech cells text ≡ Err first) }
{}
