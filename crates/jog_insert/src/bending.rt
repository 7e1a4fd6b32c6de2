//! Where the parts of a cell go when one of its wires is bent.
ghost use Rattle.std.specs.Prelude.{◌≡◌, ◌≤◌};
ghost use Rattle.stick_text.specs.Writable.{IsCount, IsForm};
ghost use Rattle.jog_insert.specs.Bends.{past, part_col, moved_col, moved_row, node_col, moved_place, moved_form};
ghost use Rattle.jog_insert.specs.Building.{bend_of};

use lam_geom::Side;
use stick_text::Form;

/// A bend: the column of the wire, the row above which it is bent, and whether the lower part of the column moves, or
/// else the upper one.
#[derive(Clone, Copy)]
pub struct Place {
    pub col: u32,
    pub row: u32,
    pub left: bool,
}

fn past(line: u32, n: u32) -> u32
    requires { IsCount n }
    ensures { result ≡ past line n }
{
    if line < n { n + 1 } else { n }
}

impl Place {
    /// The column of the upper part of the bend's column, or that of the lower one.
    pub fn part_col(self, upper: bool) -> u32
        requires { IsCount self.col }
        ensures { result ≡ part_col (bend_of self) upper }
    {
        if upper == self.left {
            self.col
        } else {
            self.col + 1
        }
    }

    fn moved_col(self, upper: bool, col: u32) -> u32
        requires { IsCount col }
        ensures { result ≡ moved_col (bend_of self) upper col }
    {
        if col == self.col {
            self.part_col(upper)
        } else {
            past(self.col, col)
        }
    }

    fn moved_row(self, row: u32) -> u32
        requires { IsCount row }
        ensures { result ≡ moved_row (bend_of self) row }
    {
        past(self.row, row)
    }

    fn node_col(self, col: u32, row: u32) -> u32
        requires { IsCount col }
        ensures { result ≡ node_col (bend_of self) col row }
    {
        self.moved_col(self.row < row, col)
    }

    fn moved_place(self, side: Side, place: u32) -> u32
        requires { IsCount place }
        ensures { result ≡ moved_place (bend_of self) side place }
    {
        match side {
            Side::Left | Side::Right => self.moved_row(place),
            Side::Bottom => self.moved_col(false, place),
            Side::Top => self.moved_col(true, place),
        }
    }

    fn move_node(self, col: &mut u32, row: &mut u32)
        requires col { IsCount col.old }
        requires row { IsCount row.old }
        ensures col { col.new ≡ node_col (bend_of self) col.old row.old }
        ensures row { row.new ≡ moved_row (bend_of self) row.old }
    {
        *col = self.node_col(*col, *row);
        *row = self.moved_row(*row);
    }

    /// Moves the form of a line to where it goes.
    pub fn move_form(self, form: &mut Form)
        requires { IsForm form.old }
        ensures { form.new ≡ moved_form (bend_of self) form.old }
    {
        match form {
            Form::Joint { col, row, .. } => self.move_node(col, row),
            Form::Contact { col, row, .. } => self.move_node(col, row),
            Form::Buried { col, row, .. } => self.move_node(col, row),
            Form::Fet { col, row, .. } => self.move_node(col, row),
            Form::Port { side, place, .. } => *place = self.moved_place(*side, *place),
            Form::Inst { .. } | Form::Wire { .. } | Form::Limit { .. } => {}
        }
    }
}
