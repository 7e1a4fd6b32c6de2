//! The script of edits.
ghost use Rattle.std.specs.Prelude.{◌≡◌};
ghost use Rattle.edit_lines.specs.Scripts.{cell_in};

use stick_lex::Text;

/// A line of a script.
#[derive(Drop)]
pub enum EditLine {
    /// A limit for a cell: the distance on an axis from `a` to `b` is at most or at least `n`, in u.
    Add {
        cell: Text,
        vertical: bool,
        a: Text,
        b: Text,
        at_most: bool,
        n: i64,
    },
    /// Limit `k` of a cell, from 0, is taken away.
    Take {
        cell: Text,
        k: u32,
    },
}

impl EditLine {
    /// The name of the cell that is edited.
    pub fn cell(&self) -> &[u8]
        ensures { result.now ≡ cell_in self.now }
    {
        match self {
            EditLine::Add { cell, .. } | EditLine::Take { cell, .. } => cell.bytes(),
        }
    }
}
