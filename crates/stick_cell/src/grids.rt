//! The check on the names of grids.
use indexmap::IndexSet;
use std::alloc::{AllocFailed, Global};
use stick_text::{GridText, ParseFault as ResolveFault, StickFault, StickKind};

/// The names of the grids that have been checked, in order.
#[derive(Drop)]
pub struct GridNames<'a> {
    pub seen: IndexSet<&'a [u8]>,
}

impl<'a> GridNames<'a> {
    ghost use Rattle.std.specs.Prelude.{◌≡◌, [], ◌∷◌, ◌++◌, if◌then◌else◌, IfOk};
    ghost use Rattle.checked_cells.specs.Grids.{is_new_name};
    ghost use Rattle.stick_cell.specs.GridNames.{names_in};

    /// No names.
    fn new(alloc: Global) -> GridNames<'a>
        ensures { names_in result ≡ [] }
    {
        GridNames {
            seen: IndexSet::new(alloc),
        }
    }

    /// Adds a name, and tells whether it is new. The only refusal is want of memory.
    fn add(&mut self, name: &'a [u8]) -> Result<bool, AllocFailed<&'a [u8]>>
        ensures new { IfOk result (λ new. new ≡ is_new_name (names_in self.old) name.entry.now) }
        ensures names { IfOk result
            (λ new. names_in self.new
            ≡ (if new then names_in self.old ++ name.entry.now ∷ [] else names_in self.old)) }
    {
        self.seen.insert(name)
    }
}

ghost use Rattle.std.specs.Prelude.{[]};
ghost use Rattle.stick_text.specs.Reading.{Gives};
ghost use Rattle.checked_cells.specs.Grids.{grids_after};
ghost use Rattle.stick_cell.specs.GridNames.{names_in};

/// Checks that no grid has the name of one before it, and else refuses it at its line. It costs time linear in the
/// names.
pub fn check_grids(alloc: Global, grids: &[GridText]) -> Result<(), ResolveFault>
    ensures { Gives (λ checked. checked) result (grids_after [] grids.now) }
{
    let mut names = GridNames::new(alloc);
    add_names(&mut names, grids)
}

// Adds the names of some grids, and refuses the first that is not new.
fn add_names<'a>(names: &mut GridNames<'a>, grids: &'a [GridText]) -> Result<(), ResolveFault>
    ensures { Gives (λ checked. checked) result (grids_after (names_in names.old) grids.now) }
{
    for grid in grids {
        if let Some(name) = &grid.name {
            if !names.add(name.bytes())? {
                return Err(ResolveFault::Stick(StickFault {
                    line: grid.line,
                    kind: StickKind::RepeatedName,
                }));
            }
        }
    }
    Ok(())
}
