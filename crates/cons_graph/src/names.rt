ghost use Rattle.std.specs.Prelude.{◌≡◌, ◌<◌, [], ◌∷◌, ◌++◌, length, OnOk, OnErr, slice_get, Some};

use std::alloc::{AllocError, Global};
use std::marker::Model;

// Where the bytes of a name start and end.
#[derive(Clone, Copy)]
struct Place {
    start: usize,
    end: usize,
}

/// The names of variables 0, 1, 2 and so on, as they are printed. Their bytes stand in one list, so that a name takes
/// no allocation of its own.
#[derive(Drop)]
pub struct Names {
    bytes: Vec<u8>,
    places: Vec<Place>,
}

impl Model for Names {
    ghost use Rattle.std.specs.Prelude.{List, ℕ, All, length, map};

    ghost Value = { List (List ℕ) };

    ghost use Rattle.cons_graph.specs.Names.{name_at, IsPlaceAmong};

    ghost view = { λ n. map (name_at n.bytes.items) n.places.items };

    ghost invariant = { λ n. All (IsPlaceAmong (length n.bytes.items)) n.places.items };
}

impl Names {
    /// No names yet. Takes no memory.
    pub fn new(alloc: Global) -> Names
        ensures { result ≡ [] }
    {
        Names {
            bytes: Vec::new(alloc),
            places: Vec::new(alloc),
        }
    }

    /// Names the next variable. The only refusal is want of memory, which leaves the list as it was.
    pub fn push(&mut self, name: &[u8]) -> Result<(), AllocError>
        ensures ok { OnOk result (self.new ≡ self.old ++ name.now ∷ []) }
        ensures err { OnErr result (self.new ≡ self.old) }
    {
        let start = self.bytes.len();
        self.bytes.extend_from_slice(name)?;
        let end = self.bytes.len();
        self.places.push(Place { start, end })?;
        Ok(())
    }

    /// Names the next variable by two texts with a byte between them. The only refusal is want of memory, which leaves
    /// the list as it was.
    pub fn push_joined(&mut self, first: &[u8], between: u8, last: &[u8]) -> Result<(), AllocError>
        ensures ok { OnOk result (self.new ≡ self.old ++ (first.now ++ between ∷ last.now) ∷ []) }
        ensures err { OnErr result (self.new ≡ self.old) }
    {
        let start = self.bytes.len();
        self.bytes.extend_from_slice(first)?;
        self.bytes.push(between)?;
        self.bytes.extend_from_slice(last)?;
        let end = self.bytes.len();
        self.places.push(Place { start, end })?;
        Ok(())
    }

    /// The name of a variable. Takes no memory.
    pub fn get(&self, var: u32) -> &[u8]
        requires { var < length self.now }
        ensures { slice_get self.now var ≡ Some result.now }
    {
        let place = self.places[var as usize];
        &self.bytes[place.start..place.end]
    }
}
