//! What is kept of a cell for later lines and cells.
use crate::names::{Binding, Copied};
use crate::sides::SideMap;
use crate::steps::Step;
use cell_model::CellPort;
use indexmap::IndexMap;
use std::alloc::{AllocError, Global};

/// The names of a cell in order of their lines, with what they stand for.
#[derive(Drop)]
pub struct NameMap<'a> {
    pub bindings: IndexMap<&'a [u8], Binding>,
}

impl<'a> NameMap<'a> {
    ghost use Rattle.std.specs.Prelude.{◌≡◌, [], ◌∷◌, ◌++◌, IsTrue, OnOk};
    ghost use Rattle.checked_cells.specs.Checks.{is_fresh};
    ghost use Rattle.checked_cells.specs.NameEntries.{entries_of};
    ghost use Rattle.checked_cells.specs.Paths.{named, copy_of};

    /// A map without names, with room for so many where there is memory for it. More may be added.
    pub fn with_room(alloc: Global, names: usize) -> NameMap<'a>
        ensures { entries_of result ≡ [] }
    {
        let mut bindings = IndexMap::new(alloc);
        let _ = bindings.reserve(names);
        NameMap { bindings }
    }

    /// What the name stands for. It takes no memory.
    pub fn find(&self, name: &[u8]) -> Option<Binding>
        ensures { result ≡ named (entries_of self.now) name.now }
    {
        self.bindings.get(name).copied()
    }

    /// The copy that the name stands for, if it stands for one. It takes no memory.
    pub fn copy(&self, name: &[u8]) -> Option<Copied>
        ensures { result ≡ copy_of (named (entries_of self.now) name.now) }
    {
        match self.find(name) {
            Some(Binding::Copy(copy)) => Some(copy),
            Some(Binding::Node(_) | Binding::Port(_)) | None => None,
        }
    }

    /// Whether the name is not among these. It takes no memory.
    pub fn is_fresh(&self, name: &[u8]) -> bool
        ensures { result ≡ is_fresh (entries_of self.now) name.now }
    {
        self.find(name).is_none()
    }

    /// Adds a name that is not among these. The only refusal is want of memory.
    pub fn add(&mut self, name: &'a [u8], binding: Binding) -> Result<(), AllocError>
        requires { IsTrue (is_fresh (entries_of self.old) name.now) }
        ensures { OnOk result (entries_of self.new ≡ entries_of self.old ++ (name.entry.now, binding) ∷ []) }
    {
        self.bindings.insert(name, binding)?;
        Ok(())
    }
}

/// A cell as later lines and cells ask for it. Counts are those of the inlined cell, and what is past 65,536 is 65,537.
#[derive(Drop)]
pub struct Table<'a> {
    pub name: &'a [u8],
    pub names: NameMap<'a>,
    pub sides: SideMap<'a>,
    /// What its lines add to it. In a cell that may be inlined the numbers of nodes are exact.
    pub steps: Vec<Step<'a>>,
    pub ports: Vec<CellPort>,
    pub nodes: u32,
    pub wires: u32,
    pub weight: u32,
    pub boxes: u32,
    /// The greatest column of a node, 0 where there is none.
    pub most_col: u32,
    /// The greatest row of a node, 0 where there is none.
    pub most_row: u32,
    pub depth: u32,
}
