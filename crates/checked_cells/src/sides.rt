//! On which sides wires leave buried contacts.
ghost use Rattle.std.specs.Prelude.{◌≡◌, [], OnOk};
ghost use Rattle.checked_cells.specs.Sides.{has_side, with_side, has, with_taken, none_taken, side_entries, taken_at};
ghost use Rattle.checked_cells.specs.Sides.{IsMarked};
ghost use Rattle.checked_cells.specs.declared.names.Terminal.TheVariants as terminals;

use cell_model::Axis2;
use indexmap::IndexMap;
use rule_table::Layer;
use std::alloc::{AllocError, Global};

/// Some of the sides of a node.
#[derive(Clone, Copy)]
pub struct Sides {
    pub left: bool,
    pub right: bool,
    pub bottom: bool,
    pub top: bool,
}

/// The sides on which diffusion wires and poly wires leave a buried contact. It takes no other wires.
#[derive(Clone, Copy)]
pub struct Taken {
    pub diffusion: Sides,
    pub poly: Sides,
}

impl Sides {
    /// Whether the side is among these on which a wire along an axis leaves, whose low end the node is or whose high
    /// end.
    pub fn has(self, along: Axis2, is_low: bool) -> bool
        ensures { result ≡ has_side self along is_low }
    {
        match (along, is_low) {
            (Axis2::Across, true) => self.right,
            (Axis2::Across, false) => self.left,
            (Axis2::Up, true) => self.top,
            (Axis2::Up, false) => self.bottom,
        }
    }

    /// These sides and that one.
    pub fn with(self, along: Axis2, is_low: bool) -> Sides
        ensures { result ≡ with_side self along is_low }
    {
        match (along, is_low) {
            (Axis2::Across, true) => Sides {
                right: true,
                ..self
            },
            (Axis2::Across, false) => Sides { left: true, ..self },
            (Axis2::Up, true) => Sides { top: true, ..self },
            (Axis2::Up, false) => Sides {
                bottom: true,
                ..self
            },
        }
    }
}

impl Taken {
    /// No side.
    pub fn none() -> Taken
        ensures { result ≡ none_taken }
    {
        let sides = Sides {
            left: false,
            right: false,
            bottom: false,
            top: false,
        };
        Taken {
            diffusion: sides,
            poly: sides,
        }
    }

    /// Whether a wire of the layer leaves on that side.
    pub fn has(self, layer: Layer, along: Axis2, is_low: bool) -> bool
        ensures { result ≡ has self layer along is_low }
    {
        match layer {
            Layer::Diffusion => self.diffusion.has(along, is_low),
            Layer::Poly => self.poly.has(along, is_low),
            Layer::Metal => false,
        }
    }

    /// With a wire of the layer that leaves on that side.
    pub fn with(self, layer: Layer, along: Axis2, is_low: bool) -> Taken
        ensures { result ≡ with_taken self layer along is_low }
    {
        match layer {
            Layer::Diffusion => Taken {
                diffusion: self.diffusion.with(along, is_low),
                ..self
            },
            Layer::Poly => Taken {
                poly: self.poly.with(along, is_low),
                ..self
            },
            Layer::Metal => self,
        }
    }
}

/// The sides that the wire lines of a cell take at buried contacts, by the paths in these lines.
#[derive(Drop)]
pub struct SideMap<'a> {
    pub taken: IndexMap<&'a [u8], Taken>,
}

impl<'a> SideMap<'a> {
    /// A map without wires.
    pub fn new(alloc: Global) -> SideMap<'a>
        ensures { side_entries result ≡ [] }
    {
        SideMap {
            taken: IndexMap::new(alloc),
        }
    }

    /// The sides that are taken at the end of a path. It takes no memory.
    pub fn at(&self, path: &[u8]) -> Taken
        ensures { result ≡ taken_at (side_entries self.now) path.now }
    {
        match self.taken.get(path).copied() {
            Some(taken) => taken,
            None => Taken::none(),
        }
    }

    /// Marks the side on which a wire of the layer leaves the buried contact of a path. The only refusal is want of
    /// memory.
    pub fn mark(
        &mut self,
        path: &'a [u8],
        layer: Layer,
        along: Axis2,
        is_low: bool,
    ) -> Result<(), AllocError>
        ensures { OnOk result
            (IsMarked (side_entries self.old) (side_entries self.new) path.entry.now layer along is_low) }
    {
        let taken = self.at(path).with(layer, along, is_low);
        self.taken.insert(path, taken)?;
        Ok(())
    }
}
