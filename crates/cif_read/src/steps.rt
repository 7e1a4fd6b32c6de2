//! Steps, one after another.
ghost use Rattle.std.specs.Prelude.{◌≡◌, ◌<◌, ◌++◌, ◌∷◌, [], IfErr, IfOk, IsTrue, OnOk, length, map, slice_index_or};
ghost use Rattle.cif_read.specs.declared.file.ForeignStep.{ForeignStep, TheVariants.Own};
ghost use Rattle.cif_read.specs.Steps.{AreBoxes};

use crate::file::ForeignStep;
use lam_geom::MaskBox;
use std::alloc::{AllocError, Global};
use std::marker::Model;

// A step as it is kept: a box by its position among the boxes, or a call.
#[derive(Clone, Copy)]
enum Place {
    Own(usize),
    Called {
        turn: u8,
        symbol: u32,
        x: i64,
        y: i64,
    },
}

/// Steps in their order, which contracts see as their list. A call takes 24 bytes, half as many as a
/// `ForeignStep`: calls stand in one list with the positions of boxes, and the boxes, which are larger, in another.
#[derive(Drop)]
pub struct Steps {
    places: Vec<Place>,
    boxes: Vec<MaskBox>,
}

// Whether places are those of boxes alone, one after another.
fn are_boxes(places: &[Place]) -> bool
    ensures { IsTrue result → AreBoxes places.now }
{
    for (i, place) in places.iter().enumerate() {
        match *place {
            Place::Own(own) => {
                if own != i {
                    return false;
                }
            }
            Place::Called { .. } => return false,
        }
    }
    true
}

impl Model for Steps {
    ghost use Rattle.std.specs.Prelude.{List, All, length, map};
    ghost use Rattle.cif_read.specs.declared.file.ForeignStep.{ForeignStep};
    ghost use Rattle.cif_read.specs.Steps.{step_at, IsPlaceOf};

    ghost Value = { List ForeignStep };

    ghost view = { λ s. map (step_at s.boxes.items) s.places.items };

    ghost invariant = { λ s. All (IsPlaceOf (length s.boxes.items)) s.places.items };
}

impl Steps {
    /// None.
    pub fn new(alloc: Global) -> Steps
        ensures { result ≡ [] }
    {
        Steps {
            places: Vec::new(alloc),
            boxes: Vec::new(alloc),
        }
    }

    /// How many there are.
    pub fn len(&self) -> usize
        ensures { result ≡ length self.now }
    {
        self.places.len()
    }

    /// The step in this position.
    pub fn get(&self, at: usize) -> ForeignStep
        requires { at < length self.now }
        ensures { (none : ForeignStep) → result ≡ slice_index_or self.now at none }
    {
        match self.places[at] {
            Place::Own(own) => ForeignStep::Own(self.boxes[own]),
            Place::Called { turn, symbol, x, y } => ForeignStep::Called { symbol, turn, x, y },
        }
    }

    /// One more, after the others. After an `Err` nothing is said of them.
    pub fn push(&mut self, step: ForeignStep) -> Result<(), AllocError>
        ensures { OnOk result (self.new ≡ self.old ++ step ∷ []) }
    {
        match step {
            ForeignStep::Own(mask) => {
                let own = self.boxes.len();
                self.boxes.push(mask)?;
                self.places.push(Place::Own(own))?;
                Ok(())
            }
            ForeignStep::Called { symbol, turn, x, y } => {
                self.places.push(Place::Called { turn, symbol, x, y })?;
                Ok(())
            }
        }
    }

    /// The boxes that the steps are, in their order, if no step is a call, with nothing copied; else the steps.
    pub fn into_boxes(self) -> Result<Vec<MaskBox>, Steps>
        ensures boxes { IfOk result (λ boxes. self ≡ map Own boxes.items) }
        ensures steps { IfErr result (λ steps. steps ≡ self) }
    {
        if self.places.len() == self.boxes.len() && are_boxes(&self.places) {
            Ok(self.boxes)
        } else {
            Err(self)
        }
    }
}
