//! What has been read so far, and what each command makes of it.
ghost use Rattle.std.specs.Prelude.{◌≡◌, ℕ, ◌+◌, ◌<◌, ◌^◌, pos, ◌*ℤ◌, max, List, Ok, OnOk, IfErr, false, length};
ghost use Rattle.std.specs.Prelude.{slice_index_or, is_some, ◌&&◌, nat_le};
ghost use Rattle.cif_lex.specs.Shifts.{is_odd};
ghost use Rattle.cif_read.specs.{Hierarchies.most_depth, Acts.{start, act, empty, is_bad_area, scaled, boxed}};
ghost use Rattle.cif_read.specs.{Acts.{called_on, defined, finished, area, call}, Files.IsWithin, Scales.IsScale};
ghost use Rattle.cif_read.specs.{Readers.IsCauseOfStop, Readings.{state_of, level_from, IsSound, IsSoundLevel}};
ghost use Rattle.cif_read.specs.Readings.{HasTurn};

use crate::dialect::Dialect;
use crate::fault::{CifKind, Stop};
use crate::file::{ForeignStep, ForeignSymbol};
use crate::numbers::{is_bad_area, is_bad_call, is_bad_factor, is_bad_symbol, is_odd, scaled};
use crate::scale::Scale;
use crate::steps::Steps;
use cif_lex::{Command, Placement};
use lam_geom::MaskLayer;
use std::alloc::Global;
use std::collections::BTreeMap;
use std::mem;

/// The greatest depth of a symbol: one without calls has depth 1, and another 1 more than the greatest of those that
/// it calls.
pub const MOST_DEPTH: u8 = 64;

/// What is drawn at the top or in a definition: its scale, the layer that was named there, if any was, its steps, and
/// the greatest depth of a symbol that it calls, 0 where it calls none.
#[derive(Drop)]
pub struct Drawing {
    pub scale: Scale,
    pub layer: Option<Option<MaskLayer>>,
    pub steps: Steps,
    pub called: u8,
}

/// A definition that has begun and not ended: its number, and the top, which goes on after it.
#[derive(Drop)]
pub struct Begun {
    pub number: u32,
    pub top: Drawing,
}

/// What has been read: the definitions that have ended, with their depths and their places by their numbers; where
/// commands draw, in the definition that has begun or else at the top; and that definition.
#[derive(Drop)]
pub struct Reading {
    pub symbols: Vec<ForeignSymbol>,
    pub depths: Vec<u8>,
    pub places: BTreeMap<u32, u32>,
    pub drawing: Drawing,
    pub begun: Option<Begun>,
}

impl Drawing {
    /// Nothing, by this scale.
    pub fn new(alloc: Global, scale: Scale) -> Drawing
        ensures value { level_from result ≡ empty scale.above scale.below }
        ensures sound { IsScale scale → (depths : List ℕ) → IsSoundLevel depths result }
        ensures shallow { result.called ≡ 0 }
    {
        Drawing {
            scale,
            layer: None,
            steps: Steps::new(alloc),
            called: 0,
        }
    }

    // A box.
    fn area(&mut self, l: i64, w: i64, x: i64, y: i64) -> Result<(), Stop>
        requires scale { IsScale self.old.scale }
        requires good { is_bad_area l w x y ≡ false }
        ensures done { OnOk result (boxed (level_from self.old) self.old.layer l w x y ≡ Ok (level_from self.new)) }
        ensures refused { IfErr result (IsCauseOfStop (boxed (level_from self.old) self.old.layer l w x y)) }
        ensures sound { OnOk result ((depths : List ℕ) → IsSoundLevel depths self.old → IsSoundLevel depths self.new) }
        ensures called { self.new.called ≡ self.old.called }
    {
        let Some(named) = self.layer else {
            return Err(Stop::Refused(CifKind::NoLayer));
        };
        if self.scale.is_odd_area(l, w, x, y) {
            return Err(Stop::Refused(CifKind::OddScale));
        }
        if let Some(layer) = named {
            let scaled = self.scale.scaled_box(layer, l, w, x, y);
            let Ok(()) = self.steps.push(ForeignStep::Own(scaled)) else {
                return Err(Stop::OutOfMemory);
            };
        }
        Ok(())
    }

    // Whether a number is no whole number of hundredths of a micron.
    fn is_odd(&self, n: i64) -> bool
        requires scale { IsScale self.now.scale }
        requires near { IsWithin (2 ^ 32) n }
        ensures { result ≡ is_odd self.now.scale.above self.now.scale.below n }
    {
        is_odd(self.scale.above, self.scale.below, n)
    }

    // A shift's number in grains, each half a hundredth of a micron.
    fn in_grains(&self, n: i64) -> i64
        requires scale { IsScale self.now.scale }
        requires near { IsWithin (2 ^ 30) n }
        ensures value { result ≡ pos 2 *ℤ scaled self.now.scale.above self.now.scale.below n }
        ensures near { IsWithin (2 ^ 47) result }
    {
        2 * scaled(self.scale.above, self.scale.below, n)
    }

    // A call of the symbol in this position, which has this depth, by shifts whose numbers have this greatest common
    // divisor.
    fn call(
        &mut self,
        symbol: u32,
        depth: u8,
        too_deep: bool,
        place: Placement,
        divisor: u32,
    ) -> Result<(), Stop>
        requires scale { IsScale self.old.scale }
        requires turn { place.turn < 8 }
        requires x { IsWithin (2 ^ 30) place.x }
        requires y { IsWithin (2 ^ 30) place.y }
        ensures done { OnOk result
            (called_on (level_from self.old) divisor too_deep symbol place ≡ Ok (level_from self.new)) }
        ensures refused { IfErr result (IsCauseOfStop (called_on (level_from self.old) divisor too_deep symbol place)) }
        ensures sound { OnOk result ((depths : List ℕ) → symbol < length depths
            → depth ≡ slice_index_or depths symbol 0 → IsSoundLevel depths self.old → IsSoundLevel depths self.new) }
        ensures called { OnOk result (self.new.called ≡ max self.old.called depth) }
        ensures not_deep { OnOk result (too_deep ≡ false) }
    {
        if self.is_odd(divisor as i64) {
            return Err(Stop::Refused(CifKind::OddScale));
        }
        if too_deep {
            return Err(Stop::Refused(CifKind::TooDeep));
        }
        let x = self.in_grains(place.x);
        let y = self.in_grains(place.y);
        let step = ForeignStep::Called {
            symbol,
            turn: place.turn,
            x,
            y,
        };
        let Ok(()) = self.steps.push(step) else {
            return Err(Stop::OutOfMemory);
        };
        self.called = self.called.max(depth);
        Ok(())
    }
}

impl Reading {
    /// Nothing has been read.
    pub fn new(alloc: Global) -> Reading
        ensures value { state_of result ≡ start }
        ensures sound { IsSound 0 result }
    {
        Reading {
            symbols: Vec::new(alloc),
            depths: Vec::new(alloc),
            places: BTreeMap::new(alloc),
            drawing: Drawing::new(alloc, Scale { above: 1, below: 1 }),
            begun: None,
        }
    }

    // A definition begins.
    fn define(&mut self, alloc: Global, number: i64, above: i64, below: i64) -> Result<(), Stop>
        requires sound { IsSound (2 ^ 26) self.old }
        ensures done { OnOk result (defined (state_of self.old) number above below ≡ Ok (state_of self.new)) }
        ensures refused { IfErr result (IsCauseOfStop (defined (state_of self.old) number above below)) }
        ensures sound { OnOk result ((count : ℕ) → IsSound count self.old → IsSound (count + 1) self.new) }
    {
        if is_bad_symbol(number) || is_bad_factor(above) || is_bad_factor(below) {
            return Err(Stop::Refused(CifKind::BadNumber));
        }
        if self.begun.is_some() {
            return Err(Stop::Refused(CifKind::NestedDefinition));
        }
        let number = number as u32;
        if self.places.contains_key(&number) {
            return Err(Stop::Refused(CifKind::RepeatedSymbol));
        }
        let top = mem::replace(
            &mut self.drawing,
            Drawing::new(alloc, Scale { above, below }),
        );
        self.begun = Some(Begun { number, top });
        Ok(())
    }

    // The definition ends.
    fn finish(&mut self) -> Result<(), Stop>
        requires sound { IsSound (2 ^ 26) self.old }
        ensures done { OnOk result (finished (state_of self.old) (state_of self.old).begun ≡ Ok (state_of self.new)) }
        ensures refused { IfErr result (IsCauseOfStop (finished (state_of self.old) (state_of self.old).begun)) }
        ensures sound { OnOk result ((count : ℕ) → IsSound count self.old → IsSound (count + 1) self.new) }
    {
        let Some(begun) = self.begun.take() else {
            return Err(Stop::Refused(CifKind::BadCommand));
        };
        let drawing = mem::replace(&mut self.drawing, begun.top);
        let place = self.symbols.len() as u32;
        self.symbols.push(ForeignSymbol {
            number: begun.number,
            steps: drawing.steps,
        })?;
        self.depths.push(drawing.called + 1)?;
        self.places.insert(begun.number, place)?;
        Ok(())
    }

    // A box.
    fn area(&mut self, l: i64, w: i64, x: i64, y: i64) -> Result<(), Stop>
        requires sound { IsSound (2 ^ 26) self.old }
        ensures done { OnOk result (area (state_of self.old) l w x y ≡ Ok (state_of self.new)) }
        ensures refused { IfErr result (IsCauseOfStop (area (state_of self.old) l w x y)) }
        ensures sound { OnOk result ((count : ℕ) → IsSound count self.old → IsSound (count + 1) self.new) }
    {
        if is_bad_area(l, w, x, y) {
            return Err(Stop::Refused(CifKind::BadNumber));
        }
        self.drawing.area(l, w, x, y)
    }

    // Whether a symbol of this depth may not be called here: in a definition one of the greatest depth may not.
    fn is_too_deep(&self, depth: u8) -> bool
        ensures { result ≡ (is_some self.now.begun && nat_le most_depth depth) }
    {
        self.begun.is_some() && depth >= MOST_DEPTH
    }

    // A call.
    fn call(&mut self, number: i64, place: Placement, bad: bool, divisor: u32) -> Result<(), Stop>
        requires sound { IsSound (2 ^ 26) self.old }
        requires turn { place.turn < 8 }
        ensures done { OnOk result (call (state_of self.old) number place bad divisor ≡ Ok (state_of self.new)) }
        ensures refused { IfErr result (IsCauseOfStop (call (state_of self.old) number place bad divisor)) }
        ensures sound { OnOk result ((count : ℕ) → IsSound count self.old → IsSound (count + 1) self.new) }
    {
        if is_bad_call(number, place.x, place.y, bad) {
            return Err(Stop::Refused(CifKind::BadNumber));
        }
        let Some(symbol) = self.places.get(&(number as u32)).copied() else {
            return Err(Stop::Refused(CifKind::UnknownSymbol));
        };
        let depth = self.depths[symbol as usize];
        let too_deep = self.is_too_deep(depth);
        self.drawing.call(symbol, depth, too_deep, place, divisor)
    }

    /// Carries out a command. After a refusal nothing more may be read.
    pub fn act(&mut self, alloc: Global, dialect: Dialect, command: Command) -> Result<(), Stop>
        requires sound { IsSound (2 ^ 26) self.old }
        requires turn { HasTurn command }
        ensures done { OnOk result (act dialect (state_of self.old) command ≡ Ok (state_of self.new)) }
        ensures refused { IfErr result (IsCauseOfStop (act dialect (state_of self.old) command)) }
        ensures sound { OnOk result ((count : ℕ) → IsSound count self.old → IsSound (count + 1) self.new) }
    {
        match command {
            Command::Nothing | Command::Extension => Ok(()),
            Command::Define {
                number,
                above,
                below,
            } => self.define(alloc, number, above, below),
            Command::Finish => self.finish(),
            Command::Layer(layer) => {
                self.drawing.layer = Some(layer);
                Ok(())
            }
            Command::Area { l, w, x, y } => self.area(l, w, x, y),
            Command::Call {
                number,
                place,
                bad,
                turned,
                divisor,
            } => {
                if dialect.bars(turned, self.begun.is_some()) {
                    return Err(Stop::Refused(CifKind::BadCommand));
                }
                self.call(number, place, bad, divisor)
            }
        }
    }
}
