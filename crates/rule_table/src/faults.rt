//! The conditions that the numbers of a technology meet.
ghost use Rattle.std.specs.Prelude.{◌≡◌, int_lt, IfNone};
ghost use Rattle.rule_table.specs.{Bounds.IsInRange, Faults.{fault_of, range_fault, has_short_channel}};
ghost use Rattle.rule_table.specs.Faults.{has_short_extension, has_narrow_fet, has_small_pad, gate_length};
ghost use Rattle.rule_table.specs.{Faults.diffusion_length, Spacing.pad_in};

use crate::keys::{Numbers, is_no_size};
use std::fmt;

/// The first condition that some numbers break, in the order in which they are tested. A `u8` is the place of the key
/// in the order of `Numbers`, and the least one that breaks the condition.
#[derive(Clone, Copy, Debug, PartialEq, Eq)]
pub enum TechFault {
    /// A number is below 0 or above 4096, the version is other than 1 or 2, or the version is 1 and a number of buried
    /// contacts is other than 0.
    OutOfRange(u8),
    /// The unit is odd or 0.
    OddGrid,
    /// A width or the cut's size is odd or 0.
    OddWidth(u8),
    /// A spacing is 0; that of buried contacts counts in version 2 alone.
    ZeroSpacing(u8),
    /// Poly width plus poly to diffusion spacing is below diffusion spacing.
    ShortChannel,
    /// The poly or the diffusion extension is at most the poly to diffusion spacing.
    ShortExtension,
    /// Diffusion width plus twice the poly extension is below poly width, or poly width plus twice the diffusion
    /// extension is below diffusion width.
    NarrowFet,
    /// Cut size plus twice the enclosure is below one of the three widths.
    PadTooSmall,
}

impl TechFault {
    fn words(self) -> &'static str {
        match self {
            TechFault::OutOfRange(_) => "a number is out of range",
            TechFault::OddGrid => "the unit is odd or 0",
            TechFault::OddWidth(_) => "a width is odd or 0",
            TechFault::ZeroSpacing(_) => "a spacing is 0",
            TechFault::ShortChannel => "the channel of the least transistor is too short",
            TechFault::ShortExtension => "an extension is too short",
            TechFault::NarrowFet => "the least transistor is too narrow",
            TechFault::PadTooSmall => "the pad of a contact is too small",
        }
    }
}

impl fmt::Display for TechFault {
    fn fmt<W: fmt::Write>(&self, f: &mut fmt::Formatter<W>) -> fmt::Result {
        f.write_str(self.words())
    }
}

impl std::error::Error for TechFault {}

impl Numbers {
    /// The first fault of the numbers, or `None` where they are those of a technology.
    #[tactic(auto, unfolding(crate::specs::Faults::fault_of))]
    pub(crate) fn fault(&self) -> Option<TechFault>
        ensures { result ≡ fault_of self.now }
    {
        if let Some(fault) = self.range_fault() {
            return Some(fault);
        }
        if is_no_size(self.unit) {
            return Some(TechFault::OddGrid);
        }
        if let Some(key) = self.first_bad_size() {
            return Some(TechFault::OddWidth(key));
        }
        if let Some(key) = self.first_zero_spacing() {
            return Some(TechFault::ZeroSpacing(key));
        }
        if self.has_short_channel() {
            return Some(TechFault::ShortChannel);
        }
        if self.has_short_extension() {
            return Some(TechFault::ShortExtension);
        }
        if self.has_narrow_fet() {
            return Some(TechFault::NarrowFet);
        }
        if self.has_small_pad() {
            return Some(TechFault::PadTooSmall);
        }
        None
    }

    /// The fault of a number that is out of range.
    #[tactic(auto, unfolding(crate::specs::Faults::range_fault))]
    fn range_fault(&self) -> Option<TechFault>
        ensures value { result ≡ range_fault self.now }
        ensures within { IfNone result (IsInRange self.now) }
    {
        if self.version != 1 && self.version != 2 {
            return Some(TechFault::OutOfRange(0));
        }
        match self.first_outside() {
            Some(key) => Some(TechFault::OutOfRange(key)),
            None => None,
        }
    }

    /// Whether the diffusion on both sides of the shortest channel would be too near.
    #[tactic(auto, unfolding(crate::specs::Faults::has_short_channel))]
    fn has_short_channel(&self) -> bool
        requires { IsInRange self.now }
        ensures { result ≡ has_short_channel self.now }
    {
        self.width_poly + self.spacing_poly_diffusion < self.spacing_diffusion
    }

    /// Whether wires that keep off the channel would not meet the gate's poly or the diffusion.
    #[tactic(auto, unfolding(crate::specs::Faults::has_short_extension))]
    fn has_short_extension(&self) -> bool
        ensures { result ≡ has_short_extension self.now }
    {
        let apart = self.spacing_poly_diffusion;
        self.extension_poly <= apart || self.extension_diffusion <= apart
    }

    /// Whether a box of the narrowest transistor would be narrower than its layer allows.
    #[tactic(auto, unfolding(crate::specs::Faults::has_narrow_fet))]
    fn has_narrow_fet(&self) -> bool
        requires { IsInRange self.now }
        ensures { result ≡ has_narrow_fet self.now }
    {
        is_below(self.gate_length(), self.width_poly)
            || is_below(self.diffusion_length(), self.width_diffusion)
    }

    /// The length of the narrowest transistor's gate, with both extensions.
    #[tactic(auto, unfolding(crate::specs::Faults::gate_length))]
    fn gate_length(&self) -> i64
        requires { IsInRange self.now }
        ensures { result ≡ gate_length self.now }
    {
        self.width_diffusion + 2 * self.extension_poly
    }

    /// The length of the shortest transistor's diffusion, with both extensions.
    #[tactic(auto, unfolding(crate::specs::Faults::diffusion_length))]
    fn diffusion_length(&self) -> i64
        requires { IsInRange self.now }
        ensures { result ≡ diffusion_length self.now }
    {
        self.width_poly + 2 * self.extension_diffusion
    }

    /// Whether the pad of a contact would be narrower than one of the layers allows.
    #[tactic(auto, unfolding(crate::specs::Faults::has_small_pad))]
    fn has_small_pad(&self) -> bool
        requires { IsInRange self.now }
        ensures { result ≡ has_small_pad self.now }
    {
        let pad = self.pad();
        [self.width_diffusion, self.width_poly, self.width_metal]
            .iter()
            .any(|width| pad < *width)
    }
}

fn is_below(a: i64, b: i64) -> bool
    ensures { result ≡ int_lt a b }
{
    a < b
}
