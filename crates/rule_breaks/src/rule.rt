//! Rules and breaks.
ghost use Rattle.std.specs.Prelude.{◌≡◌};
ghost use Rattle.rule_breaks.specs.{Breaks.number_of, Order.{next_of, rule_of}};

use lam_list::Seq;

/// A rule on mask boxes, after Mead and Conway. Nets are those that the boxes make.
#[derive(Clone, Copy, PartialEq, Eq)]
pub enum Rule {
    /// 1: diffusion, poly and metal are as wide as their layer's width.
    Width,
    /// 2: a cut is a square of the cut's size.
    CutSize,
    /// 3: poly and diffusion that overlap are a buried pair or cross properly, and then neither overlaps a further
    /// box of the other's layer.
    ProperCrossing,
    /// 4: poly and diffusion that do not overlap keep their spacing.
    PolyToDiffusion,
    /// 5: a cut lies inside metal, and inside poly or diffusion, by the enclosure.
    CutCover,
    /// 6: metal of different nets keeps its spacing.
    MetalSpacing,
    /// 7: poly of different nets keeps its spacing.
    PolySpacing,
    /// 8: pieces of diffusion, of different boxes and different nets, keep their spacing.
    DiffusionSpacing,
    /// 9: two cuts keep their spacing.
    CutSpacing,
    /// 10: a cut and a channel keep their spacing.
    CutToChannel,
    /// 11: an implant goes past a channel by its extension, or keeps its spacing from it.
    ImplantToChannel,
    /// 12: where the technology has buried contacts, a window and a channel keep their spacing.
    WindowToChannel,
}

impl Rule {
    /// The rule's number, from 1.
    pub fn number(self) -> u32
        ensures { result ≡ number_of self }
    {
        match self {
            Rule::Width => 1,
            Rule::CutSize => 2,
            Rule::ProperCrossing => 3,
            Rule::PolyToDiffusion => 4,
            Rule::CutCover => 5,
            Rule::MetalSpacing => 6,
            Rule::PolySpacing => 7,
            Rule::DiffusionSpacing => 8,
            Rule::CutSpacing => 9,
            Rule::CutToChannel => 10,
            Rule::ImplantToChannel => 11,
            Rule::WindowToChannel => 12,
        }
    }

    /// The rule with a number from 1 to 12.
    pub fn of_number(number: u32) -> Rule
        ensures { result ≡ rule_of number }
    {
        match number {
            2 => Rule::CutSize,
            3 => Rule::ProperCrossing,
            4 => Rule::PolyToDiffusion,
            5 => Rule::CutCover,
            6 => Rule::MetalSpacing,
            7 => Rule::PolySpacing,
            8 => Rule::DiffusionSpacing,
            9 => Rule::CutSpacing,
            10 => Rule::CutToChannel,
            11 => Rule::ImplantToChannel,
            12 => Rule::WindowToChannel,
            _ => Rule::Width,
        }
    }

    /// The rule after this one, if there is one.
    pub fn next(self) -> Option<Rule>
        ensures { result ≡ next_of self }
    {
        match self {
            Rule::Width => Some(Rule::CutSize),
            Rule::CutSize => Some(Rule::ProperCrossing),
            Rule::ProperCrossing => Some(Rule::PolyToDiffusion),
            Rule::PolyToDiffusion => Some(Rule::CutCover),
            Rule::CutCover => Some(Rule::MetalSpacing),
            Rule::MetalSpacing => Some(Rule::PolySpacing),
            Rule::PolySpacing => Some(Rule::DiffusionSpacing),
            Rule::DiffusionSpacing => Some(Rule::CutSpacing),
            Rule::CutSpacing => Some(Rule::CutToChannel),
            Rule::CutToChannel => Some(Rule::ImplantToChannel),
            Rule::ImplantToChannel => Some(Rule::WindowToChannel),
            Rule::WindowToChannel => None,
        }
    }
}

/// A rule by its number, from 1 to 12, that is broken at two boxes, by their numbers, the lesser one first; or at one
/// box, and then both are its number. A channel, and a piece of diffusion, goes by the number of its diffusion box.
#[derive(Clone, Copy, Debug, PartialEq, Eq)]
pub struct Break {
    pub rule: u32,
    pub a: u32,
    pub b: u32,
}

/// The first breaks of some boxes, in order of rule, first box and second box.
#[derive(Drop)]
pub struct Breaks {
    pub list: Seq<Break>,
    /// Whether there are more.
    pub more: bool,
}
