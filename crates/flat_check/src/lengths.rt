//! The lengths that rules ask for.
ghost use Rattle.std.specs.Prelude.{◌≡◌, ◌≤ℤ◌, ◌^◌, ◌-ℤ◌, pos, IfSome};
ghost use Rattle.rule_table.specs.Bounds.{IsLength};
ghost use Rattle.rule_breaks.specs.Reaches.{extension_of, least_of, reach_of, spacing_of_rule};

use crate::singles::width;
use crossings::in_grains;
use lam_geom::MaskLayer;
use rule_breaks::Rule;
use rule_table::Tech;

/// The length that a rule asks for at a box on a layer, in u, or None where it asks for none.
pub fn least_of(tech: &Tech, rule: Rule, layer: MaskLayer) -> Option<i64>
    ensures value { result ≡ least_of tech.now rule layer }
    ensures length { IfSome result IsLength }
{
    match rule {
        Rule::Width => width(tech, layer),
        Rule::CutSize => Some(tech.numbers().cut_size),
        Rule::ProperCrossing => None,
        Rule::CutCover => Some(tech.numbers().cut_enclosure),
        _ => Some(spacing(tech, rule)),
    }
}

/// How far an implant goes past its channel, in grains.
pub fn extension(tech: &Tech) -> i64
    ensures value { result ≡ extension_of tech.now }
    ensures not_negative { pos 0 ≤ℤ result }
    ensures within { result ≤ℤ pos (2 ^ 25) }
{
    in_grains(tech, tech.numbers().extension_implant)
}

/// How far apart the areas of a broken pair lie at most, in grains.
pub fn reach(tech: &Tech, rule: Rule) -> i64
    ensures value { result ≡ reach_of tech.now rule }
    ensures low { (pos 0 -ℤ pos 1) ≤ℤ result }
    ensures high { result ≤ℤ pos (2 ^ 25) }
{
    in_grains(tech, spacing(tech, rule)) - 1
}

// The spacing that a rule on pairs asks for, in u.
fn spacing(tech: &Tech, rule: Rule) -> i64
    ensures value { result ≡ spacing_of_rule tech.now rule }
    ensures length { IsLength result }
{
    let numbers = tech.numbers();
    match rule {
        Rule::PolyToDiffusion => numbers.spacing_poly_diffusion,
        Rule::MetalSpacing => numbers.spacing_metal,
        Rule::PolySpacing => numbers.spacing_poly,
        Rule::DiffusionSpacing => numbers.spacing_diffusion,
        Rule::CutSpacing => numbers.spacing_cut,
        Rule::CutToChannel => numbers.spacing_cut_channel,
        Rule::ImplantToChannel => numbers.spacing_implant_channel,
        Rule::WindowToChannel => numbers.spacing_buried_channel,
        Rule::Width | Rule::CutSize | Rule::ProperCrossing | Rule::CutCover => 0,
    }
}
