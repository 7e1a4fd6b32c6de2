//! The spacing table of some numbers, and the lengths that follow from them.
ghost use Rattle.std.specs.Prelude.{◌≡◌};
ghost use Rattle.rule_table.specs.Bounds.{IsInRange};
ghost use Rattle.rule_table.specs.Spacing.{row, spacing_in, margin_in, widest_in, width_in, pad_in, gap_of, greatest};

use crate::classes::{Class, Layer, Rule};
use crate::keys::Numbers;

impl Numbers {
    /// The rule of two classes, whichever of them the table names first.
    #[tactic(auto, unfolding(crate::specs::Spacing::spacing_in))]
    pub(crate) fn spacing(&self, a: Class, b: Class) -> Option<Rule>
        ensures { result ≡ spacing_in self.now a b }
    {
        match self.row(a, b) {
            Some(rule) => Some(rule),
            None => self.row(b, a),
        }
    }

    /// The row of the spacing table that names these two classes in this order.
    fn row(&self, a: Class, b: Class) -> Option<Rule>
        ensures { result ≡ row self.now a b }
    {
        let (s, net_exempt) = match (a, b) {
            (Class::M, Class::M) => (self.spacing_metal, true),
            (Class::P, Class::P) => (self.spacing_poly, true),
            (Class::Dc, Class::Dc) => (self.spacing_diffusion, true),
            (Class::P, Class::Dm) => (self.spacing_poly_diffusion, false),
            (Class::C, Class::C) => (self.spacing_cut, false),
            (Class::C, Class::G) => (self.spacing_cut_channel, false),
            (Class::I, Class::G) => (self.spacing_implant_channel, false),
            (Class::B, Class::G) if self.has_buried() => (self.spacing_buried_channel, false),
            _ => return None,
        };
        Some(Rule { s, net_exempt })
    }

    /// The spacing of two classes, and 0 where they have no rule.
    fn gap(&self, a: Class, b: Class) -> i64
        ensures { result ≡ gap_of (spacing_in self.now a b) }
    {
        match self.spacing(a, b) {
            Some(rule) => rule.s,
            None => 0,
        }
    }

    /// The greatest spacing of the rows with this class.
    #[tactic(auto, unfolding(crate::specs::Spacing::margin_in))]
    pub(crate) fn margin(&self, a: Class) -> i64
        ensures { result ≡ margin_in self.now a }
    {
        let gaps = [
            self.gap(a, Class::M),
            self.gap(a, Class::P),
            self.gap(a, Class::Dc),
            self.gap(a, Class::Dm),
            self.gap(a, Class::C),
            self.gap(a, Class::I),
            self.gap(a, Class::G),
            self.gap(a, Class::B),
        ];
        greatest(&gaps)
    }

    /// The greatest spacing of all rows.
    #[tactic(auto, unfolding(crate::specs::Spacing::widest_in))]
    pub(crate) fn widest(&self) -> i64
        ensures { result ≡ widest_in self.now }
    {
        let margins = [
            self.margin(Class::M),
            self.margin(Class::P),
            self.margin(Class::Dc),
            self.margin(Class::Dm),
            self.margin(Class::C),
            self.margin(Class::I),
            self.margin(Class::G),
            self.margin(Class::B),
        ];
        greatest(&margins)
    }

    /// The least width of a box on the layer.
    pub(crate) fn width(&self, layer: Layer) -> i64
        ensures { result ≡ width_in self.now layer }
    {
        match layer {
            Layer::Diffusion => self.width_diffusion,
            Layer::Poly => self.width_poly,
            Layer::Metal => self.width_metal,
        }
    }

    /// The side of the square pad round a cut.
    #[tactic(auto, unfolding(crate::specs::Spacing::pad_in))]
    pub(crate) fn pad(&self) -> i64
        requires { IsInRange self.now }
        ensures { result ≡ pad_in self.now }
    {
        self.cut_size + 2 * self.cut_enclosure
    }
}

#[tactic(auto, unfolding(crate::specs::Spacing::greatest))]
fn greatest(lengths: &[i64]) -> i64
    ensures { result ≡ greatest lengths.now }
{
    let mut most = 0;
    for length in lengths {
        most = most.max(*length);
    }
    most
}
