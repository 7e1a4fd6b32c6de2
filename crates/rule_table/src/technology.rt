//! A technology: numbers without a fault.
ghost use Rattle.std.specs.Prelude.{◌≡◌, None};
ghost use Rattle.rule_table.specs.Faults.{fault_of};

use crate::classes::{Class, Layer, Rule};
use crate::faults::TechFault;
use crate::keys::Numbers;

/// A technology: numbers that meet the conditions of `Tech::new`. Lengths are in u, the grid unit.
#[derive(Clone, Copy, PartialEq, Eq)]
pub struct Tech {
    numbers: Numbers,
    pub ghost sound: { fault_of numbers ≡ None },
}

/// The numbers that the program ships with.
const SHIPPED: Numbers = Numbers {
    version: 1,
    unit: 150,
    width_diffusion: 4,
    width_poly: 4,
    width_metal: 6,
    spacing_diffusion: 6,
    spacing_poly: 4,
    spacing_metal: 6,
    spacing_poly_diffusion: 2,
    spacing_cut: 4,
    spacing_cut_channel: 4,
    spacing_implant_channel: 3,
    extension_poly: 4,
    extension_diffusion: 4,
    extension_implant: 3,
    cut_size: 4,
    cut_enclosure: 2,
    extension_buried: 0,
    spacing_buried_channel: 0,
};

impl Tech {
    ghost use Rattle.std.specs.Prelude.{◌≡◌, Some, None, pos, ◌≤ℤ◌, ◌+ℤ◌, ◌*ℤ◌, int_div, ◌↔◌};
    ghost use Rattle.std.specs.Prelude.{IsTrue, IsOk, IfOk, IfErr, IfSome};
    ghost use Rattle.rule_table.specs.Bounds.{IsSize, IsTechnology};
    ghost use Rattle.rule_table.specs.Faults.{fault_of};
    ghost use Rattle.rule_table.specs.Technology.{numbers_of, has_buried_of, spacing_of, has_class_of, margin_of};
    ghost use Rattle.rule_table.specs.Technology.{widest_of, width_of, pad_of, shipped_numbers, shipped2_numbers};
    ghost use Rattle.rule_table.specs.declared.classes.Class.{Class};
    ghost use Rattle.rule_table.specs.declared.classes.Layer.{Layer};

    /// The technology with these numbers, or the first of their faults in the order of `TechFault`.
    pub fn new(numbers: Numbers) -> Result<Tech, TechFault>
        ensures ok { IfOk result (λ t. numbers_of t ≡ numbers) }
        ensures accepted { IfOk result (λ _. fault_of numbers ≡ None) }
        ensures refused { IfErr result (λ fault. fault_of numbers ≡ Some fault) }

        // The eight conditions, in words, are met by exactly the numbers that have no fault.
        ensures exactly { IsOk result ↔ IsTechnology numbers }
    {
        match numbers.fault() {
            Some(fault) => Err(fault),
            None => Ok(Tech { numbers }),
        }
    }

    /// The technology that the program ships with: nMOS after Mead and Conway, with lambda at 3 microns and no buried
    /// contacts.
    pub fn shipped() -> Tech
        ensures { numbers_of result ≡ shipped_numbers }
    {
        Tech { numbers: SHIPPED }
    }

    /// The same technology with buried contacts.
    pub fn shipped2() -> Tech
        ensures { numbers_of result ≡ shipped2_numbers }
    {
        Tech {
            numbers: Numbers {
                version: 2,
                extension_buried: 4,
                spacing_buried_channel: 4,
                ..SHIPPED
            },
        }
    }

    /// The numbers that the technology was made of.
    pub fn numbers(&self) -> Numbers
        ensures value { result ≡ numbers_of self.now }
        ensures sound { IsTechnology result }
    {
        self.numbers
    }

    /// Whether the technology has buried contacts: its version is 2.
    pub fn has_buried(&self) -> bool
        ensures { result ≡ has_buried_of self.now }
    {
        self.numbers.has_buried()
    }

    /// The spacing of boxes of two classes, or `None` where the table has no row for them. The order of the classes
    /// does not matter.
    pub fn spacing(&self, a: Class, b: Class) -> Option<Rule>
        ensures value { result ≡ spacing_of self.now a b }
        ensures either_order { result ≡ spacing_of self.now b a }
        ensures bounds { IfSome result (λ rule. (pos 1 ≤ℤ rule.s) × (rule.s ≤ℤ pos 4096)) }
        ensures within_margins { IfSome result
            (λ rule. (rule.s ≤ℤ margin_of self.now a) × (rule.s ≤ℤ margin_of self.now b)) }
    {
        self.numbers.spacing(a, b)
    }

    /// The greatest spacing, in u, of the table's rows with this class: 0 for the windows of buried contacts where
    /// there are none, and at least 1 otherwise.
    pub fn margin(&self, a: Class) -> i64
        ensures value { result ≡ margin_of self.now a }
        ensures bounds { (pos 0 ≤ℤ result) × (result ≤ℤ pos 4096) }
        ensures positive { IsTrue (has_class_of self.now a) ↔ pos 1 ≤ℤ result }
        ensures within_widest { result ≤ℤ widest_of self.now }
    {
        self.numbers.margin(a)
    }

    /// The greatest spacing of the table, in u.
    pub fn widest(&self) -> i64
        ensures value { result ≡ widest_of self.now }
        ensures bounds { (pos 1 ≤ℤ result) × (result ≤ℤ pos 4096) }
        ensures over_margins { (a : Class) → margin_of self.now a ≤ℤ result }
    {
        self.numbers.widest()
    }

    /// The least width of a box on the layer, in u. It is even.
    pub fn width(&self, layer: Layer) -> i64
        ensures value { result ≡ width_of self.now layer }
        ensures size { IsSize result }
        ensures within_pad { result ≤ℤ pad_of self.now }
    {
        self.numbers.width(layer)
    }

    /// The side, in u, of the square pad round a contact's cut. It is even.
    pub fn pad(&self) -> i64
        ensures value { result ≡ pad_of self.now }
        ensures bounds { (pos 2 ≤ℤ result) × (result ≤ℤ pos 12288) }
        ensures even { (pos 2 *ℤ int_div result (pos 2)) ≡ result }
        ensures over_widths { (layer : Layer) → width_of self.now layer ≤ℤ result }
    {
        self.numbers.pad()
    }
}
