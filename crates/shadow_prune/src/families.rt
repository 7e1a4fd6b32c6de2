//! Families of classes, and their items as bars.

ghost use Rattle.std.specs.Prelude.{◌≡◌, ◌<◌, ◌^◌, length, All, IfOk, IfSome, Some, ◌&&◌, if◌then◌else◌, int_le};
ghost use Rattle.std.specs.Prelude.{pos, neg_ℤ, ◌≤ℤ◌};
ghost use Rattle.sym_items.specs.{Boxes.HasBox, Transposed.item_along};
ghost use Rattle.pair_rules.specs.Bound.{item_at};
ghost use Rattle.bar_rows.specs.Rows.{IsPlacedBar};
ghost use Rattle.shadow_prune.specs.Families.{main_of, other_of, role_of, self_spacing, other_spacing, has_self_rule};
ghost use Rattle.shadow_prune.specs.Families.{is_exempt, other_rule_of, has_rule, reach_of, least_needed, contacts_of};
ghost use Rattle.shadow_prune.specs.Families.{bar_of, bars_of};

use bar_rows::{Bar, Contacts};
use lam_geom::Axis;
use rule_table::{Class, Rule, Tech};
use std::alloc::{AllocError, Global};
use sym_items::{Coords, Item, NOWHERE, box_along};

/// Classes that keep a spacing from one class, the main one, and from no other but that of their family.
#[derive(Clone, Copy)]
pub enum Family {
    Metal,
    /// Diffusion that keeps the spacing of diffusion.
    Diffusion,
    /// Poly, with the diffusion of the mask.
    Poly,
    /// Cuts, with channels.
    Cuts,
    /// Implants, with channels.
    Implants,
    /// Windows of buried contacts, with channels.
    Windows,
}

/// All families.
pub(crate) const FAMILIES: [Family; 6] = [
    Family::Metal,
    Family::Diffusion,
    Family::Poly,
    Family::Cuts,
    Family::Implants,
    Family::Windows,
];

impl Family {
    // Its main class.
    fn main(self) -> Class
        ensures { result ≡ main_of self }
    {
        match self {
            Family::Metal => Class::M,
            Family::Diffusion => Class::Dc,
            Family::Poly => Class::P,
            Family::Cuts => Class::C,
            Family::Implants => Class::I,
            Family::Windows => Class::B,
        }
    }

    // The class that keeps a spacing from its main one alone.
    fn other(self) -> Option<Class>
        ensures { result ≡ other_of self }
    {
        match self {
            Family::Metal | Family::Diffusion => None,
            Family::Poly => Some(Class::Dm),
            Family::Cuts | Family::Implants | Family::Windows => Some(Class::G),
        }
    }

    // Whether a class is its main one, or `None` where it is not of the family.
    fn role(self, class: Class) -> Option<bool>
        ensures { result ≡ role_of self class }
    {
        match (self, class) {
            (Family::Metal, Class::M)
            | (Family::Diffusion, Class::Dc)
            | (Family::Poly, Class::P)
            | (Family::Cuts, Class::C)
            | (Family::Implants, Class::I)
            | (Family::Windows, Class::B) => Some(true),
            (Family::Poly, Class::Dm)
            | (Family::Cuts | Family::Implants | Family::Windows, Class::G) => Some(false),
            _ => None,
        }
    }

    // The rule of its main class with the other one.
    fn other_rule(self, tech: &Tech) -> Option<Rule>
        ensures value { result ≡ other_rule_of tech.now self }
        ensures bounds { IfSome result (λ rule. (pos 1 ≤ℤ rule.s) × (rule.s ≤ℤ pos 4096)) }
    {
        match self.other() {
            None => None,
            Some(other) => tech.spacing(self.main(), other),
        }
    }

    // The spacing of its main class from the other one, in u, or 0.
    fn other_spacing(self, tech: &Tech) -> i64
        ensures value { result ≡ other_spacing tech.now self }
        ensures bounds { (pos 0 ≤ℤ result) × (result ≤ℤ pos 4096) }
    {
        match self.other_rule(tech) {
            None => 0,
            Some(rule) => rule.s,
        }
    }

    // The spacing of its main class from itself, in u, or that from the other one where there is none.
    fn self_spacing(self, tech: &Tech) -> i64
        ensures value { result ≡ self_spacing tech.now self }
        ensures bounds { (pos 0 ≤ℤ result) × (result ≤ℤ pos 4096) }
    {
        match tech.spacing(self.main(), self.main()) {
            Some(rule) => rule.s,
            None => self.other_spacing(tech),
        }
    }

    /// Whether items of its main class keep a spacing from each other.
    pub(crate) fn has_self_rule(self, tech: &Tech) -> bool
        ensures { result ≡ has_self_rule tech.now self }
    {
        tech.spacing(self.main(), self.main()).is_some()
    }

    /// Whether any of its items keep a spacing from each other: windows have no rule where there are no buried
    /// contacts.
    pub(crate) fn has_rule(self, tech: &Tech) -> bool
        ensures { result ≡ has_rule tech.now self }
    {
        self.has_self_rule(tech) || self.other_rule(tech).is_some()
    }

    // Whether items of its main class and of one net keep none.
    fn is_exempt(self, tech: &Tech) -> bool
        ensures { result ≡ is_exempt tech.now self }
    {
        match tech.spacing(self.main(), self.main()) {
            Some(rule) => rule.net_exempt,
            None => false,
        }
    }

    // How far past its item a bar reaches, on a scale on which lengths count twice.
    fn reach(self, tech: &Tech, is_main: bool) -> i64
        ensures value { result ≡ reach_of tech.now self is_main }
        ensures bounds { (neg_ℤ (pos 4096) ≤ℤ result) × (result ≤ℤ pos 8192) }
    {
        let (of_mains, of_others) = (self.self_spacing(tech), self.other_spacing(tech));
        if is_main {
            of_mains
        } else {
            2 * of_others - of_mains
        }
    }

    // The least extent along the axis by which a bar between two others screens them: what these keep from each other,
    // less what it keeps from both. A main bar needs none.
    fn least_needed(self, tech: &Tech, is_main: bool) -> i64
        ensures { result ≡ least_needed tech.now self is_main }
    {
        let (of_mains, of_others) = (self.self_spacing(tech), self.other_spacing(tech));
        if is_main {
            -of_mains
        } else {
            of_mains - 2 * of_others
        }
    }

    // By what number main bars keep nothing from each other: their net, if the rule exempts items of one net.
    fn key(self, tech: &Tech, item: &Item, is_main: bool) -> u32
        ensures { result ≡ (if is_main && is_exempt tech.now self then item.now.net else item.now.owner) }
    {
        if is_main && self.is_exempt(tech) {
            item.net
        } else {
            item.owner
        }
    }

    // The buried contacts that count.
    fn contacts(self, item: &Item) -> Contacts
        ensures { result ≡ contacts_of self item.now }
    {
        if let Family::Poly = self {
            Contacts {
                low: item.at_low,
                high: item.at_high,
            }
        } else {
            Contacts {
                low: NOWHERE,
                high: NOWHERE,
            }
        }
    }

    // Whether an item between two others is long enough to screen them.
    fn is_solid(self, tech: &Tech, axis: Axis, item: &Item, is_main: bool) -> bool
        ensures { result ≡ int_le (least_needed tech.now self is_main) (item_along axis item.now).least_x }
    {
        self.least_needed(tech, is_main) <= item.least(axis)
    }

    // The bar of item `k`, which is of the family.
    fn bar(
        self,
        axis: Axis,
        tech: &Tech,
        items: &[Item],
        coords: &Coords,
        k: u32,
        is_main: bool,
    ) -> Bar
        requires boxes { All (HasBox coords.now) items.now }
        requires among { k < length items.now }
        requires role { role_of self (item_at items.now k).class ≡ Some is_main }
        ensures bar { result ≡ bar_of axis tech.now coords.now items.now self k }
        ensures placed { IsPlacedBar result }
    {
        let item = &items[k as usize];
        let across = box_along(axis, item, coords).y;
        let reach = self.reach(tech, is_main);
        Bar {
            start: 2 * across.lo - reach,
            end: 2 * across.hi + reach,
            key: self.key(tech, item, is_main),
            owner: item.owner,
            contacts: self.contacts(item),
            item: k,
            low: item.low(axis).var,
            high: item.high(axis).var,
            is_main,
            is_solid: self.is_solid(tech, axis, item, is_main),
        }
    }

    /// The items of the family as bars in a row, in the order given. The only refusal is want of memory.
    pub(crate) fn bars(
        self,
        alloc: Global,
        axis: Axis,
        tech: &Tech,
        items: &[Item],
        coords: &Coords,
        order: &[u32],
    ) -> Result<Vec<Bar>, AllocError>
        requires boxes { All (HasBox coords.now) items.now }
        requires among { All (λ k. k < length items.now) order.now }
        ensures bars { IfOk result (λ bars. bars.items ≡ bars_of axis tech.now coords.now items.now self order.now) }
        ensures placed { IfOk result (λ bars. All IsPlacedBar bars.items) }
    {
        let mut bars = Vec::new(alloc);
        for k in order {
            if let Some(is_main) = self.role(items[*k as usize].class) {
                bars.push(self.bar(axis, tech, items, coords, *k, is_main))?;
            }
        }
        Ok(bars)
    }
}
