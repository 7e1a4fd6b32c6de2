//! The numbers of a technology in the order of their keys.
ghost use Rattle.std.specs.Prelude.{◌≡◌, ◌++◌, OnOk};
ghost use Rattle.rule_table.specs.Keys.{dotted, key_parts, dotted_key, common_numbers, buried_numbers, sizes, spacings};
ghost use Rattle.rule_table.specs.Keys.{has_buried, most_of_buried, is_outside, is_no_size, is_zero, first_key};
ghost use Rattle.rule_table.specs.Keys.{first_outside};

use std::alloc::AllocError;

/// The numbers of a technology file, in the order of its keys. Lengths are in u, the grid unit, and `unit` is u in
/// hundredths of a micron. Version 1 has no buried contacts: a file has seventeen numbers, and the last two are 0.
#[derive(Clone, Copy, Debug, PartialEq, Eq)]
pub struct Numbers {
    /// Key 0, `version`: the version of the file's format, 1 or 2.
    pub version: i64,
    /// Key 1, `unit`: the grid unit in hundredths of a micron.
    pub unit: i64,
    /// Key 2, `width.diffusion`.
    pub width_diffusion: i64,
    /// Key 3, `width.poly`.
    pub width_poly: i64,
    /// Key 4, `width.metal`.
    pub width_metal: i64,
    /// Key 5, `spacing.diffusion`.
    pub spacing_diffusion: i64,
    /// Key 6, `spacing.poly`.
    pub spacing_poly: i64,
    /// Key 7, `spacing.metal`.
    pub spacing_metal: i64,
    /// Key 8, `spacing.poly_diffusion`.
    pub spacing_poly_diffusion: i64,
    /// Key 9, `spacing.cut`.
    pub spacing_cut: i64,
    /// Key 10, `spacing.cut_channel`.
    pub spacing_cut_channel: i64,
    /// Key 11, `spacing.implant_channel`.
    pub spacing_implant_channel: i64,
    /// Key 12, `extension.poly`: how far the gate's poly goes on past the channel.
    pub extension_poly: i64,
    /// Key 13, `extension.diffusion`: how far the diffusion goes on past the channel.
    pub extension_diffusion: i64,
    /// Key 14, `extension.implant`: how far the implant goes on past the channel.
    pub extension_implant: i64,
    /// Key 15, `cut.size`: the side of a contact cut.
    pub cut_size: i64,
    /// Key 16, `cut.enclosure`: how far a contact's pad goes on past its cut.
    pub cut_enclosure: i64,
    /// Key 17, `extension.buried`: how far a buried contact's window goes on past its pad.
    pub extension_buried: i64,
    /// Key 18, `spacing.buried_channel`: between a buried contact's window and a channel.
    pub spacing_buried_channel: i64,
}

/// The key with this number in a technology's text: the table that it stands in, which has no name at the top, and its
/// name there.
#[tactic(auto, unfolding(crate::specs::Keys::key_parts))]
pub fn key_parts(number: u8) -> (&'static str, &'static str)
    ensures { (result.0.now, result.1.now) ≡ key_parts number }
{
    match number {
        0 => ("", "version"),
        1 => ("", "unit"),
        2 => ("width", "diffusion"),
        3 => ("width", "poly"),
        4 => ("width", "metal"),
        5 => ("spacing", "diffusion"),
        6 => ("spacing", "poly"),
        7 => ("spacing", "metal"),
        8 => ("spacing", "poly_diffusion"),
        9 => ("spacing", "cut"),
        10 => ("spacing", "cut_channel"),
        11 => ("spacing", "implant_channel"),
        12 => ("extension", "poly"),
        13 => ("extension", "diffusion"),
        14 => ("extension", "implant"),
        15 => ("cut", "size"),
        16 => ("cut", "enclosure"),
        17 => ("extension", "buried"),
        18 => ("spacing", "buried_channel"),
        _ => ("", ""),
    }
}

/// Appends the dotted text of a name in a table: the table's name, a dot and the name, and the name alone at the top.
pub fn push_dotted(out: &mut Vec<u8>, table: &str, name: &str) -> Result<(), AllocError>
    ensures { OnOk result (out.new.items ≡ out.old.items ++ dotted (table.now, name.now)) }
{
    if !table.is_empty() {
        out.extend_from_slice(table.as_bytes())?;
        out.push(b'.')?;
    }
    out.extend_from_slice(name.as_bytes())
}

/// Appends the dotted text of the key with this number, as `spacing.metal`.
pub fn push_key(out: &mut Vec<u8>, number: u8) -> Result<(), AllocError>
    ensures { OnOk result (out.new.items ≡ out.old.items ++ dotted_key number) }
{
    let (table, name) = key_parts(number);
    push_dotted(out, table, name)
}

/// The greatest number that a technology may have.
const GREATEST: i64 = 4096;

impl Numbers {
    /// The numbers of every version in the order of their keys, each after the place of its key.
    fn common(&self) -> [(u8, i64); 17]
        ensures { result ≡ common_numbers self.now }
    {
        [
            (0, self.version),
            (1, self.unit),
            (2, self.width_diffusion),
            (3, self.width_poly),
            (4, self.width_metal),
            (5, self.spacing_diffusion),
            (6, self.spacing_poly),
            (7, self.spacing_metal),
            (8, self.spacing_poly_diffusion),
            (9, self.spacing_cut),
            (10, self.spacing_cut_channel),
            (11, self.spacing_implant_channel),
            (12, self.extension_poly),
            (13, self.extension_diffusion),
            (14, self.extension_implant),
            (15, self.cut_size),
            (16, self.cut_enclosure),
        ]
    }

    /// Those of buried contacts.
    fn buried(&self) -> [(u8, i64); 2]
        ensures { result ≡ buried_numbers self.now }
    {
        [
            (17, self.extension_buried),
            (18, self.spacing_buried_channel),
        ]
    }

    /// Whether these are the numbers of a technology with buried contacts: its version is 2.
    #[tactic(auto, unfolding(crate::specs::Keys::has_buried))]
    pub fn has_buried(&self) -> bool
        ensures { result ≡ has_buried self.now }
    {
        self.version == 2
    }

    /// The first number below 0 or above the greatest: `GREATEST`, and 0 for those of buried contacts where there are
    /// none.
    #[tactic(auto, unfolding(crate::specs::Keys::first_outside))]
    pub(crate) fn first_outside(&self) -> Option<u8>
        ensures { result ≡ first_outside self.now }
    {
        first_above(&self.common(), GREATEST).or(first_above(&self.buried(), self.most_of_buried()))
    }

    /// The greatest that a number of buried contacts may be.
    fn most_of_buried(&self) -> i64
        ensures { result ≡ most_of_buried self.now }
    {
        if self.has_buried() { GREATEST } else { 0 }
    }

    /// The first width, or the cut's size, that is odd or 0.
    #[tactic(auto, unfolding(crate::specs::Keys::first_key))]
    pub(crate) fn first_bad_size(&self) -> Option<u8>
        ensures { result ≡ first_key is_no_size (sizes self.now) }
    {
        let [_, _, diffusion, poly, metal, .., cut, _] = self.common();
        [diffusion, poly, metal, cut]
            .iter()
            .find(|n| is_no_size(n.1))
            .map(|n| n.0)
    }

    /// The first spacing that is 0.
    #[tactic(auto, unfolding(crate::specs::Keys::first_key))]
    pub(crate) fn first_zero_spacing(&self) -> Option<u8>
        ensures { result ≡ first_key is_zero (spacings self.now) }
    {
        let of_buried = if self.has_buried() {
            first_zero(&self.buried()[1..])
        } else {
            None
        };
        first_zero(&self.common()[5..12]).or(of_buried)
    }
}

/// The first number below 0 or above the most.
#[tactic(auto, unfolding(crate::specs::Keys::first_key))]
fn first_above(numbers: &[(u8, i64)], most: i64) -> Option<u8>
    ensures { result ≡ first_key (is_outside most) numbers.now }
{
    numbers.iter().find(|n| n.1 < 0 || n.1 > most).map(|n| n.0)
}

/// The first number that is 0.
#[tactic(auto, unfolding(crate::specs::Keys::first_key))]
fn first_zero(numbers: &[(u8, i64)]) -> Option<u8>
    ensures { result ≡ first_key is_zero numbers.now }
{
    numbers.iter().find(|n| n.1 == 0).map(|n| n.0)
}

/// Whether a number is odd or 0, so that no box centred on the grid has this size.
#[tactic(auto, unfolding(crate::specs::Keys::is_no_size))]
pub(crate) fn is_no_size(z: i64) -> bool
    ensures { result ≡ is_no_size z }
{
    z % 2 != 0 || z == 0
}
