//! The keys of a technology file's table that no technology has.
ghost use Rattle.std.specs.Prelude.{◌≡◌, IfOk, option_map, fold};
ghost use Rattle.toml.specs.{Data.get_member, View.table_view};
ghost use Rattle.rule_table.specs.Keys.{dotted, key_parts};
ghost use Rattle.tech_file.specs.Unknown.{stands_at, knows, unknown_in, unknown_at, unknown_keys, lesser, least};
ghost use Rattle.tech_file.specs.Unknown.{NamesLeast};

use crate::numbers::found;
use rule_table::{key_parts, push_dotted};
use std::alloc::{AllocError, Global};
use toml::Table;

/// The least unknown key, dotted, in the order of bytes.
pub(crate) fn least_unknown(
    alloc: Global,
    buried: bool,
    top: &Table,
) -> Result<Option<Vec<u8>>, AllocError>
    ensures value { IfOk result
        (λ key. option_map (λ k. k.items) key ≡ least (unknown_keys buried (table_view top.now))) }
    ensures named { IfOk result
        (λ key. NamesLeast (option_map (λ k. k.items) key) (unknown_keys buried (table_view top.now))) }
{
    let of_top = or_unknown_in(alloc, buried, None, "", top)?;
    let of_width = or_unknown_at(alloc, buried, of_top, "width", top)?;
    let of_spacing = or_unknown_at(alloc, buried, of_width, "spacing", top)?;
    let of_extension = or_unknown_at(alloc, buried, of_spacing, "extension", top)?;
    or_unknown_at(alloc, buried, of_extension, "cut", top)
}

/// The least of a key and the unknown keys of the table with this name.
#[tactic(auto, unfolding(crate::specs::Unknown::unknown_at))]
fn or_unknown_at(
    alloc: Global,
    buried: bool,
    least: Option<Vec<u8>>,
    name: &str,
    top: &Table,
) -> Result<Option<Vec<u8>>, AllocError>
    ensures { IfOk result (λ key. option_map (λ k. k.items) key
        ≡ fold lesser (option_map (λ k. k.items) least)
        (unknown_at buried name.now (get_member name.now (table_view top.now)))) }
{
    let Some(value) = found(top, name) else {
        return Ok(least);
    };
    match value.as_table() {
        Some(table) => or_unknown_in(alloc, buried, least, name, table),
        None => Ok(least),
    }
}

/// The least of a key and the unknown keys of a table.
fn or_unknown_in(
    alloc: Global,
    buried: bool,
    so_far: Option<Vec<u8>>,
    name: &str,
    table: &Table,
) -> Result<Option<Vec<u8>>, AllocError>
    ensures { IfOk result (λ key. option_map (λ k. k.items) key
        ≡ fold lesser (option_map (λ k. k.items) so_far) (unknown_in buried name.now (table_view table.now))) }
{
    let mut least = so_far;
    'members: for (key, _value) in table.iter() {
        if !knows(buried, name, key.as_str()) {
            least = Some(lesser(least, dotted(alloc, name, key.as_str())?));
        }
    }
    Ok(least)
}

/// Whether the table has the key, in a technology with or without buried contacts.
fn knows(buried: bool, table: &str, name: &str) -> bool
    ensures { result ≡ knows buried table.now name.now }
{
    let count = if buried { 19 } else { 17 };
    let mut known = false;
    for number in 0..count {
        known = known || stands_at(table, name, number);
    }
    known
}

/// Whether the key with this number stands in the table under the name; at the top stand the tables, too.
fn stands_at(table: &str, name: &str, number: u8) -> bool
    ensures { result ≡ stands_at table.now name.now (key_parts number) }
{
    let (of, own) = key_parts(number);
    if !table.is_empty() {
        of == table && own == name
    } else if of.is_empty() {
        own == name
    } else {
        of == name
    }
}

/// The dotted text of a name in a table.
fn dotted(alloc: Global, table: &str, name: &str) -> Result<Vec<u8>, AllocError>
    ensures { IfOk result (λ text. text.items ≡ dotted (table.now, name.now)) }
{
    let mut text = Vec::new(alloc);
    push_dotted(&mut text, table, name)?;
    Ok(text)
}

/// The lesser of two keys in the order of their bytes.
#[tactic(auto, unfolding(crate::specs::Unknown::lesser))]
fn lesser(least: Option<Vec<u8>>, key: Vec<u8>) -> Vec<u8>
    ensures { lesser (option_map (λ k. k.items) least) key.items ≡ Some result.items }
{
    match least {
        Some(least) => {
            if key.as_slice().cmp(&least.as_slice()).is_lt() {
                key
            } else {
                least
            }
        }
        None => key,
    }
}
