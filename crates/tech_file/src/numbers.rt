//! The numbers of a technology file's table.
ghost use Rattle.std.specs.Prelude.{◌≡◌, ◌<◌, option_map};
ghost use Rattle.toml.specs.{Data.get_member, View.{view, table_view}};
ghost use Rattle.tech_file.specs.Numbers.{integer_at, integer_in, integer_of, three_from, common_in, with_buried};
ghost use Rattle.tech_file.specs.Numbers.{numbers_in};

use crate::faults::KeyFault;
use rule_table::{Numbers, key_parts};
use toml::{Table, Value};

/// The numbers of the table, or the fault of the first key that is not there or holds no integer.
#[tactic(auto, unfolding(crate::specs::Numbers::numbers_in))]
pub(crate) fn numbers(top: &Table) -> Result<Numbers, KeyFault>
    ensures { result ≡ numbers_in (table_view top.now) }
{
    let numbers = common(top)?;
    if numbers.has_buried() {
        with_buried(top, numbers)
    } else {
        Ok(numbers)
    }
}

/// The same with the numbers of buried contacts.
#[tactic(auto, unfolding(crate::specs::Numbers::with_buried))]
fn with_buried(top: &Table, numbers: Numbers) -> Result<Numbers, KeyFault>
    ensures { result ≡ with_buried (table_view top.now) numbers }
{
    let extension_buried = integer_of(top, 17)?;
    let spacing_buried_channel = integer_of(top, 18)?;
    Ok(Numbers {
        extension_buried,
        spacing_buried_channel,
        ..numbers
    })
}

/// The numbers of every version, with those of buried contacts at 0.
#[tactic(auto, unfolding(crate::specs::Numbers::common_in))]
fn common(top: &Table) -> Result<Numbers, KeyFault>
    ensures { result ≡ common_in (table_view top.now) }
{
    let version = integer_of(top, 0)?;
    let unit = integer_of(top, 1)?;
    let width = three_from(top, 2)?;
    let spacing = three_from(top, 5)?;
    let spacing_poly_diffusion = integer_of(top, 8)?;
    let cut_spacing = three_from(top, 9)?;
    let extension = three_from(top, 12)?;
    let cut_size = integer_of(top, 15)?;
    let cut_enclosure = integer_of(top, 16)?;
    Ok(Numbers {
        version,
        unit,
        width_diffusion: width.0,
        width_poly: width.1,
        width_metal: width.2,
        spacing_diffusion: spacing.0,
        spacing_poly: spacing.1,
        spacing_metal: spacing.2,
        spacing_poly_diffusion,
        spacing_cut: cut_spacing.0,
        spacing_cut_channel: cut_spacing.1,
        spacing_implant_channel: cut_spacing.2,
        extension_poly: extension.0,
        extension_diffusion: extension.1,
        extension_implant: extension.2,
        cut_size,
        cut_enclosure,
        extension_buried: 0,
        spacing_buried_channel: 0,
    })
}

/// What stands in the table under the name.
pub(crate) fn found<'a>(table: &'a Table, name: &str) -> Option<&'a Value>
    ensures { option_map (λ v. view v.now) result ≡ get_member name.now (table_view table.now) }
{
    table.get(name)
}

type Found<'a> = Option<&'a Value>;

/// The integers at three keys that follow one another.
#[tactic(auto, unfolding(crate::specs::Numbers::three_from))]
fn three_from(top: &Table, first: u8) -> Result<(i64, i64, i64), KeyFault>
    requires { first < 254 }
    ensures { result ≡ three_from (table_view top.now) first }
{
    let x = integer_of(top, first)?;
    let y = integer_of(top, first + 1)?;
    let z = integer_of(top, first + 2)?;
    Ok((x, y, z))
}

/// The integer at the key with this number.
#[tactic(auto, unfolding(crate::specs::Numbers::integer_of))]
fn integer_of(top: &Table, number: u8) -> Result<i64, KeyFault>
    ensures { result ≡ integer_of (table_view top.now) number }
{
    let (table, name) = key_parts(number);
    if table.is_empty() {
        integer_at(number, found(top, name))
    } else {
        integer_in(number, name, found(top, table))
    }
}

/// The integer at a name in the table that was found.
#[tactic(auto, unfolding(crate::specs::Numbers::integer_in))]
fn integer_in(key: u8, name: &str, table: Found) -> Result<i64, KeyFault>
    ensures { result ≡ integer_in key name.now (option_map (λ v. view v.now) table.entry) }
{
    let Some(value) = table else {
        return Err(KeyFault::Missing(key));
    };
    match value.as_table() {
        Some(table) => integer_at(key, found(table, name)),
        None => Err(KeyFault::WrongType(key)),
    }
}

/// The integer that was found.
#[tactic(auto, unfolding(crate::specs::Numbers::integer_at))]
fn integer_at(key: u8, value: Found) -> Result<i64, KeyFault>
    ensures { result ≡ integer_at key (option_map (λ v. view v.now) value.entry) }
{
    let Some(value) = value else {
        return Err(KeyFault::Missing(key));
    };
    match value.as_integer() {
        Some(number) => Ok(number),
        None => Err(KeyFault::WrongType(key)),
    }
}
