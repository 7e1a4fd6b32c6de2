//! From the bytes of a technology file to the technology.
ghost use Rattle.std.specs.Prelude.{◌≡◌, Ok, IfOk, IfErr};
ghost use Rattle.toml.specs.View.{table_view};
ghost use Rattle.rule_table.specs.Technology.{numbers_of};
ghost use Rattle.tech_file.specs.Technology.{technology_of, technology_in, table_of, Refuses};

use crate::faults::{ReadTechFault, TechFileFault};
use crate::numbers::numbers;
use crate::unknown::least_unknown;
use rule_table::Tech;
use std::alloc::Global;
use stick_lex::Text;
use toml::Table;

/// The technology that a text is: a TOML table with exactly the integers of a technology, seventeen in version 1 and
/// nineteen in version 2.
///
/// Else the first fault of the text: it is no TOML (`NotToml`); of the first key at which there is one, `Missing` or
/// `WrongType`; the least `Unknown` key; a fault of the `Numbers`. `OutOfMemory` may come with any text.
pub fn read_tech(alloc: Global, text: &[u8]) -> Result<Tech, ReadTechFault>
    ensures accepted { IfOk result (λ tech. technology_of text.now ≡ Ok (numbers_of tech)) }
    ensures refused { IfErr result (λ fault. Refuses fault (technology_of text.now)) }
{
    let top = table(alloc, text)?;
    technology(alloc, &top)
}

/// The table that a text is.
fn table(alloc: Global, text: &[u8]) -> Result<Table, ReadTechFault>
    ensures read { IfOk result (λ top. table_of text.now ≡ Ok (table_view top)) }
    ensures refused { IfErr result (λ fault. Refuses fault (table_of text.now)) }
{
    match toml::table_from_slice(alloc, text) {
        Ok(top) => Ok(top),
        Err(e) => {
            if e.is_memory() {
                return Err(ReadTechFault::OutOfMemory);
            }
            Err(ReadTechFault::File(TechFileFault::NotToml))
        }
    }
}

/// The technology that a table is.
fn technology(alloc: Global, top: &Table) -> Result<Tech, ReadTechFault>
    ensures accepted { IfOk result (λ tech. technology_in (table_view top.now) ≡ Ok (numbers_of tech)) }
    ensures refused { IfErr result (λ fault. Refuses fault (technology_in (table_view top.now))) }
{
    let numbers = numbers(top)?;
    if let Some(key) = least_unknown(alloc, numbers.has_buried(), top)? {
        let key = Text::new(alloc, key.as_slice())?;
        return Err(ReadTechFault::File(TechFileFault::Unknown(key)));
    }
    match Tech::new(numbers) {
        Ok(tech) => Ok(tech),
        Err(fault) => Err(ReadTechFault::File(TechFileFault::Numbers(fault))),
    }
}
