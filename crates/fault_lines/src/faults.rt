//! The lines that say what is wrong with a technology, a design, a script or a CIF text.

ghost use Rattle.std.specs.Prelude.{◌≡◌, ◌++◌, OnOk, IfOk};
ghost use Rattle.rule_table.specs.Keys.{dotted_key};
ghost use Rattle.fault_lines.specs.FaultLines.{numbers_words, tech_words, tech_line, kind_word, stick_line};
ghost use Rattle.fault_lines.specs.FaultLines.{cif_word, cif_line, improper_line, broken_line, script_line};

use cif_read::{CifFault, CifKind};
use rule_table::{TechFault, push_key};
use std::alloc::{AllocError, Global};
use stick_lex::{Text, push_decimal};
use stick_text::{StickFault, StickKind};
use tech_file::TechFileFault;

// A fault's name and its key, with a blank between.
fn push_keyed(out: &mut Vec<u8>, name: &[u8], key: u8) -> Result<(), AllocError>
    ensures { OnOk result (out.new.items ≡ out.old.items ++ (name.now ++ dotted_key key)) }
{
    out.extend_from_slice(name)?;
    push_key(out, key)
}

fn push_numbers_fault(out: &mut Vec<u8>, fault: TechFault) -> Result<(), AllocError>
    ensures { OnOk result (out.new.items ≡ out.old.items ++ numbers_words fault) }
{
    match fault {
        TechFault::OutOfRange(key) => push_keyed(out, b"OutOfRange ", key),
        TechFault::OddGrid => out.extend_from_slice(b"OddGrid"),
        TechFault::OddWidth(key) => push_keyed(out, b"OddWidth ", key),
        TechFault::ZeroSpacing(key) => push_keyed(out, b"ZeroSpacing ", key),
        TechFault::ShortChannel => out.extend_from_slice(b"ShortChannel"),
        TechFault::ShortExtension => out.extend_from_slice(b"ShortExtension"),
        TechFault::NarrowFet => out.extend_from_slice(b"NarrowFet"),
        TechFault::PadTooSmall => out.extend_from_slice(b"PadTooSmall"),
    }
}

fn push_tech_fault(out: &mut Vec<u8>, fault: &TechFileFault) -> Result<(), AllocError>
    ensures { OnOk result (out.new.items ≡ out.old.items ++ tech_words fault.now) }
{
    match fault {
        TechFileFault::NotToml => out.extend_from_slice(b"NotToml"),
        TechFileFault::Missing(key) => push_keyed(out, b"Missing ", *key),
        TechFileFault::WrongType(key) => push_keyed(out, b"WrongType ", *key),
        TechFileFault::Unknown(key) => {
            out.extend_from_slice(b"Unknown ")?;
            out.extend_from_slice(key.bytes())
        }
        TechFileFault::Numbers(fault) => push_numbers_fault(out, *fault),
    }
}

/// The line that says what is wrong with a technology.
pub fn tech_line(alloc: Global, fault: &TechFileFault) -> Result<Text, AllocError>
    ensures { IfOk result (λ line. line ≡ tech_line fault.now) }
{
    let mut out = Vec::from_slice(alloc, b"sticks: technology: ")?;
    push_tech_fault(&mut out, fault)?;
    out.push(b'\n')?;
    Text::new(alloc, &out)
}

fn kind_word(kind: StickKind) -> &'static [u8]
    ensures { result.now ≡ kind_word kind }
{
    match kind {
        StickKind::BadByte => b"BadByte",
        StickKind::NumberTooLarge => b"NumberTooLarge",
        StickKind::BadLine => b"BadLine",
        StickKind::Unended => b"Unended",
        StickKind::TooManyCells => b"TooManyCells",
        StickKind::RepeatedName => b"RepeatedName",
        StickKind::UnknownName => b"UnknownName",
        StickKind::UseCycle => b"UseCycle",
        StickKind::UseDepth => b"UseDepth",
        StickKind::UsedPorts => b"UsedPorts",
        StickKind::FarPlace => b"FarPlace",
        StickKind::BadSize => b"BadSize",
        StickKind::NarrowWire => b"NarrowWire",
        StickKind::WrongTerminal => b"WrongTerminal",
        StickKind::NotStraight => b"NotStraight",
        StickKind::WrongLayer => b"WrongLayer",
        StickKind::WrongSide => b"WrongSide",
        StickKind::WideWire => b"WideWire",
        StickKind::PortWires => b"PortWires",
        StickKind::BadLimit => b"BadLimit",
        StickKind::NoBuried => b"NoBuried",
    }
}

/// The line that says what is wrong with a design, and where.
pub fn stick_line(alloc: Global, fault: StickFault) -> Result<Text, AllocError>
    ensures { IfOk result (λ line. line ≡ stick_line fault) }
{
    let mut out = Vec::from_slice(alloc, b"sticks: line ")?;
    push_decimal(&mut out, u64::from(fault.line))?;
    out.extend_from_slice(b": ")?;
    out.extend_from_slice(kind_word(fault.kind))?;
    out.push(b'\n')?;
    Text::new(alloc, &out)
}

fn cif_word(kind: CifKind) -> &'static [u8]
    ensures { result.now ≡ cif_word kind }
{
    match kind {
        CifKind::BadCommand => b"BadCommand",
        CifKind::BadNumber => b"BadNumber",
        CifKind::NestedDefinition => b"NestedDefinition",
        CifKind::RepeatedSymbol => b"RepeatedSymbol",
        CifKind::UnknownSymbol => b"UnknownSymbol",
        CifKind::NoLayer => b"NoLayer",
        CifKind::OddScale => b"OddScale",
        CifKind::TooDeep => b"TooDeep",
        CifKind::NoEnd => b"NoEnd",
        CifKind::AfterEnd => b"AfterEnd",
    }
}

/// The line that says what is wrong with a CIF text, and at which byte.
pub fn cif_line(alloc: Global, fault: CifFault) -> Result<Text, AllocError>
    ensures { IfOk result (λ line. line ≡ cif_line fault) }
{
    let mut out = Vec::from_slice(alloc, b"sticks: byte ")?;
    push_decimal(&mut out, u64::from(fault.offset))?;
    out.extend_from_slice(b": ")?;
    out.extend_from_slice(cif_word(fault.kind))?;
    out.push(b'\n')?;
    Text::new(alloc, &out)
}

/// The line that says which line of a script is none.
pub fn script_line(alloc: Global, number: u32) -> Result<Text, AllocError>
    ensures { IfOk result (λ line. line ≡ script_line number) }
{
    let mut out = Vec::from_slice(alloc, b"sticks: script line ")?;
    push_decimal(&mut out, u64::from(number))?;
    out.push(b'\n')?;
    Text::new(alloc, &out)
}

/// The line that names two boxes that do not cross properly.
pub fn improper_line(alloc: Global, a: u32, b: u32) -> Result<Text, AllocError>
    ensures { IfOk result (λ line. line ≡ improper_line a b) }
{
    let mut out = Vec::from_slice(alloc, b"sticks: not proper: boxes ")?;
    push_decimal(&mut out, u64::from(a))?;
    out.push(b' ')?;
    push_decimal(&mut out, u64::from(b))?;
    out.push(b'\n')?;
    Text::new(alloc, &out)
}

/// The line that names a rule by its number, and the boxes at which it is broken.
pub fn broken_line(alloc: Global, rule: u32, a: u32, b: u32) -> Result<Text, AllocError>
    ensures { IfOk result (λ line. line ≡ broken_line rule a b) }
{
    let mut out = Vec::from_slice(alloc, b"sticks: rule ")?;
    push_decimal(&mut out, u64::from(rule))?;
    out.extend_from_slice(b": boxes ")?;
    push_decimal(&mut out, u64::from(a))?;
    out.push(b' ')?;
    push_decimal(&mut out, u64::from(b))?;
    out.push(b'\n')?;
    Text::new(alloc, &out)
}
