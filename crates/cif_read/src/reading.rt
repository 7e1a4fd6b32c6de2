//! From a text to what it draws.
ghost use Rattle.std.specs.Prelude.{◌≡◌, ◌+◌, ◌^◌, ◌<◌, ◌≤◌, All, None, IfOk, IfErr, OnOk, MatchOption, length};
ghost use Rattle.cif_lex.specs.declared.command.Next.TheVariants as nexts;
ghost use Rattle.cif_lex.specs.Commands.{IsNext};
ghost use Rattle.cif_read.specs.{Readers.{MeansBy, IsCauseBy}, Meaning.{reader_of, hierarchy_drawn}};
ghost use Rattle.cif_read.specs.{Foreign.{foreign_hierarchy, IsForeignFile}, Readings.{state_of, IsSound, HasRead}};
ghost use Rattle.cif_read.specs.{Readings.HasReadAll, Ahead.{ComesNext, IsPortion, fitting_end}};

use crate::ahead::{Portion, ROUND, Ready, fitting_end, portions_from};
use crate::dialect::Dialect;
use crate::fault::{CifKind, CifReadFault, cause_at, fault_at};
use crate::file::ForeignFile;
use crate::state::Reading;
use cif_lex::{Next, Tail, next, tail};
use lam_list::Seq;
use std::alloc::{AllocError, Global};
use std::thread::{Threads, join};

// Carries out the command that comes next, and goes on behind it.
fn go_on(
    alloc: Global,
    dialect: Dialect,
    bytes: &[u8],
    ready: Ready,
    read: &mut usize,
    reading: &mut Reading,
) -> Result<(), CifReadFault>
    requires few { length bytes.now ≤ 2 ^ 26 }
    requires so_far { HasRead dialect bytes.now read.old reading.old }
    requires next { ComesNext bytes.now read.old ready }
    ensures reading { OnOk result (HasRead dialect bytes.now read.new reading.new) }
    ensures read { OnOk result (read.new ≡ ready.after) }
    ensures fault { IfErr result (IsCauseBy (reader_of dialect) bytes.now) }
{
    if let Err(stop) = reading.act(alloc, dialect, ready.command) {
        return Err(cause_at(ready.begin, stop));
    }
    *read = ready.after;
    Ok(())
}

// Reads the next command, and goes on behind it. Where the letter E stands there, it answers its place.
fn read_next(
    alloc: Global,
    dialect: Dialect,
    bytes: &[u8],
    read: &mut usize,
    reading: &mut Reading,
) -> Result<Option<usize>, CifReadFault>
    requires few { length bytes.now ≤ 2 ^ 26 }
    requires so_far { HasRead dialect bytes.now read.old reading.old }
    ensures reading { OnOk result (HasRead dialect bytes.now read.new reading.new) }
    ensures next { IfOk result
        (λ end. MatchOption end (read.old < read.new) (λ begin. IsNext bytes.now read.new (nexts.End begin))) }
    ensures fault { IfErr result (IsCauseBy (reader_of dialect) bytes.now) }
{
    match next(bytes, *read) {
        Next::Whole {
            begin,
            command,
            after,
        } => {
            let ready = Ready {
                begin,
                command,
                after,
            };
            go_on(alloc, dialect, bytes, ready, read, reading)?;
            Ok(None)
        }
        Next::Cut { begin, command } => Err(match reading.act(alloc, dialect, command) {
            Ok(()) => fault_at(bytes.len(), CifKind::NoEnd),
            Err(stop) => cause_at(begin, stop),
        }),
        Next::Bad { begin } => Err(fault_at(begin, CifKind::BadCommand)),
        Next::End { begin } => Ok(Some(begin)),
        Next::Missing => Err(fault_at(bytes.len(), CifKind::NoEnd)),
    }
}

// Reads all commands from a place on, up to the letter E, of which it answers the place.
fn read_commands(
    alloc: Global,
    dialect: Dialect,
    bytes: &[u8],
    from: usize,
    reading: &mut Reading,
) -> Result<usize, CifReadFault>
    requires few { length bytes.now ≤ 2 ^ 26 }
    requires so_far { HasRead dialect bytes.now from reading.old }
    ensures end { IfOk result (λ begin. HasReadAll dialect bytes.now begin reading.new) }
    ensures fault { IfErr result (IsCauseBy (reader_of dialect) bytes.now) }
{
    let mut read = from;
    loop {
        if let Some(begin) = read_next(alloc, dialect, bytes, &mut read, reading)? {
            return Ok(begin);
        }
    }
}

// Reads the letter E, and what stands after it.
fn read_end(
    dialect: Dialect,
    bytes: &[u8],
    begin: usize,
    reading: &Reading,
) -> Result<(), CifReadFault>
    requires few { length bytes.now ≤ 2 ^ 26 }
    requires so_far { HasReadAll dialect bytes.now begin reading.now }
    ensures means { OnOk result (MeansBy (reader_of dialect) bytes.now (hierarchy_drawn (state_of reading.now))) }
    ensures fault { IfErr result (IsCauseBy (reader_of dialect) bytes.now) }
{
    if reading.begun.is_some() {
        return Err(fault_at(begin, CifKind::NestedDefinition));
    }
    match tail(bytes, begin + 1) {
        Tail::Clean => Ok(()),
        Tail::Filled { begin } => Err(fault_at(begin, CifKind::AfterEnd)),
        Tail::Unclosed => Err(fault_at(bytes.len(), CifKind::NoEnd)),
    }
}

fn file_of(reading: Reading) -> ForeignFile
    requires { IsSound (2 ^ 26) reading }
    ensures hierarchy { foreign_hierarchy result ≡ hierarchy_drawn (state_of reading) }
    ensures flat { IsForeignFile result }
{
    ForeignFile {
        symbols: Seq::from_vec(reading.symbols),
        top: reading.drawing.steps,
    }
}

// What a text draws of which this has been read.
fn read_rest(
    alloc: Global,
    dialect: Dialect,
    bytes: &[u8],
    from: usize,
    mut reading: Reading,
) -> Result<ForeignFile, CifReadFault>
    requires few { length bytes.now ≤ 2 ^ 26 }
    requires so_far { HasRead dialect bytes.now from reading }
    ensures means { IfOk result (λ file. MeansBy (reader_of dialect) bytes.now (foreign_hierarchy file)) }
    ensures flat { IfOk result IsForeignFile }
    ensures fault { IfErr result (IsCauseBy (reader_of dialect) bytes.now) }
{
    let begin = read_commands(alloc, dialect, bytes, from, &mut reading)?;
    read_end(dialect, bytes, begin, &reading)?;
    Ok(file_of(reading))
}

/// What a text draws in a dialect, or its first fault. Linear in the text and in the calls times the logarithm of the
/// symbols.
pub fn read(alloc: Global, dialect: Dialect, bytes: &[u8]) -> Result<ForeignFile, CifReadFault>
    requires few { length bytes.now ≤ 2 ^ 26 }
    ensures means { IfOk result (λ file. MeansBy (reader_of dialect) bytes.now (foreign_hierarchy file)) }
    ensures flat { IfOk result IsForeignFile }
    ensures fault { IfErr result (IsCauseBy (reader_of dialect) bytes.now) }
{
    read_rest(alloc, dialect, bytes, 0, Reading::new(alloc))
}

// Carries out the commands of a portion that begins where the reader is.
fn carry_out(
    alloc: Global,
    dialect: Dialect,
    bytes: &[u8],
    portion: &Portion,
    reading: &mut Reading,
) -> Result<(), CifReadFault>
    requires few { length bytes.now ≤ 2 ^ 26 }
    requires so_far { HasRead dialect bytes.now portion.now.from reading.old }
    requires portion { IsPortion bytes.now portion.now }
    ensures reading { OnOk result (HasRead dialect bytes.now portion.now.to reading.new) }
    ensures fault { IfErr result (IsCauseBy (reader_of dialect) bytes.now) }
{
    let mut read = portion.from;
    for ready in &portion.commands {
        go_on(alloc, dialect, bytes, *ready, &mut read, reading)?;
    }
    Ok(())
}

// Carries out the commands of portions of which each begins where the one before it ends, the first at this place.
fn carry_out_all(
    alloc: Global,
    dialect: Dialect,
    bytes: &[u8],
    portions: &[Portion],
    from: usize,
    mut reading: Reading,
) -> Result<Reading, CifReadFault>
    requires few { length bytes.now ≤ 2 ^ 26 }
    requires so_far { HasRead dialect bytes.now from reading }
    requires portions { All (IsPortion bytes.now) portions.now }
    ensures reading { IfOk result (HasRead dialect bytes.now (fitting_end from portions.now)) }
    ensures fault { IfErr result (IsCauseBy (reader_of dialect) bytes.now) }
{
    let mut read = from;
    for portion in portions {
        if portion.from != read {
            return Ok(reading);
        }
        carry_out(alloc, dialect, bytes, portion, &mut reading)?;
        read = portion.to;
    }
    Ok(reading)
}

// Carries out the commands of the portions of a round, and makes those of the next one beside it, which begins where
// they end.
fn carry_out_beside<H: Threads + Sync>(
    rt: &H,
    alloc: Global,
    dialect: Dialect,
    bytes: &[u8],
    portions: Vec<Portion>,
    from: usize,
    to: usize,
    reading: Reading,
    shares: u32,
) -> (
    Result<Reading, CifReadFault>,
    Result<Vec<Portion>, AllocError>,
)
    requires few { length bytes.now ≤ 2 ^ 26 }
    requires so_far { HasRead dialect bytes.now from reading }
    requires portions { All (IsPortion bytes.now) portions.items }
    requires within { to + ROUND ≤ length bytes.now }
    requires shares { (1 ≤ shares) × (shares ≤ 64) }
    ensures reading { IfOk result.0 (HasRead dialect bytes.now (fitting_end from portions.items)) }
    ensures fault { IfErr result.0 (IsCauseBy (reader_of dialect) bytes.now) }
    ensures portions { IfOk result.1 (λ next. All (IsPortion bytes.now) next.items) }
{
    let carry = move || -> Result<Reading, CifReadFault>
        requires { (length bytes.now ≤ 2 ^ 26) × HasRead dialect bytes.now from reading
            × All (IsPortion bytes.now) portions.items }
        ensures { IfOk result (HasRead dialect bytes.entry.now (fitting_end from portions.items))
            × IfErr result (IsCauseBy (reader_of dialect) bytes.entry.now) }
    { carry_out_all(alloc, dialect, bytes, &portions, from, reading) };
    let look = || -> Result<Vec<Portion>, AllocError>
        requires { (length bytes.now ≤ 2 ^ 26) × (to + ROUND ≤ length bytes.now) × (1 ≤ shares) × (shares ≤ 64) }
        ensures { IfOk result (λ next. All (IsPortion bytes.entry.now) next.items) }
    { portions_from(rt, alloc, bytes, to, shares) };
    join(rt, carry, look)
}

// Reads a text of a round or more in rounds, as long as the portions of each one fit and another round is left, and
// gives how far that is.
fn read_rounds<H: Threads + Sync>(
    rt: &H,
    alloc: Global,
    dialect: Dialect,
    bytes: &[u8],
    shares: u32,
) -> Result<(usize, Reading), CifReadFault>
    requires few { length bytes.now ≤ 2 ^ 26 }
    requires long { ROUND ≤ length bytes.now }
    requires shares { (1 ≤ shares) × (shares ≤ 64) }
    ensures reading { IfOk result (λ answer. HasRead dialect bytes.now answer.0 answer.1) }
    ensures fault { IfErr result (IsCauseBy (reader_of dialect) bytes.now) }
{
    let mut from = 0;
    let mut reading = Reading::new(alloc);
    let mut portions = portions_from(rt, alloc, bytes, 0, shares)?;
    loop {
        let to = fitting_end(&portions, from);
        if to < from + ROUND || to + ROUND > bytes.len() {
            let reading = carry_out_all(alloc, dialect, bytes, &portions, from, reading)?;
            return Ok((to, reading));
        }
        let (carried, next) = carry_out_beside(
            rt, alloc, dialect, bytes, portions, from, to, reading, shares,
        );
        reading = carried?;
        portions = next?;
        from = to;
    }
}

/// The same, where the commands of a text of more than a megabyte are read in so many shares. They are carried out by
/// one thread, while those behind them are read.
pub fn read_in_shares<H: Threads + Sync>(
    rt: &H,
    alloc: Global,
    dialect: Dialect,
    bytes: &[u8],
    shares: u32,
) -> Result<ForeignFile, CifReadFault>
    requires few { length bytes.now ≤ 2 ^ 26 }
    requires shares { (1 ≤ shares) × (shares ≤ 64) }
    ensures means { IfOk result (λ file. MeansBy (reader_of dialect) bytes.now (foreign_hierarchy file)) }
    ensures flat { IfOk result IsForeignFile }
    ensures fault { IfErr result (IsCauseBy (reader_of dialect) bytes.now) }
{
    if shares == 1 || bytes.len() < ROUND {
        return read(alloc, dialect, bytes);
    }
    let (from, reading) = read_rounds(rt, alloc, dialect, bytes, shares)?;
    read_rest(alloc, dialect, bytes, from, reading)
}
