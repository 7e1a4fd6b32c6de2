//! Commands that are read ahead of those that are carried out, in portions that are made beside each other.
ghost use Rattle.std.specs.Prelude.{◌≡◌, ◌+◌, ◌^◌, ◌≤◌, All, IfOk, length};
ghost use Rattle.cif_read.specs.Ahead.{IsPortion, fitting_end};

use cif_lex::{Command, Next, next};
use lam_io::OpenGate;
use par_phase::map_split;
use std::alloc::{AllocError, Global};
use std::thread::Threads;

/// How many bytes the portions of a round take, all together.
pub const ROUND: usize = 1_048_576;

// The most commands of the portions of a round, all together, so that tiny ones take little memory.
const MOST_COMMANDS: usize = 262_144;

/// A command, where it begins, and the place after its semicolon.
#[derive(Clone, Copy)]
pub struct Ready {
    pub begin: usize,
    pub command: Command,
    pub after: usize,
}

/// Commands one after another, from a place of a text up to another.
#[derive(Drop)]
pub struct Portion {
    pub from: usize,
    pub commands: Vec<Ready>,
    pub to: usize,
}

// Where a portion begins, where the next one does, as far as can be told before commands are read, and how many
// commands it has at most.
#[derive(Clone, Copy)]
struct Stretch {
    from: usize,
    to: usize,
    most: usize,
}

/// Portions of the round that begins at a place of a text, made in so many shares. The first begins there, and others
/// behind a semicolon, which may be one in a comment: then the portion does not begin where the one before it ends. The
/// only refusal is want of memory.
pub fn portions_from<H: Threads + Sync>(
    rt: &H,
    alloc: Global,
    bytes: &[u8],
    from: usize,
    shares: u32,
) -> Result<Vec<Portion>, AllocError>
    requires few { length bytes.now ≤ 2 ^ 26 }
    requires within { from + ROUND ≤ length bytes.now }
    requires shares { (1 ≤ shares) × (shares ≤ 64) }
    ensures { IfOk result (λ portions. All (IsPortion bytes.now) portions.items) }
{
    let stretches = stretches_from(alloc, bytes, from, shares)?;
    let look = |stretch: &Stretch| -> Result<Portion, AllocError>
        requires { (length bytes.now ≤ 2 ^ 26) × (stretch.now.from ≤ length bytes.now) }
        ensures { IfOk result (IsPortion bytes.entry.now) }
    { portion_of(alloc, bytes, stretch) };
    map_split(rt, alloc, &OpenGate, &stretches, shares, &look)
}

// The stretches of a round, one for each share.
fn stretches_from(
    alloc: Global,
    bytes: &[u8],
    from: usize,
    shares: u32,
) -> Result<Vec<Stretch>, AllocError>
    requires few { length bytes.now ≤ 2 ^ 26 }
    requires within { from + ROUND ≤ length bytes.now }
    requires shares { (1 ≤ shares) × (shares ≤ 64) }
    ensures { IfOk result (λ stretches. All (λ stretch. stretch.from ≤ length bytes.now) stretches.items) }
{
    let shares = shares as usize;
    let mut stretches = Vec::with_capacity(alloc, shares)?;
    let mut begin = from;
    for share in 0..shares {
        let even = from + ROUND * (share + 1) / shares;
        let end = behind_semicolon(bytes, even, ROUND / shares);
        stretches.push(Stretch {
            from: begin,
            to: end,
            most: MOST_COMMANDS / shares,
        })?;
        begin = end;
    }
    Ok(stretches)
}

// Behind the first semicolon of so many bytes from a place on, or that place where there is none.
fn behind_semicolon(bytes: &[u8], at: usize, most: usize) -> usize
    requires few { length bytes.now ≤ 2 ^ 26 }
    requires within { at ≤ length bytes.now }
    requires some { most ≤ 2 ^ 26 }
    ensures { result ≤ length bytes.now }
{
    let end = (at + most).min(bytes.len());
    match bytes[at..end].iter().position(|byte| *byte == b';') {
        Some(place) => at + place + 1,
        None => at,
    }
}

// The commands one after another from where a stretch begins, up to the first that ends at its end or behind it. It
// ends earlier where what comes next is no whole command, or where it has as many as it may.
fn portion_of(alloc: Global, bytes: &[u8], stretch: &Stretch) -> Result<Portion, AllocError>
    requires few { length bytes.now ≤ 2 ^ 26 }
    requires within { stretch.now.from ≤ length bytes.now }
    ensures { IfOk result (IsPortion bytes.now) }
{
    let mut commands = Vec::new(alloc);
    let mut to = stretch.from;
    while to < stretch.to && commands.len() < stretch.most {
        let Next::Whole {
            begin,
            command,
            after,
        } = next(bytes, to)
        else {
            break;
        };
        commands.push(Ready {
            begin,
            command,
            after,
        })?;
        to = after;
    }
    Ok(Portion {
        from: stretch.from,
        commands,
        to,
    })
}

/// Where the portions end of which each begins where the one before it ends, the first at this place.
pub fn fitting_end(portions: &[Portion], from: usize) -> usize
    ensures { result ≡ fitting_end from portions.now }
{
    let mut end = from;
    for portion in portions {
        if portion.from != end {
            return end;
        }
        end = portion.to;
    }
    end
}
