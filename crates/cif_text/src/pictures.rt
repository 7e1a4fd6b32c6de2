//! The text of a picture, in chunks.
ghost use Rattle.std.specs.Prelude.{◌≡◌, ◌^◌, ◌<◌, ◌≤◌, All, length, map, flat_map, IfOk};
ghost use Rattle.rule_table.specs.Technology.{numbers_of};
ghost use Rattle.mask_out.specs.Pictures.{drawing_of};
ghost use Rattle.cif_text.specs.{Calls.{text_at, texts_of, parts_of, cif_of, CanBeWritten, IsWritable}};
ghost use Rattle.cif_text.specs.Cutting.{AreCut, IsOfLines};

use crate::calls::text_of_calls;
use crate::cutting::push_cut;
use crate::symbols::symbol_text;
use lam_io::Gate;
use mask_out::{Picture, Symbol};
use par_phase::map_numbers;
use rule_table::Tech;
use std::alloc::{AllocError, Global};
use std::thread::Threads;

// The text of the symbol in position k. Symbols are numbered from 1.
fn text_at(alloc: Global, tech: &Tech, symbols: &[Symbol], k: u32) -> Result<Vec<u8>, AllocError>
    requires among { k < length symbols.now }
    requires few { length symbols.now < 2 ^ 32 }
    requires drawn { All CanBeWritten symbols.now }
    ensures text { IfOk result
        (λ text. text.items ≡ text_at (numbers_of tech.now).unit (map drawing_of symbols.now) k) }
    ensures lines { IfOk result (λ text. IsOfLines text.items) }
{
    symbol_text(alloc, tech, k + 1, &symbols[k as usize])
}

// The texts of the symbols, written in so many shares.
fn symbol_texts<H: Threads + Sync, G: Gate>(
    rt: &H,
    alloc: Global,
    gate: &G,
    tech: &Tech,
    symbols: &[Symbol],
    shares: u32,
) -> Result<Vec<Vec<u8>>, AllocError>
    requires few { length symbols.now < 2 ^ 32 }
    requires drawn { All CanBeWritten symbols.now }
    requires shares { (1 ≤ shares) × (shares ≤ 64) }
    ensures texts { IfOk result
        (λ texts. map (λ text. text.items) texts.items
        ≡ texts_of (numbers_of tech.now).unit (map drawing_of symbols.now)) }
    ensures lines { IfOk result (λ texts. All (λ text. IsOfLines text.items) texts.items) }
{
    let write = |k: &u32| -> Result<Vec<u8>, AllocError>
        requires { (k.now < length symbols.now) × (length symbols.now < 2 ^ 32) × All CanBeWritten symbols.now }
        ensures { IfOk result (λ text.
            (text.items ≡ text_at (numbers_of tech.entry.now).unit (map drawing_of symbols.entry.now) k.entry.now)
            × IsOfLines text.items) }
    { text_at(alloc, tech, symbols, *k) };
    map_numbers(rt, alloc, gate, symbols.len() as u32, shares, &write)
}

// The chunks of some texts.
fn chunks_of(alloc: Global, texts: &[Vec<u8>]) -> Result<Vec<Vec<u8>>, AllocError>
    requires { All (λ text. IsOfLines text.items) texts.now }
    ensures { IfOk result
        (λ chunks. AreCut (map (λ text. text.items) texts.now) (map (λ chunk. chunk.items) chunks.items)) }
{
    let mut chunks = Vec::new(alloc);
    for k in 0..texts.len() {
        push_cut(&mut chunks, alloc, &texts[k])?;
    }
    Ok(chunks)
}

// The chunks of the symbols' texts, which are written in so many shares.
fn symbol_chunks<H: Threads + Sync, G: Gate>(
    rt: &H,
    alloc: Global,
    gate: &G,
    tech: &Tech,
    symbols: &[Symbol],
    shares: u32,
) -> Result<Vec<Vec<u8>>, AllocError>
    requires few { length symbols.now < 2 ^ 32 }
    requires drawn { All CanBeWritten symbols.now }
    requires shares { (1 ≤ shares) × (shares ≤ 64) }
    ensures { IfOk result
        (λ chunks. AreCut (texts_of (numbers_of tech.now).unit (map drawing_of symbols.now))
        (map (λ chunk. chunk.items) chunks.items)) }
{
    let texts = symbol_texts(rt, alloc, gate, tech, symbols, shares)?;
    chunks_of(alloc, &texts)
}

/// The CIF text of a picture, in chunks: the text of each symbol is one, and the calls with the end are one, and what
/// has more than 65,536 bytes is cut into chunks of as many whole lines as fit. The symbols are written in so many
/// shares. The only refusal is want of memory.
pub fn cif_chunks<H: Threads + Sync, G: Gate>(
    rt: &H,
    alloc: Global,
    gate: &G,
    tech: &Tech,
    picture: &Picture,
    shares: u32,
) -> Result<Vec<Vec<u8>>, AllocError>
    requires writable { IsWritable picture.now }
    requires shares { (1 ≤ shares) × (shares ≤ 64) }
    ensures text { IfOk result
        (λ chunks. flat_map (λ chunk. chunk.items) chunks.items
        ≡ cif_of (numbers_of tech.now).unit (map drawing_of picture.now.symbols) picture.now.calls) }
    ensures chunks { IfOk result
        (λ chunks. AreCut (parts_of (numbers_of tech.now).unit (map drawing_of picture.now.symbols) picture.now.calls)
        (map (λ chunk. chunk.items) chunks.items)) }
{
    let symbols = picture.symbols.as_slice();
    let mut chunks = symbol_chunks(rt, alloc, gate, tech, symbols, shares)?;
    let calls = text_of_calls(alloc, tech, picture.calls.as_slice())?;
    push_cut(&mut chunks, alloc, &calls)?;
    Ok(chunks)
}
