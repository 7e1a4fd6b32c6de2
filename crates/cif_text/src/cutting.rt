//! Texts cut into chunks of whole lines.
ghost use Rattle.std.specs.Prelude.{◌≡◌, ◌+◌, ◌-◌, ◌<◌, ◌≤◌, ◌++◌, List, ℕ, map, drop, length, slice_index, OnOk};
ghost use Rattle.cif_text.specs.Cutting.{most_bytes, first_line, IsOfLines, IsCut};

use std::alloc::{AllocError, Global};

/// The most bytes of a chunk.
const MAX_CHUNK: usize = 65_536;

// Where the chunk that begins at `start` ends: after as many lines as fit.
fn end_of_chunk(text: &[u8], start: usize) -> usize
    requires start { start < length text.now }
    requires lines { IsOfLines text.now }
    ensures after { start < result }
    ensures within { result ≤ length text.now }
    ensures short { result ≤ start + most_bytes }
    ensures line { slice_index text.now (result - 1) ≡ 10 }
    ensures full { result < length text.now
        → most_bytes < (result - start) + length (first_line (drop result text.now)) }
{
    if text.len() - start <= MAX_CHUNK {
        return text.len();
    }
    let mut end = start + MAX_CHUNK;
    while text[end - 1] != b'\n' {
        end -= 1;
    }
    end
}

/// Adds the chunks of a text.
pub fn push_cut(chunks: &mut Vec<Vec<u8>>, alloc: Global, text: &[u8]) -> Result<(), AllocError>
    requires { IsOfLines text.now }
    ensures { OnOk result
        ((cut : List (List ℕ))
        × (map (λ chunk. chunk.items) chunks.new.items ≡ map (λ chunk. chunk.items) chunks.old.items ++ cut)
        × IsCut text.now cut) }
{
    let mut start = 0;
    while start < text.len() {
        let end = end_of_chunk(text, start);
        chunks.push(Vec::from_slice(alloc, &text[start..end])?)?;
        start = end;
    }
    Ok(())
}
