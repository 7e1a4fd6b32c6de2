//! How many chunks a text has.
ghost use Rattle.std.specs.Prelude.{◌≡◌, ◌+◌, ◌<◌, ◌≤◌, length, map};
ghost use Rattle.cif_text.specs.Cutting.{most_bytes, IsCut};

/// A law, with nothing to run: a text of at most 65,536 bytes is one chunk, and one of 65,537 is two.
pub fn chunks_are_counted(text: &[u8], chunks: &[Vec<u8>])
    requires cut { IsCut text.now (map (λ chunk. chunk.items) chunks.now) }
    requires some { 0 < length text.now }
    ensures one { length text.now ≤ most_bytes → length chunks.now ≡ 1 }
    ensures two { length text.now ≡ most_bytes + 1 → length chunks.now ≡ 2 }
{}
