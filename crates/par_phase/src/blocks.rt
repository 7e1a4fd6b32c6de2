//! How a list is divided into blocks.

ghost use Rattle.std.specs.Prelude.{◌≡◌, ◌+◌, ◌<◌, ◌≤◌, length};
ghost use Rattle.par_phase.specs.Blocks.{block_start, block_of};

/// Where block `k` begins, of this many blocks of a list of this length. The product takes more than 64 bits where
/// the list is very long.
pub fn block_start(len: usize, blocks: u32, k: u32) -> usize
    requires some { 1 ≤ blocks }
    requires among { k ≤ blocks }
    ensures start { result ≡ block_start len blocks k }
    ensures within { result ≤ len }
{
    (u128::from(k) * len as u128 / u128::from(blocks)) as usize
}

/// The elements of block `k`, of this many blocks of a list.
pub fn block_of<T>(items: &[T], blocks: u32, k: u32) -> &[T]
    requires { k < blocks }
    ensures { result.now ≡ block_of items.now blocks k }
{
    let start = block_start(items.len(), blocks, k);
    let end = block_start(items.len(), blocks, k + 1);
    &items[start..end]
}
