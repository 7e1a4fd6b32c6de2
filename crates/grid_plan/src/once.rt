//! Each pair of a list once: at its first place.

ghost use Rattle.std.specs.Prelude.{◌≡◌, ℕ, ◌+◌, ◌*◌, ◌<◌, ◌++◌, ◌&&◌, not, ◌∷◌, [], All, map, filter, vec_len, false};
ghost use Rattle.std.{specs.{Prelude.{slice_index_or, OnOk, IfOk}, List.list_any}, proofs.Props.props};
ghost use Rattle.plan_model.specs.{Plan.{is_of_two, same_of}, Rows.{firsts, is_pair, is_pair_either_way}};
ghost use Rattle.grid_plan.specs.Small.{IsSmall};

use plan_model::Same;
use std::alloc::{AllocError, Global};

/// Pairs of numbers below 256, with a table of which of them are there.
#[derive(Drop)]
struct PairSet {
    pairs: Vec<(u32, u32)>,
    there: Vec<bool>,
    ghost room: { vec_len there ≡ 65536 },
    ghost told: { (a b : ℕ) → a < 256 → b < 256
        → slice_index_or there.items (a * 256 + b) false ≡ list_any (is_pair (a, b)) pairs.items } by { Prim.hlevel
            props },
}

impl PairSet {
    fn new(alloc: Global) -> Result<PairSet, AllocError>
        ensures { IfOk result (λ set. set.pairs.items ≡ []) }
    {
        Ok(PairSet {
            pairs: Vec::new(alloc),
            there: vec![in alloc; false; 65536]?,
        })
    }

    fn has(&self, a: u32, b: u32) -> bool
        requires small { IsSmall (a, b) }
        ensures { result ≡ list_any (is_pair (a, b)) self.now.pairs.items }
    {
        self.there[a as usize * 256 + b as usize]
    }

    #[tactic(auto, using(crate::proofs::FirstPlaces::either_way))]
    /// Whether the two numbers are different ones that no pair here is of, whichever it names first.
    fn is_new(&self, a: u32, b: u32) -> bool
        requires small { IsSmall (a, b) }
        ensures { result ≡ (is_of_two (a, b) && not (list_any (is_pair_either_way (a, b)) self.now.pairs.items)) }
    {
        a != b && !self.has(a, b) && !self.has(b, a)
    }

    fn add(&mut self, a: u32, b: u32) -> Result<(), AllocError>
        requires small { IsSmall (a, b) }
        ensures { OnOk result (self.new.pairs.items ≡ self.old.pairs.items ++ (a, b) ∷ []) }
    {
        self.pairs.push((a, b))?;
        self.there[a as usize * 256 + b as usize] = true;
        Ok(())
    }
}

/// The pairs, each at its first place alone.
pub fn each_pair(alloc: Global, pairs: &[(u32, u32)]) -> Result<Vec<(u32, u32)>, AllocError>
    requires { All IsSmall pairs.now }
    ensures { IfOk result (λ found. found.items ≡ firsts is_pair pairs.now) }
{
    let mut set = PairSet::new(alloc)?;
    for pair in pairs {
        if !set.has(pair.0, pair.1) {
            set.add(pair.0, pair.1)?;
        }
    }
    Ok(set.pairs)
}

/// The pairs of two different numbers, of each two the first, whichever of them it names first.
fn each_two(alloc: Global, pairs: &[(u32, u32)]) -> Result<Vec<(u32, u32)>, AllocError>
    requires { All IsSmall pairs.now }
    ensures { IfOk result (λ found. found.items ≡ firsts is_pair_either_way (filter is_of_two pairs.now)) }
{
    let mut set = PairSet::new(alloc)?;
    for pair in pairs {
        if set.is_new(pair.0, pair.1) {
            set.add(pair.0, pair.1)?;
        }
    }
    Ok(set.pairs)
}

fn same_of(alloc: Global, pairs: &[(u32, u32)]) -> Result<Vec<Same>, AllocError>
    ensures { IfOk result (λ same. same.items ≡ map same_of pairs.now) }
{
    let mut same = Vec::new(alloc);
    for pair in pairs {
        same.push(Same {
            a: pair.0,
            b: pair.1,
        })?;
    }
    Ok(same)
}

/// Each two masters once that stand beside one another in a pair.
pub fn each_same(alloc: Global, pairs: &[(u32, u32)]) -> Result<Vec<Same>, AllocError>
    requires { All IsSmall pairs.now }
    ensures { IfOk result
        (λ found. found.items ≡ map same_of (firsts is_pair_either_way (filter is_of_two pairs.now))) }
{
    let found = each_two(alloc, pairs)?;
    same_of(alloc, found.as_slice())
}
