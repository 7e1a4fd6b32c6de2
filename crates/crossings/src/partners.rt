//! What a box of poly or diffusion overlaps on the other's layer.
ghost use Rattle.std.specs.Prelude.{◌≡◌, ◌≢◌, ℕ, ◌<◌, MatchOption, length};
ghost use Rattle.crossing_model.specs.Boxes.{AreSearchable};
ghost use Rattle.crossings.specs.{Pairs.{DoOverlap, HowMany}, Entries.{AreEntriesFacing, AreTreesOf}};

use crate::entries::{Trees, facing_tree};
use box_tree::{BoxTree, Query, Question};
use lam_geom::MaskBox;

/// How many boxes have something in common with a box, and which one where it is the only one.
#[derive(Clone, Copy)]
pub enum Partners {
    Nothing,
    One(u32),
    Several,
}

/// Which boxes of poly a box of diffusion overlaps, or the other way round; nothing for a box of another layer.
pub fn partners_of(boxes: &[MaskBox], trees: &Trees, number: u32) -> Partners
    requires searchable { AreSearchable boxes.now }
    requires trees { AreTreesOf boxes.now trees.now }
    requires among { number < length boxes.now }
    ensures { HowMany (DoOverlap boxes.now number) result }
{
    match trees.partners[number as usize] {
        Some(partners) => partners,
        None => search_partners(boxes, trees, number),
    }
}

// The same by the trees, where nothing is known of the box.
fn search_partners(boxes: &[MaskBox], trees: &Trees, number: u32) -> Partners
    requires searchable { AreSearchable boxes.now }
    requires trees { AreTreesOf boxes.now trees.now }
    requires among { number < length boxes.now }
    ensures { HowMany (DoOverlap boxes.now number) result }
{
    let Some(tree) = facing_tree(boxes, trees, number) else {
        return Partners::Nothing;
    };
    let Some(first) = overlapped(boxes, tree, number, number) else {
        return Partners::Nothing;
    };
    match overlapped(boxes, tree, number, first) {
        Some(_) => Partners::Several,
        None => Partners::One(first),
    }
}

// The number of some box that a box overlaps, out of those of a tree of the other's layer, and that is not `known`.
fn overlapped(boxes: &[MaskBox], tree: &BoxTree, number: u32, known: u32) -> Option<u32>
    requires searchable { AreSearchable boxes.now }
    requires tree { AreEntriesFacing boxes.now number tree.now }
    ensures { MatchOption result
        ((k : ℕ) → DoOverlap boxes.now number k → k ≡ known)
        (λ k. DoOverlap boxes.now number k × (k ≢ known)) }
{
    let query = Query {
        area: boxes[number as usize].area,
        question: Question::NearOfOther {
            reach: -1,
            owner: known,
        },
    };
    match tree.find(&query) {
        Some(place) => Some(tree.entries()[place as usize].owner),
        None => None,
    }
}
