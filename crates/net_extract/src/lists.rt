//! Lists of nodes, one for each of some numbers, and how they are put together out of portions.
ghost use Rattle.std.specs.Prelude.{◌≡◌, ℕ, ◌++◌, ◌<◌, ◌≤◌, [], All, IfOk, List, MatchOption, OnOk, length};
ghost use Rattle.lam_geom.specs.declared.boxes.MaskBox.{MaskBox};
ghost use Rattle.box_tree.specs.Found.{AreGathered};
ghost use Rattle.box_pieces.specs.declared.placing.Placed.{Placed};
ghost use Rattle.net_extract.specs.{declared.lists.Kind.Kind, Lists.{AreLists, AreWithin, HasList, IsIn, IsListed}};
ghost use Rattle.net_extract.specs.Lists.{IsNoted, IsPortion, most_listed, tags_of};

use box_tree::Entry;
use std::alloc::{AllocError, Global};

/// What is listed: of a piece those that touch it on its layer, or of a cut that joins the pieces over it.
#[derive(Clone, Copy, PartialEq, Eq)]
pub enum Kind {
    Touching,
    Over,
}

/// Where a list stands among nodes: from one place up to another. Where its start lies past its end, there is none.
#[derive(Clone, Copy)]
pub struct Run {
    pub start: u32,
    pub end: u32,
}

/// The list of number a is `nodes[runs[a].start..runs[a].end]`.
#[derive(Drop)]
pub struct Lists {
    pub runs: Vec<Run>,
    pub nodes: Vec<u32>,
}

/// A list, and the number whose list it is.
#[derive(Clone, Copy)]
pub struct Owned {
    pub owner: u32,
    pub run: Run,
}

/// Lists as one share makes them.
#[derive(Drop)]
pub struct Portion {
    pub lists: Vec<Owned>,
    pub nodes: Vec<u32>,
}

/// So many numbers, none of which has a list. The only refusal is want of memory.
pub fn no_lists(alloc: Global, count: usize) -> Result<Lists, AllocError>
    ensures { (kind : Kind) (boxes : List MaskBox) (pieces : List Placed)
        → IfOk result (AreLists (IsIn kind boxes pieces) count) }
{
    let none = Run { start: 1, end: 0 };
    Ok(Lists {
        runs: vec![in alloc; none; count]?,
        nodes: Vec::new(alloc),
    })
}

/// The list of a number, if it has one.
pub fn list_of(lists: &Lists, a: u32) -> Option<&[u32]>
    requires in_range { a < length lists.now.runs.items }
    requires within { AreWithin lists.now }
    ensures { MatchOption result (¬ HasList lists.now a)
        (λ nodes. HasList lists.now a × AreGathered (IsListed lists.now a) [] nodes.now
        × (length nodes.now ≤ most_listed)) }
{
    let run = lists.runs[a as usize];
    if run.start <= run.end {
        Some(&lists.nodes[run.start as usize..run.end as usize])
    } else {
        None
    }
}

/// Adds the list of a number, of the tags of some entries. Where the nodes are too many to be numbered, nothing is
/// noted. The only refusal is want of memory.
pub fn add_list(portion: &mut Portion, owner: u32, found: &[Entry]) -> Result<(), AllocError>
    requires { length found.now ≤ most_listed }
    ensures noted { (count : ℕ) → owner < count → All (IsNoted count) portion.old.lists.items
        → OnOk result (All (IsNoted count) portion.new.lists.items) }
    ensures portion { (kind : Kind) (boxes : List MaskBox) (pieces : List Placed)
        → AreGathered (IsIn kind boxes pieces owner) [] (tags_of found.now)
        → IsPortion (IsIn kind boxes pieces) portion.old
        → OnOk result (IsPortion (IsIn kind boxes pieces) portion.new) }
{
    let start = portion.nodes.len();
    push_tags(found, &mut portion.nodes)?;
    let end = portion.nodes.len();
    if end < 1 << 32 {
        let run = Run {
            start: start as u32,
            end: end as u32,
        };
        portion.lists.push(Owned { owner, run })?;
    }
    Ok(())
}

// Adds the tags of some entries.
fn push_tags(found: &[Entry], nodes: &mut Vec<u32>) -> Result<(), AllocError>
    ensures { OnOk result (nodes.new.items ≡ nodes.old.items ++ tags_of found.now) }
{
    for entry in found {
        nodes.push(entry.tag)?;
    }
    Ok(())
}

/// Puts the lists of a portion in. Where the nodes are too many to be numbered, nothing is noted. The only refusal is
/// want of memory.
pub fn put_in(portion: &Portion, lists: &mut Lists) -> Result<(), AllocError>
    requires { All (IsNoted (length lists.old.runs.items)) portion.now.lists.items }
    ensures { (kind : Kind) (boxes : List MaskBox) (pieces : List Placed) (count : ℕ)
        → IsPortion (IsIn kind boxes pieces) portion.now → AreLists (IsIn kind boxes pieces) count lists.old
        → OnOk result (AreLists (IsIn kind boxes pieces) count lists.new) }
{
    let base = lists.nodes.len();
    lists.nodes.extend_from_slice(portion.nodes.as_slice())?;
    for list in &portion.lists {
        let start = base + list.run.start as usize;
        let end = base + list.run.end as usize;
        if end < 1 << 32 {
            lists.runs[list.owner as usize] = Run {
                start: start as u32,
                end: end as u32,
            };
        }
    }
    Ok(())
}
