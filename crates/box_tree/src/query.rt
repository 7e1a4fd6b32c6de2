//! What is asked of entries.
ghost use Rattle.std.specs.Prelude.{◌≡◌, ◌↔◌, IsTrue};
ghost use Rattle.lam_geom.specs.Places.{IsPlacedBox};
ghost use Rattle.box_tree.specs.Queries.{Holds, IsFar, IsNear, IsQuery, reach_of};

use crate::entries::Entry;
use lam_geom::{BoxXY, contains_by, gap, overlaps};

/// What is asked of an entry beside an area. Lengths are of the unit of the areas.
#[derive(Clone, Copy)]
pub enum Question {
    /// It lies no farther than `reach` from the area, and has another owner.
    NearOfOther { reach: i64, owner: u32 },
    /// It lies no farther than `reach` from the area, and has another owner and another tag.
    NearOfOtherTag { reach: i64, owner: u32, tag: u32 },
    /// It lies no farther than `reach` from the area, and does not overlap it.
    NearApart { reach: i64 },
    /// It goes past the area by `margin` on all sides.
    Covers { margin: i64 },
    /// It lies no farther than `reach` from the area, and does not go past it by `margin` on all sides.
    NearShort { reach: i64, margin: i64 },
    /// It lies no farther than `reach` from the area, which does not go past it by `margin` on all sides.
    NearOutside { reach: i64, margin: i64 },
}

/// An area, and what is asked of an entry beside it.
#[derive(Clone, Copy)]
pub struct Query {
    pub area: BoxXY,
    pub question: Question,
}

impl Query {
    /// Whether an entry holds the query.
    #[inline(always)]
    pub fn holds(&self, entry: &Entry) -> bool
        requires query { IsQuery self.now }
        requires entry { IsPlacedBox entry.now.area }
        ensures { IsTrue result ↔ Holds self.now entry.now }
    {
        // Most entries are too far, so this is asked first, with no call of another function.
        if is_far(&self.area, &entry.area, reach_of(self.question)) {
            return false;
        }
        self.is_answered(entry)
    }

    // The same of an entry that is not too far.
    #[inline(never)]
    fn is_answered(&self, entry: &Entry) -> bool
        requires query { IsQuery self.now }
        requires entry { IsPlacedBox entry.now.area }
        requires near { IsFar self.now.area (reach_of self.now.question) entry.now.area → ⊥ }
        ensures { IsTrue result ↔ Holds self.now entry.now }
    {
        let area = &self.area;
        match self.question {
            Question::NearOfOther { owner, .. } => entry.owner != owner,
            Question::NearOfOtherTag { owner, tag, .. } => entry.owner != owner && entry.tag != tag,
            Question::NearApart { .. } => !overlaps(area, &entry.area),
            Question::Covers { margin } => contains_by(&entry.area, area, margin),
            Question::NearShort { margin, .. } => !contains_by(&entry.area, area, margin),
            Question::NearOutside { margin, .. } => !contains_by(area, &entry.area, margin),
        }
    }
}

// Whether no more than so much lies between two areas. Where more does on x, y is not looked at.
fn is_near(area: &BoxXY, other: &BoxXY, reach: i64) -> bool
    requires area { IsPlacedBox area.now }
    requires other { IsPlacedBox other.now }
    ensures { IsTrue result ↔ IsNear area.now reach other.now }
{
    gap(area.x, other.x) <= reach && gap(area.y, other.y) <= reach
}

/// How far an entry may lie from the area, if that is asked.
pub fn reach_of(question: Question) -> Option<i64>
    ensures { result ≡ reach_of question }
{
    match question {
        Question::NearOfOther { reach, .. } => Some(reach),
        Question::NearOfOtherTag { reach, .. } => Some(reach),
        Question::NearApart { reach } => Some(reach),
        Question::Covers { .. } => None,
        Question::NearShort { reach, .. } => Some(reach),
        Question::NearOutside { reach, .. } => Some(reach),
    }
}

/// Whether more lies between two areas than a query asks, if it asks how much may: then no entry within the other
/// holds it.
pub fn is_far(area: &BoxXY, other: &BoxXY, reach: Option<i64>) -> bool
    requires area { IsPlacedBox area.now }
    requires other { IsPlacedBox other.now }
    ensures { IsTrue result ↔ IsFar area.now reach other.now }
{
    match reach {
        Some(reach) => !is_near(area, other, reach),
        None => false,
    }
}
