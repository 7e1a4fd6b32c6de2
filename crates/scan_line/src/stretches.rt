//! Stretches: the cut of a layout across the axis of a scan.

ghost use Rattle.std.specs.Prelude.{◌≡◌, ◌+◌, ◌<◌};
ghost use Rattle.scan_line.specs.Stretches.{stretch_of, IsCut};

use lam_geom::Span;

/// An axis, cut into stretches of one length. They are numbered from `base` up; the first reaches down without end,
/// and the last up.
#[derive(Clone, Copy)]
pub struct Stretches {
    base: i64,
    length: u64,
    last: u64,
}

// No axis is cut into more.
const MOST: u64 = 1 << 32;

impl Stretches {
    /// Stretches across an axis, for items that lie at some places there: each about twice as long as an item lies,
    /// and no more of them than items and one.
    pub fn across(places: &[Span]) -> Stretches
        ensures { IsCut result }
    {
        let (low, high, sum) = extents(places);
        let count = (places.len() as u64).max(1).min(MOST);
        let total = low.abs_diff(high);
        let long = (sum / count).saturating_mul(2);
        let length = long.max(total / count).saturating_add(1);
        Stretches {
            base: low,
            length,
            last: (total / length).min(count),
        }
    }

    /// Stretches so many times as long, in the same places.
    pub fn longer(&self, times: u64) -> Stretches
        requires cut { IsCut self.now }
        requires some { 0 < times }
        ensures { IsCut result }
    {
        Stretches {
            base: self.base,
            length: self.length.saturating_mul(times),
            last: self.last / times,
        }
    }

    /// How many there are.
    pub fn count(&self) -> usize
        requires { IsCut self.now }
        ensures { result ≡ self.now.last + 1 }
    {
        self.last as usize + 1
    }

    /// The number of the stretch in which a place lies.
    pub fn number_of(&self, place: i64) -> usize
        requires { IsCut self.now }
        ensures { result ≡ stretch_of self.now place }
    {
        let above = place.max(self.base).abs_diff(self.base);
        (above / self.length).min(self.last) as usize
    }
}

// The least and the greatest end of some spans, and the sum of their lengths.
fn extents(spans: &[Span]) -> (i64, i64, u64) {
    let (mut low, mut high) = (i64::MAX, i64::MIN);
    let mut sum = 0u64;
    for span in spans {
        low = low.min(span.lo);
        high = high.max(span.hi);
        sum = sum.saturating_add(span.lo.abs_diff(span.hi));
    }
    (low, high, sum)
}
