//! Lists as fields: an own type over a `Vec`, which contracts see as the list of its elements, so that a struct or
//! an enum with such a field is compared by what its lists hold and not by where they lie in memory. What the layer
//! above uses: the list stays, from `from_vec` through `as_slice` to `into_vec`; `check_count` refuses more things than
//! a `u32` can number. No call takes memory.
#![tactic(auto)]

mod counts;

ghost use Rattle.std.specs.Prelude.{◌≡◌};

pub use counts::check_count;
use std::marker::Model;

/// A list of elements, made from a `Vec` and given back as one.
#[derive(Debug, Drop)]
pub struct Seq<T> {
    elements: Vec<T>,
}

impl<T> Model for Seq<T> {
    ghost use Rattle.std.specs.Prelude.{List};

    ghost Value = { List T };

    ghost view = { λ s. s.elements.items };
}

impl<T> Seq<T> {
    /// The list of the elements of `elements`.
    pub fn from_vec(elements: Vec<T>) -> Seq<T>
        ensures { result ≡ elements.items }
    {
        Seq { elements }
    }

    /// Gives the elements back.
    pub fn into_vec(self) -> Vec<T>
        ensures { result.items ≡ self }
    {
        let Seq { elements } = self;
        elements
    }

    /// Lends the elements.
    pub fn as_slice(&self) -> &[T]
        ensures { result.now ≡ self.now }
    {
        self.elements.as_slice()
    }
}
