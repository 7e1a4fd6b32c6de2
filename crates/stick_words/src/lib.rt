//! The lines of a text, one by one (`first_line`), the words of a line (`words_of`), and what a word names (`path_at`
//! and its like). What each gives is in stick_text, `specs/Words.antt`; `specs/WordViews.antt` says which words of a
//! contract those of the code are. Whoever reads a text of such lines stands on this: stick_parse for designs, and the
//! readers of scripts.
#![tactic(auto)]

mod line;
mod words;

pub use line::first_line;
pub use words::{
    Prefix, Word, at_most_at, count_at, either_at, ended, equals, layer_at, lower_at, name_at,
    number_at, optional_count_at, path_at, side_at, words_of,
};
