//! The words of the stick language: texts, the tokens of one line, and numbers in decimal digits. What the layer above
//! uses: `lex_line` gives exactly the tokens that `specs/Tokens.antt` says of the line's longest runs of bytes without
//! blanks, or the first of them that is no token; `push_decimal` appends exactly a number's digits.
#![tactic(auto)]

mod digits;
mod lexing;
mod text;
mod token;

pub use digits::{push_decimal, push_signed_decimal};
pub use lexing::{LARGEST, LONGEST_NAME, is_name, lex_line};
pub use text::Text;
pub use token::{LexFault, Token, TokenKind};
