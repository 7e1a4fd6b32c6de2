//! What a line of stick text is made of.
ghost use Rattle.std.specs.Prelude.{◌≡◌};
ghost use Rattle.stick_lex.specs.declared.token.LexFault.TheVariants.{OutOfMemory};

use std::alloc::{AllocError, AllocFailed};
use thiserror::Error;

/// What a token is.
#[derive(Clone, Copy)]
pub enum TokenKind {
    /// Names joined by dots. A name is a letter and then at most 31 letters, digits or underscores.
    Path,
    /// A whole number, at most 1,000,000 either side of 0.
    Number,
    /// `<=`
    AtMost,
    /// `>=`
    AtLeast,
}

/// A run of bytes without blanks, from the place `lo` in its line to the place `hi` after it.
#[derive(Clone, Copy)]
pub struct Token {
    pub kind: TokenKind,
    pub lo: u32,
    pub hi: u32,
    /// The number that the token stands for, and 0 where it is none.
    pub value: i64,
}

/// Why a line has no tokens.
#[derive(Clone, Copy, Debug, PartialEq, Eq, Error)]
pub enum LexFault {
    /// The run that begins here is no token.
    #[error("not a token")]
    BadByte(u32),
    /// The number that begins here is past 1,000,000 either side of 0.
    #[error("a number is too large")]
    NumberTooLarge(u32),
    /// Memory ran out.
    #[error("out of memory")]
    OutOfMemory,
}

impl From<AllocError> for LexFault {
    ghost from_gives = { λ _ e. e ≡ OutOfMemory };

    fn from(_e: AllocError) -> LexFault {
        LexFault::OutOfMemory
    }
}

impl<T: Drop> From<AllocFailed<T>> for LexFault {
    ghost from_gives = { λ _ e. e ≡ OutOfMemory };

    fn from(_e: AllocFailed<T>) -> LexFault {
        LexFault::OutOfMemory
    }
}
