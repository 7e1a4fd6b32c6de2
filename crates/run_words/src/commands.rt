//! What the program is asked to do.

ghost use Rattle.std.specs.Prelude.{◌≡◌};
ghost use Rattle.clap.specs.Words.{kind_of};
ghost use Rattle.run_words.specs.{Faults.fault_by, declared.commands.WordsFault.TheVariants.OutOfMemory};

use clap::error::ErrorKind;
use lam_geom::Axis;
use lam_list::Seq;
use std::alloc::AllocError;
use thiserror::Error;

/// A command, with the names of its files as they stand in the words.
#[derive(Drop)]
pub enum Command<'a> {
    /// `compact DESIGN --tech FILE [--passes LIST] [--split N]`: the masks of a design under a technology.
    Compact {
        /// The design's file.
        design: &'a str,
        /// The technology's file.
        tech: &'a str,
        /// The axes of the passes, in their order.
        passes: Seq<Axis>,
        /// The number of shares that the work on the masters is split into: 1 to 64.
        split: u32,
    },
    /// `slack DESIGN --tech FILE [--passes LIST]`: how far each part of a design could move under a technology.
    Slack {
        /// The design's file.
        design: &'a str,
        /// The technology's file.
        tech: &'a str,
        /// The axes of the passes, in their order.
        passes: Seq<Axis>,
    },
    /// `jog DESIGN --tech FILE --script FILE [--passes LIST]`: bends wires of a design where that makes a cell
    /// narrower.
    Jog {
        /// The design's file.
        design: &'a str,
        /// The technology's file.
        tech: &'a str,
        /// The script's file.
        script: &'a str,
        /// The axes of the passes, in their order.
        passes: Seq<Axis>,
    },
    /// `edit DESIGN --tech FILE --script FILE [--passes LIST]`: adds and removes limits of a design, with its sizes
    /// after each step.
    Edit {
        /// The design's file.
        design: &'a str,
        /// The technology's file.
        tech: &'a str,
        /// The script's file.
        script: &'a str,
        /// The axes of the passes, in their order.
        passes: Seq<Axis>,
    },
    /// `check CIF --tech FILE [--split N]`: the first break of a design rule in a CIF text under a technology.
    Check {
        /// The CIF text's file.
        cif: &'a str,
        /// The technology's file.
        tech: &'a str,
        /// The number of shares that the work on the boxes is split into: 1 to 64.
        split: u32,
    },
    /// `breaks CIF --tech FILE [--most N]`: the first breaks of the design rules in a CIF text under a technology.
    Breaks {
        /// The CIF text's file.
        cif: &'a str,
        /// The technology's file.
        tech: &'a str,
        /// How many breaks are listed at most: 1 to 65,536.
        most: u32,
    },
    /// `extract CIF --tech FILE`: the nets and transistors of a CIF text under a technology.
    Extract {
        /// The CIF text's file.
        cif: &'a str,
        /// The technology's file.
        tech: &'a str,
    },
    /// `nets DESIGN --tech FILE`: the nets and transistors of a design, with the names of their parts.
    Nets {
        /// The design's file.
        design: &'a str,
        /// The technology's file.
        tech: &'a str,
    },
    /// `fmt DESIGN`: the canonical text of a design.
    Fmt {
        /// The design's file.
        design: &'a str,
    },
    /// `bench N`: a line on the compaction of the design that is made from a number.
    Bench {
        /// The number, 1 to 64.
        n: u32,
    },
}

/// Why words are no command.
#[derive(Clone, Copy, Debug, PartialEq, Eq, Error)]
pub enum WordsFault {
    /// The words are none of the command lines, or a list of passes or a number in them is none.
    #[error("the words are no command")]
    Usage,
    /// Memory ran out.
    #[error("out of memory")]
    OutOfMemory,
}

impl From<AllocError> for WordsFault {
    ghost from_gives = { λ _ fault. fault ≡ OutOfMemory };

    fn from(_error: AllocError) -> WordsFault {
        WordsFault::OutOfMemory
    }
}

impl From<clap::Error> for WordsFault {
    ghost from_gives = { λ error fault. fault ≡ fault_by (kind_of error) };

    fn from(error: clap::Error) -> WordsFault {
        match error.kind() {
            ErrorKind::OutOfMemory => WordsFault::OutOfMemory,
            _ => WordsFault::Usage,
        }
    }
}
