//! Whether a design has a text that can be read.

ghost use Rattle.std.specs.Prelude.{◌≤◌, ◌↔◌, length, IfOk, IsTrue};
ghost use Rattle.stick_print.specs.Canonical.{canonical};
ghost use Rattle.command_files.specs.Limits.{most_design_bytes};

use crate::fetch::MOST_DESIGN;
use std::alloc::{AllocError, Global};
use stick_print::print;
use stick_text::Design;

/// Whether the canonical text of a design is no longer than a design's text may be.
pub fn has_short_text(alloc: Global, design: &Design) -> Result<bool, AllocError>
    ensures { IfOk result (λ is. IsTrue is ↔ (length (canonical design.now) ≤ most_design_bytes)) }
{
    let text = print(alloc, design)?;
    Ok(text.len() as u64 <= MOST_DESIGN)
}
