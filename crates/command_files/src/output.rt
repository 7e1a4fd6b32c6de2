//! What a command writes.

ghost use Rattle.std.specs.Prelude.{◌≡◌, IfOk};
ghost use Rattle.command_files.specs.Outputs.{text_of};

use std::alloc::{AllocError, AllocFailed, Global};
use stick_lex::Text;

/// A text to be put chunk by chunk, and what is told beside it.
#[derive(Drop)]
pub struct Output {
    /// The chunks of the text, in order.
    pub chunks: Vec<Vec<u8>>,
    /// The report, which may be empty.
    pub report: Text,
}

/// A text in one chunk, and what is told beside it.
pub fn in_one_chunk(alloc: Global, text: Vec<u8>, report: &[u8]) -> Result<Output, AllocError>
    ensures text { IfOk result (λ output. text_of output ≡ text.items) }
    ensures report { IfOk result (λ output. output.report ≡ report.now) }
{
    Ok(Output {
        chunks: vec![in alloc; text]?,
        report: Text::new(alloc, report)?,
    })
}
