ghost use Rattle.std.specs.Prelude.{◌≡◌, ◌<◌, ◌≤◌, ◌++◌, length, All, IfOk, OnOk};
ghost use Rattle.cons_graph.specs.Lines.{word_of, line_of, lines_of};

use crate::constraint_graph::Graph;
use crate::edges::{Edge, Why};
use crate::names::Names;
use std::alloc::{AllocError, Global};
use stick_lex::{Text, push_signed_decimal};

/// The lines of the edges with these numbers, in their order: `FROM -> TO LEN WHY` and a line end each, with the names
/// of the two variables, the length in u and the word of the reason. The only refusal is want of memory.
pub fn edge_lines(
    alloc: Global,
    g: &Graph,
    names: &Names,
    numbers: &[u32],
) -> Result<Text, AllocError>
    requires in_range { All (λ k. k < length g.now.edges) numbers.now }
    requires named { g.now.vars ≤ length names.now }
    ensures { IfOk result (λ text. text ≡ lines_of g.now.edges names.now numbers.now) }
{
    let edges = g.edges();
    let mut out = Vec::new(alloc);
    for k in numbers {
        push_line(&mut out, names, &edges[*k as usize])?;
    }
    Text::new(alloc, &out)
}

// Adds the line of one edge.
fn push_line(out: &mut Vec<u8>, names: &Names, edge: &Edge) -> Result<(), AllocError>
    requires tail_named { edge.now.from < length names.now }
    requires head_named { edge.now.to < length names.now }
    ensures { OnOk result (out.new.items ≡ out.old.items ++ line_of names.now edge.now) }
{
    out.extend_from_slice(names.get(edge.from))?;
    out.extend_from_slice(b" -> ")?;
    out.extend_from_slice(names.get(edge.to))?;
    out.push(b' ')?;
    push_signed_decimal(out, edge.len)?;
    out.push(b' ')?;
    out.extend_from_slice(word(edge.why))?;
    out.push(b'\n')?;
    Ok(())
}

// The word that a line gives as an edge's reason.
fn word(why: Why) -> &'static [u8]
    ensures { result.now ≡ word_of why }
{
    match why {
        Why::Size => b"size",
        Why::Extent => b"extent",
        Why::Overlap => b"overlap",
        Why::Margin => b"margin",
        Why::Limit => b"limit",
        Why::Pitch => b"pitch",
        Why::Port => b"port",
        Why::Space => b"space",
    }
}
