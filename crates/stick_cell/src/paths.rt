//! What a path comes to.
ghost use Rattle.std.specs.Prelude.{◌≡◌, ◌∷◌, ◌<◌, [], length, map, option_map, option_copied, IfSome, Some, None};
ghost use Rattle.stick_lex.specs.Tokens.{names};
ghost use Rattle.checked_cells.specs.{NameEntries.entries_of, Paths.{walk, walk_on, seen_through, names_after}};
ghost use Rattle.checked_cells.specs.Kept.{kept_found};

use crate::counts::{TOO_MANY, capped_sum};
use checked_cells::{Binding, Copied, Found, NameMap, NodePlace, Table, Terminal};

/// What a path comes to among the names of a cell, given the tables of the cells before it; `None` where one of its
/// names is unknown. The number of a node past 65,536 is 65,537, and columns and rows end at the greatest `u32`. It
/// takes no memory.
pub fn found_at(tables: &[Table], scope: &NameMap, path: &[u8]) -> Option<Found>
    ensures { result ≡ option_map kept_found
        (walk (map (λ table. entries_of table.names) tables.now) (entries_of scope.now) (names path.now)) }
{
    let (name, after) = split_first(path);
    let binding = scope.find(name)?;
    let Some(rest) = after else {
        return Some(end_at(binding));
    };
    match binding {
        Binding::Node(_) | Binding::Port(_) => Some(Found::Through),
        Binding::Copy(copy) => {
            let table = tables.get(copy.cell as usize)?;
            let found = found_at(tables, &table.names, rest)?;
            Some(seen_through(copy, found))
        }
    }
}

/// The first name of a path, and what stands after its dot, if there is one.
pub fn split_first(path: &[u8]) -> (&[u8], Option<&[u8]>)
    ensures names { names path.now ≡ result.0.now ∷ names_after (option_copied result.1) }
    ensures shorter { IfSome result.1 (λ rest. length rest.now < length path.now) }
{
    match path.iter().position(|b| *b == b'.') {
        None => (path, None),
        Some(at) => (&path[..at], Some(&path[at + 1..])),
    }
}

// What a thing comes to with no name after it.
fn end_at(binding: Binding) -> Found
    ensures { Some result ≡ option_map kept_found (walk_on binding [] (λ k. None)) }
{
    match binding {
        Binding::Node(node_place) => Found::At(Terminal::Node(NodePlace {
            number: node_place.number.min(TOO_MANY),
            ..node_place
        })),
        Binding::Port(pin) => Found::At(Terminal::Port(pin)),
        Binding::Copy(_) => Found::AtCopy,
    }
}

// What is found in a copy, seen from the cell that holds the copy.
fn seen_through(copy: Copied, found: Found) -> Found
    ensures { result ≡ kept_found (seen_through copy found) }
{
    match found {
        Found::At(Terminal::Node(node_place)) => Found::At(Terminal::Node(NodePlace {
            number: capped_sum(copy.first, node_place.number),
            kind: node_place.kind,
            col: copy.col.saturating_add(node_place.col),
            row: copy.row.saturating_add(node_place.row),
        })),
        Found::At(Terminal::Port(pin)) => Found::At(Terminal::Port(pin)),
        Found::AtCopy => Found::AtCopy,
        Found::Through => Found::Through,
    }
}
