//! How much a design holds that a stick text says, and as what its canonical text is read: laws alone, with no code.
//!
//! What the layer above uses: a design has at most half as many names in its grids as its text has bytes, and a quarter
//! as many lines, the last line end counted even where it is missing. Its canonical text is read as the same design,
//! with its lines numbered anew.
#![tactic(auto)]

ghost use Rattle.std.specs.Prelude.{◌≡◌, ◌+◌, ◌*◌, ◌≤◌, length, All, Ok};
ghost use Rattle.stick_text.specs.{Order.design_of, Writable.IsWritable};
ghost use Rattle.stick_print.specs.{Canonical.canonical, ReadBack.laid_out};
ghost use Rattle.design_sizes.specs.Sizes.{names_in, lines_in};

use stick_text::Design;

/// A law, with nothing to run: a text has two bytes or more for each name in the grids of its design: the name, and a
/// blank in front of it.
pub fn names_are_few(text: &[u8], design: &Design)
    requires { design_of text.now ≡ Ok design.now }
    ensures { 2 * names_in design.now ≤ length text.now }
{}

/// A law, with nothing to run: the name of a cell has at most 32 bytes.
pub fn cell_names_are_short(design: &Design)
    requires { IsWritable design.now }
    ensures { All (λ cell. length cell.name ≤ 32) design.now.cells }
{}

/// A law, with nothing to run: a text has four bytes or more for each line of its design: a keyword of three or more,
/// and the end of the line, which may be missing at the last one.
pub fn lines_are_few(text: &[u8], design: &Design)
    requires { design_of text.now ≡ Ok design.now }
    ensures { 4 * lines_in design.now ≤ length text.now + 1 }
{}

/// A law, with nothing to run: the canonical text of a design has four bytes or more for each line of the design: a
/// keyword of three or more, and a line feed.
pub fn lines_are_in_the_text(design: &Design)
    ensures { 4 * lines_in design.now ≤ length (canonical design.now) }
{}

/// A law, with nothing to run: the canonical text of a design that has one is read as this design with each line on the
/// line after the one before it. That design has the same text, and its lines stay where they are.
pub fn numbered_designs_are_read_back(design: &Design)
    requires { IsWritable design.now }
    ensures read { design_of (canonical design.now) ≡ Ok (laid_out design.now) }
    ensures same { canonical (laid_out design.now) ≡ canonical design.now }
    ensures once { laid_out (laid_out design.now) ≡ laid_out design.now }
{}
