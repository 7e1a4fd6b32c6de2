//! What a line of words says.
ghost use Rattle.std.specs.Prelude.{◌≡◌, Ok, IfOk, IfErr};
ghost use Rattle.stick_text.specs.{Reading.{GivesLine, FailsLine}, Words.{count_at, ended}, Forms.AreCounts};
ghost use Rattle.stick_text.specs.Forms.{LacksCounts, joint_of, contact_of, buried_of, fet_of, port_of, use_of};
ghost use Rattle.stick_text.specs.Forms.{wire_of, limit_of, version_of, cell_of, grid_of, names_of, row_of, end_of};
ghost use Rattle.stick_text.specs.Forms.{form_named, item_named, statement_named, statement_of};
ghost use Rattle.stick_words.specs.WordViews.{views};

use lam_list::Seq;
use std::alloc::Global;
use stick_lex::Text;
use stick_text::{Form, LineFault, RowText, Statement, StickKind};
use stick_words::{
    Prefix, Word, at_most_at, count_at, either_at, ended, equals, layer_at, lower_at, name_at,
    number_at, optional_count_at, path_at, side_at,
};

const BAD_LINE: LineFault = LineFault::Kind(StickKind::BadLine);

// Two numbers.
fn counts_at<'w, 'a>(words: &'w [Word<'a>]) -> Prefix<'w, 'a, (u32, u32)>
    ensures counts { IfOk result (λ x. AreCounts (views words.now) x.0.0 x.0.1 (views x.1.now)) }
    ensures fault { IfErr result (λ fault. LacksCounts fault (views words.now)) }
{
    let (first, rest) = count_at(words)?;
    let (second, rest) = count_at(rest)?;
    Ok(((first, second), rest))
}

// The text, where no word is left.
fn alone(alloc: Global, text: &[u8], rest: &[Word]) -> Result<Text, LineFault>
    ensures text { IfOk result (λ made. (made ≡ text.now) × (ended (views rest.now) ≡ Ok tt)) }
    ensures fault { IfErr result (λ fault. FailsLine fault (ended (views rest.now))) }
{
    ended(rest)?;
    Ok(Text::new(alloc, text)?)
}

// Both texts, where no word is left.
fn both(alloc: Global, a: &[u8], b: &[u8], rest: &[Word]) -> Result<(Text, Text), LineFault>
    ensures texts { IfOk result (λ made. (made.0 ≡ a.now) × (made.1 ≡ b.now) × (ended (views rest.now) ≡ Ok tt)) }
    ensures fault { IfErr result (λ fault. FailsLine fault (ended (views rest.now))) }
{
    let a = alone(alloc, a, rest)?;
    let b = Text::new(alloc, b)?;
    Ok((a, b))
}

#[tactic(auto, unfolding(stick_text::specs::Forms::joint_of))]
fn joint_of(alloc: Global, words: &[Word]) -> Result<Form, LineFault>
    ensures { GivesLine (λ x. x) result (joint_of (views words.now)) }
{
    let (name, rest) = name_at(words)?;
    let (layer, rest) = layer_at(rest)?;
    let ((col, row), rest) = counts_at(rest)?;
    let (width, rest) = optional_count_at(rest)?;
    let name = alone(alloc, name, rest)?;
    Ok(Form::Joint {
        name,
        layer,
        col,
        row,
        width,
    })
}

#[tactic(auto, unfolding(stick_text::specs::Forms::contact_of))]
fn contact_of(alloc: Global, words: &[Word]) -> Result<Form, LineFault>
    ensures { GivesLine (λ x. x) result (contact_of (views words.now)) }
{
    let (name, rest) = name_at(words)?;
    let (lower, rest) = lower_at(rest)?;
    let ((col, row), rest) = counts_at(rest)?;
    let name = alone(alloc, name, rest)?;
    Ok(Form::Contact {
        name,
        lower,
        col,
        row,
    })
}

#[tactic(auto, unfolding(stick_text::specs::Forms::buried_of))]
fn buried_of(alloc: Global, words: &[Word]) -> Result<Form, LineFault>
    ensures { GivesLine (λ x. x) result (buried_of (views words.now)) }
{
    let (name, rest) = name_at(words)?;
    let ((col, row), rest) = counts_at(rest)?;
    let name = alone(alloc, name, rest)?;
    Ok(Form::Buried { name, col, row })
}

#[tactic(auto, unfolding(stick_text::specs::Forms::fet_of))]
fn fet_of(alloc: Global, words: &[Word]) -> Result<Form, LineFault>
    ensures { GivesLine (λ x. x) result (fet_of (views words.now)) }
{
    let (name, rest) = name_at(words)?;
    let (depletion, rest) = either_at(b"enh", b"dep", rest)?;
    let (vertical, rest) = either_at(b"h", b"v", rest)?;
    let ((col, row), rest) = counts_at(rest)?;
    let ((w, l), rest) = counts_at(rest)?;
    let name = alone(alloc, name, rest)?;
    Ok(Form::Fet {
        name,
        depletion,
        vertical,
        col,
        row,
        w,
        l,
    })
}

#[tactic(auto, unfolding(stick_text::specs::Forms::port_of))]
fn port_of(alloc: Global, words: &[Word]) -> Result<Form, LineFault>
    ensures { GivesLine (λ x. x) result (port_of (views words.now)) }
{
    let (name, rest) = name_at(words)?;
    let (side, rest) = side_at(rest)?;
    let (layer, rest) = layer_at(rest)?;
    let (place, rest) = count_at(rest)?;
    let name = alone(alloc, name, rest)?;
    Ok(Form::Port {
        name,
        side,
        layer,
        place,
    })
}

#[tactic(auto, unfolding(stick_text::specs::Forms::use_of))]
fn use_of(alloc: Global, words: &[Word]) -> Result<Form, LineFault>
    ensures { GivesLine (λ x. x) result (use_of (views words.now)) }
{
    let (name, rest) = name_at(words)?;
    let (cell, rest) = name_at(rest)?;
    let ((col, row), rest) = counts_at(rest)?;
    let (name, cell) = both(alloc, name, cell, rest)?;
    Ok(Form::Inst {
        name,
        cell,
        col,
        row,
    })
}

#[tactic(auto, unfolding(stick_text::specs::Forms::wire_of))]
fn wire_of(alloc: Global, words: &[Word]) -> Result<Form, LineFault>
    ensures { GivesLine (λ x. x) result (wire_of (views words.now)) }
{
    let (layer, rest) = layer_at(words)?;
    let (a, rest) = path_at(rest)?;
    let (b, rest) = path_at(rest)?;
    let (width, rest) = optional_count_at(rest)?;
    let (a, b) = both(alloc, a, b, rest)?;
    Ok(Form::Wire { layer, a, b, width })
}

#[tactic(auto, unfolding(stick_text::specs::Forms::limit_of))]
fn limit_of(alloc: Global, words: &[Word]) -> Result<Form, LineFault>
    ensures { GivesLine (λ x. x) result (limit_of (views words.now)) }
{
    let (vertical, rest) = either_at(b"x", b"y", words)?;
    let (a, rest) = path_at(rest)?;
    let (b, rest) = path_at(rest)?;
    let (at_most, rest) = at_most_at(rest)?;
    let (n, rest) = number_at(rest)?;
    let (a, b) = both(alloc, a, b, rest)?;
    Ok(Form::Limit {
        vertical,
        a,
        b,
        at_most,
        n,
    })
}

#[tactic(auto, unfolding(stick_text::specs::Forms::version_of))]
fn version_of(words: &[Word]) -> Result<Statement, LineFault>
    ensures { GivesLine (λ x. x) result (version_of (views words.now)) }
{
    let (version, rest) = count_at(words)?;
    ended(rest)?;
    Ok(Statement::Version(version))
}

#[tactic(auto, unfolding(stick_text::specs::Forms::cell_of))]
fn cell_of(alloc: Global, words: &[Word]) -> Result<Statement, LineFault>
    ensures { GivesLine (λ x. x) result (cell_of (views words.now)) }
{
    let (name, rest) = name_at(words)?;
    let name = alone(alloc, name, rest)?;
    Ok(Statement::Cell(name))
}

#[tactic(auto, unfolding(stick_text::specs::Forms::grid_of))]
fn grid_of(alloc: Global, words: &[Word]) -> Result<Statement, LineFault>
    ensures { GivesLine (λ x. x) result (grid_of (views words.now)) }
{
    let [_, ..] = words else {
        return Ok(Statement::Grid(None));
    };
    let (name, rest) = name_at(words)?;
    let name = alone(alloc, name, rest)?;
    Ok(Statement::Grid(Some(name)))
}

fn names_of(alloc: Global, words: &[Word]) -> Result<Seq<Text>, LineFault>
    ensures { GivesLine (λ x. x) result (names_of (views words.now)) }
{
    let mut names = Vec::new(alloc);
    for i in 0..words.len() {
        let (name, _) = name_at(&words[i..])?;
        names.push(Text::new(alloc, name)?)?;
    }
    Ok(Seq::from_vec(names))
}

#[tactic(auto, unfolding(stick_text::specs::Forms::row_of))]
fn row_of(alloc: Global, words: &[Word]) -> Result<Statement, LineFault>
    ensures { GivesLine (λ x. x) result (row_of (views words.now)) }
{
    if words.is_empty() {
        return Err(BAD_LINE);
    }
    let names = names_of(alloc, words)?;
    Ok(Statement::Row(RowText { names }))
}

#[tactic(auto, unfolding(stick_text::specs::Forms::end_of))]
fn end_of(words: &[Word]) -> Result<Statement, LineFault>
    ensures { GivesLine (λ x. x) result (end_of (views words.now)) }
{
    ended(words)?;
    Ok(Statement::End)
}

#[tactic(auto, unfolding(stick_text::specs::Forms::form_named))]
fn form_named(alloc: Global, keyword: &[u8], words: &[Word]) -> Result<Form, LineFault>
    ensures { GivesLine (λ x. x) result (form_named keyword.now (views words.now)) }
{
    if equals(keyword, b"joint") {
        joint_of(alloc, words)
    } else if equals(keyword, b"contact") {
        contact_of(alloc, words)
    } else if equals(keyword, b"buried") {
        buried_of(alloc, words)
    } else if equals(keyword, b"fet") {
        fet_of(alloc, words)
    } else if equals(keyword, b"port") {
        port_of(alloc, words)
    } else if equals(keyword, b"use") {
        use_of(alloc, words)
    } else if equals(keyword, b"wire") {
        wire_of(alloc, words)
    } else if equals(keyword, b"limit") {
        limit_of(alloc, words)
    } else {
        Err(BAD_LINE)
    }
}

#[tactic(auto, unfolding(stick_text::specs::Forms::item_named))]
fn item_named(alloc: Global, keyword: &[u8], words: &[Word]) -> Result<Statement, LineFault>
    ensures { GivesLine (λ x. x) result (item_named keyword.now (views words.now)) }
{
    let form = form_named(alloc, keyword, words)?;
    Ok(Statement::Item(form))
}

#[tactic(auto, unfolding(stick_text::specs::Forms::statement_named))]
fn statement_named(alloc: Global, keyword: &[u8], words: &[Word]) -> Result<Statement, LineFault>
    ensures { GivesLine (λ x. x) result (statement_named keyword.now (views words.now)) }
{
    if equals(keyword, b"sticks") {
        version_of(words)
    } else if equals(keyword, b"cell") {
        cell_of(alloc, words)
    } else if equals(keyword, b"end") {
        end_of(words)
    } else if equals(keyword, b"grid") {
        grid_of(alloc, words)
    } else if equals(keyword, b"row") {
        row_of(alloc, words)
    } else {
        item_named(alloc, keyword, words)
    }
}

/// What a line of words says, or that its words form no line.
#[tactic(auto, unfolding(stick_text::specs::Forms::statement_of))]
pub fn statement_of(alloc: Global, words: &[Word]) -> Result<Statement, LineFault>
    ensures { GivesLine (λ x. x) result (statement_of (views words.now)) }
{
    let (keyword, rest) = path_at(words)?;
    statement_named(alloc, keyword, rest)
}
