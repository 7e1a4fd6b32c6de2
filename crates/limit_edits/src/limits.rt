//! The lines of a cell with a limit more, or with one less.
ghost use Rattle.std.specs.Prelude.{◌≡◌, ◌+◌, ◌<◌, ◌≤◌, ◌++◌, [], ◌∷◌, drop, take, length, IfOk, List, OnOk};
ghost use Rattle.std.specs.Prelude.{MatchOption};
ghost use Rattle.stick_text.specs.declared.design.Form.TheVariants as forms;
ghost use Rattle.stick_text.specs.declared.design.Line.{Line as SomeLine};
ghost use Rattle.design_edits.specs.Cells.{unnumbered};
ghost use Rattle.limit_edits.specs.{Edits.{is_limit, limits_in, ChangesTo, IsWithoutLimit}, Building.IsLimitAt};

use design_edits::copy_form;
use edit_lines::EditLine;
use std::alloc::{AllocError, Global};
use stick_lex::Text;
use stick_text::{Form, Line};

fn is_limit(form: &Form) -> bool
    ensures { result ≡ is_limit form.now }
{
    matches!(form, Form::Limit { .. })
}

// The place of the line of limit `k` among some lines.
fn limit_line(lines: &[Line], k: u32) -> Option<usize>
    ensures { MatchOption result (limits_in lines.now ≤ k) (λ at. IsLimitAt lines.now k at) }
{
    let mut left = k;
    for (at, line) in lines.iter().enumerate() {
        if is_limit(&line.form) {
            if left == 0 {
                return Some(at);
            }
            left -= 1;
        }
    }
    None
}

// Appends copies of lines.
fn push_lines(alloc: Global, from: &[Line], lines: &mut Vec<Line>) -> Result<(), AllocError>
    ensures { OnOk result (lines.new.items ≡ lines.old.items ++ from.now) }
{
    for line in from {
        let form = copy_form(alloc, &line.form)?;
        lines.push(Line {
            number: line.number,
            form,
        })?;
    }
    Ok(())
}

// The lines and a limit after them, which gets its number later.
fn with_limit(
    alloc: Global,
    lines: &[Line],
    vertical: bool,
    a: &Text,
    b: &Text,
    at_most: bool,
    n: i64,
) -> Result<Vec<Line>, AllocError>
    ensures { IfOk result
        (λ new. new.items ≡ lines.now ++ unnumbered (forms.Limit vertical a.now b.now at_most n) ∷ []) }
{
    let mut new = Vec::new(alloc);
    push_lines(alloc, lines, &mut new)?;
    let a = Text::new(alloc, a.bytes())?;
    let b = Text::new(alloc, b.bytes())?;
    let form = Form::Limit {
        vertical,
        a,
        b,
        at_most,
        n,
    };
    new.push(Line { number: 0, form })?;
    Ok(new)
}

// The lines without the one at `at`.
fn without_line(alloc: Global, lines: &[Line], at: usize) -> Result<Vec<Line>, AllocError>
    requires { at < length lines.now }
    ensures { IfOk result (λ new. new.items ≡ take at lines.now ++ drop (at + 1) lines.now) }
{
    let mut new = Vec::new(alloc);
    push_lines(alloc, &lines[..at], &mut new)?;
    push_lines(alloc, &lines[at + 1..], &mut new)?;
    Ok(new)
}

/// The lines of a cell after an edit; None exactly where there is no limit to be taken away.
pub fn changed_lines(
    alloc: Global,
    lines: &[Line],
    edit: &EditLine,
) -> Result<Option<Vec<Line>>, AllocError>
    ensures { IfOk result
        (λ done. MatchOption done ((new : List SomeLine) → ChangesTo edit.now lines.now new → ⊥)
        (λ new. ChangesTo edit.now lines.now new.items)) }
{
    match edit {
        EditLine::Add {
            vertical,
            a,
            b,
            at_most,
            n,
            ..
        } => {
            let new = with_limit(alloc, lines, *vertical, a, b, *at_most, *n)?;
            Ok(Some(new))
        }
        EditLine::Take { k, .. } => {
            let Some(at) = limit_line(lines, *k) else {
                return Ok(None);
            };
            let new = without_line(alloc, lines, at)?;
            Ok(Some(new))
        }
    }
}
