//! The least number of a jog whose joints get new names.
ghost use Rattle.std.specs.Prelude.{◌≡◌, ℕ, ◌-◌, ◌^◌, ◌<◌, ◌≤◌, true, [], ◌∷◌, length, min, slice_index_or, false};
ghost use Rattle.std.specs.{Prelude.{IfOk, OnOk, MatchBool, MatchOption}, List.slice_range, Str.Parse.digits_value};
ghost use Rattle.stick_lex.specs.Tokens.{is_numeral};
ghost use Rattle.jog_insert.specs.{Jogs.{joint_name, name_in, IsJogNumber}, Building.{IsNameOf, Marks, marks_in}};

use std::alloc::{AllocError, Global};
use stick_lex::{Text, push_decimal};
use stick_text::{Form, Line};

/// The name of one of the two joints of a jog: `a` for the lower one, `b` for the upper one.
pub fn joint_name(alloc: Global, number: u32, letter: u8) -> Result<Text, AllocError>
    ensures { IfOk result (λ name. name ≡ joint_name number (letter ∷ [])) }
{
    let mut name = Vec::from_slice(alloc, b"jog")?;
    push_decimal(&mut name, u64::from(number))?;
    name.push(letter)?;
    Text::new(alloc, name.as_slice())
}

// The name that a line brings, if it brings one.
fn name_of(form: &Form) -> Option<&[u8]>
    ensures { MatchOption result (name_in form.now ≡ []) (λ name. name_in form.now ≡ name.now ∷ []) }
{
    match form {
        Form::Joint { name, .. }
        | Form::Contact { name, .. }
        | Form::Buried { name, .. }
        | Form::Fet { name, .. }
        | Form::Port { name, .. }
        | Form::Inst { name, .. } => Some(name.bytes()),
        Form::Wire { .. } | Form::Limit { .. } => None,
    }
}

fn is_numeral(digits: &[u8]) -> bool
    ensures { result ≡ is_numeral digits.now }
{
    !digits.is_empty() && digits.iter().all(|b| b.is_ascii_digit())
}

// The number that the digits stand for, or the largest of 32 bits where it is larger.
fn capped_value(digits: &[u8]) -> u32
    requires { is_numeral digits.now ≡ true }
    ensures { result ≡ min (digits_value 10 digits.now) 4294967295 }
{
    let mut value = 0;
    for digit in digits {
        value = (value * 10 + u64::from(*digit - b'0')).min(u64::from(u32::MAX));
    }
    value as u32
}

// What stands between the first three bytes and the last one.
fn middle_of(name: &[u8]) -> &[u8]
    ensures { 4 ≤ length name.now → result.now ≡ slice_range name.now 3 (length name.now - 1) }
{
    if name.len() < 4 {
        return name;
    }
    &name[3..name.len() - 1]
}

// The only number below 2^32 - 1 of a jog that may have a joint of this name.
fn number_in(name: &[u8]) -> u32
    ensures { (n : ℕ) → n < 4294967295 → IsNameOf n name.now → result ≡ n }
{
    let digits = middle_of(name);
    if is_numeral(digits) {
        capped_value(digits)
    } else {
        0
    }
}

// Whether the name is that of a joint of this jog.
fn is_name_of(alloc: Global, number: u32, name: &[u8]) -> Result<bool, AllocError>
    ensures { IfOk result (λ is. MatchBool is (IsNameOf number name.now) (IsNameOf number name.now → ⊥)) }
{
    let lower = joint_name(alloc, number, b'a')?;
    let upper = joint_name(alloc, number, b'b')?;
    Ok(name == lower.bytes() || name == upper.bytes())
}

// Marks the number of the jog that a joint of this name has.
fn mark(alloc: Global, name: &[u8], taken: &mut [bool]) -> Result<(), AllocError>
    requires { length taken.old < 2 ^ 32 }
    ensures { OnOk result (Marks name.now taken.old taken.new) }
{
    let number = number_in(name);
    if (number as usize) < taken.len() && is_name_of(alloc, number, name)? {
        taken[number as usize] = true;
    }
    Ok(())
}

// The first number that is not marked.
fn first_unmarked(taken: &[bool]) -> usize
    requires { marks_in taken.now < length taken.now }
    ensures within { result < length taken.now }
    ensures free { slice_index_or taken.now result false ≡ false }
    ensures first { (n : ℕ) → n < result → slice_index_or taken.now n false ≡ true }
{
    for (n, is_taken) in taken.iter().enumerate() {
        if !*is_taken {
            return n;
        }
    }
    unreachable!()
}

/// The least number of a jog for which the names of both joints are new among these lines. It costs time linear in the
/// lines.
pub fn free_number(alloc: Global, lines: &[Line]) -> Result<u32, AllocError>
    requires { length lines.now < 2 ^ 31 }
    ensures number { IfOk result (IsJogNumber lines.now) }
    ensures within { IfOk result (λ number. number ≤ length lines.now) }
{
    let mut taken = vec![in alloc; false; lines.len() + 1]?;
    for line in lines {
        if let Some(name) = name_of(&line.form) {
            mark(alloc, name, &mut taken)?;
        }
    }
    Ok(first_unmarked(&taken) as u32)
}
