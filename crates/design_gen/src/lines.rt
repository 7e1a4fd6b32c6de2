//! The lines of the cell: one for each node, then one for each wire.
ghost use Rattle.std.specs.Prelude.{◌≡◌, ◌*◌, ◌/◌, ◌%◌, ◌^◌, ◌<◌, ◌≤◌, ◌++◌, map, vec_len, IfOk, OnOk};
ghost use Rattle.std.specs.List.{filter_map, zip, range_with_len};
ghost use Rattle.stick_text.specs.declared.design.Layer.TheVariants as layers;
ghost use Rattle.stick_text.specs.declared.design.Form.TheVariants as forms;
ghost use Rattle.design_gen.specs.Draws.{point_at, points};
ghost use Rattle.design_gen.specs.Made.{name_at, node_of, node_at, is_metal, are_joined, wire_at, lines_from};

use crate::draws::{Point, Stand};
use lam_list::Seq;
use std::alloc::{AllocError, Global};
use stick_lex::{Text, push_decimal};
use stick_text::{Form, Layer, Line};

// The name of point `k` of a square of `n` columns.
fn name_at(alloc: Global, n: u32, k: u32) -> Result<Text, AllocError>
    requires { 0 < n }
    ensures { IfOk result (λ name. name ≡ name_at n k) }
{
    let mut name = Vec::from_slice(alloc, b"n")?;
    push_decimal(&mut name, u64::from(k % n))?;
    name.push(b'_')?;
    push_decimal(&mut name, u64::from(k / n))?;
    Text::new(alloc, name.as_slice())
}

fn joint_at(alloc: Global, n: u32, k: u32, layer: Layer) -> Result<Form, AllocError>
    requires { 0 < n }
    ensures { IfOk result (λ form. form ≡ forms.Joint (name_at n k) layer (k % n) (k / n) None) }
{
    let name = name_at(alloc, n, k)?;
    Ok(Form::Joint {
        name,
        layer,
        col: k % n,
        row: k / n,
        width: None,
    })
}

fn contact_at(alloc: Global, n: u32, k: u32, lower: Layer) -> Result<Form, AllocError>
    requires { 0 < n }
    ensures { IfOk result (λ form. form ≡ forms.Contact (name_at n k) lower (k % n) (k / n)) }
{
    let name = name_at(alloc, n, k)?;
    Ok(Form::Contact {
        name,
        lower,
        col: k % n,
        row: k / n,
    })
}

// The node at point `k`, if one stands there.
fn node_of(alloc: Global, n: u32, k: u32, stand: Stand) -> Result<Option<Form>, AllocError>
    requires { 0 < n }
    ensures { IfOk result (λ node. node ≡ node_of stand (name_at n k) (k % n) (k / n)) }
{
    let form = match stand {
        Stand::Nothing => return Ok(None),
        Stand::Metal => joint_at(alloc, n, k, Layer::Metal)?,
        Stand::Poly => joint_at(alloc, n, k, Layer::Poly)?,
        Stand::Contact => contact_at(alloc, n, k, Layer::Diffusion)?,
    };
    Ok(Some(form))
}

fn is_metal(point: &Point) -> bool
    ensures { result ≡ is_metal point.now.stand }
{
    matches!(point.stand, Stand::Metal)
}

// Both are metal joints, and the right one is to be joined to the left one.
fn are_joined(left: &Point, right: &Point) -> bool
    ensures { result ≡ are_joined left.now right.now }
{
    is_metal(left) && is_metal(right) && right.is_joined
}

// The wire from the left neighbour of point `k` to it, if there is one.
fn wire_at(alloc: Global, n: u32, k: u32, drawn: &[Point]) -> Result<Option<Form>, AllocError>
    requires some { 0 < n }
    requires drawn { drawn.now ≡ map (point_at n) (points n) }
    requires within { k < n * n }
    ensures { IfOk result (λ wire. wire ≡ wire_at n k) }
{
    if k % n == 0 || !are_joined(&drawn[k as usize - 1], &drawn[k as usize]) {
        return Ok(None);
    }
    let a = name_at(alloc, n, k - 1)?;
    let b = name_at(alloc, n, k)?;
    Ok(Some(Form::Wire {
        layer: Layer::Metal,
        a,
        b,
        width: None,
    }))
}

/// Adds the nodes, point by point.
pub fn push_nodes(
    alloc: Global,
    forms: &mut Vec<Form>,
    n: u32,
    drawn: &[Point],
) -> Result<(), AllocError>
    requires some { 0 < n }
    requires few { n ≤ 64 }
    requires drawn { drawn.now ≡ map (point_at n) (points n) }
    ensures { OnOk result (forms.new.items ≡ forms.old.items ++ filter_map (node_at n) (points n)) }
{
    for k in 0..n * n {
        if let Some(node) = node_of(alloc, n, k, drawn[k as usize].stand)? {
            forms.push(node)?;
        }
    }
    Ok(())
}

/// Adds the wires, point by point.
pub fn push_wires(
    alloc: Global,
    forms: &mut Vec<Form>,
    n: u32,
    drawn: &[Point],
) -> Result<(), AllocError>
    requires some { 0 < n }
    requires few { n ≤ 64 }
    requires drawn { drawn.now ≡ map (point_at n) (points n) }
    ensures { OnOk result (forms.new.items ≡ forms.old.items ++ filter_map (wire_at n) (points n)) }
{
    for k in 0..n * n {
        if let Some(wire) = wire_at(alloc, n, k, drawn)? {
            forms.push(wire)?;
        }
    }
    Ok(())
}

// The forms on lines that follow one another, from line 3 on.
fn lines_of(alloc: Global, forms: Vec<Form>) -> Result<Vec<Line>, AllocError>
    requires { vec_len forms ≤ 2 ^ 20 }
    ensures { IfOk result
        (λ lines. lines.items ≡ map (λ pair. record { number = pair.0; form = pair.1 })
        (zip (range_with_len 3 (vec_len forms)) forms.items)) }
{
    let last = 3 + forms.len() as u32;
    (3..last)
        .zip(forms)
        .map(|(number, form)| Line { number, form })
        .collect(alloc)
}

/// The forms on lines that follow one another, from line 3 on.
pub fn number_lines(alloc: Global, forms: Vec<Form>) -> Result<Seq<Line>, AllocError>
    requires { vec_len forms ≤ 2 ^ 20 }
    ensures { IfOk result (λ lines. lines ≡ lines_from 3 forms.items) }
{
    let lines = lines_of(alloc, forms)?;
    Ok(Seq::from_vec(lines))
}
