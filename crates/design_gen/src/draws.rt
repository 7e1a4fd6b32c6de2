//! What is drawn for each point.
ghost use Rattle.std.specs.Prelude.{◌≡◌, ◌^◌, ◌<◌, ◌≤◌, map, IfOk};
ghost use Rattle.design_gen.specs.Draws.{next_number, stand_of, point_of, point_at, points};

use std::alloc::{AllocError, Global};

/// What stands at a point.
#[derive(Clone, Copy)]
pub enum Stand {
    Nothing,
    /// A joint of metal.
    Metal,
    /// A joint of poly.
    Poly,
    /// A contact of metal to diffusion.
    Contact,
}

/// What is drawn for a point: what stands there, and whether a wire joins it to its left neighbour where both are metal
/// joints.
#[derive(Clone, Copy)]
pub struct Point {
    pub stand: Stand,
    pub is_joined: bool,
}

// The number after this one in the linear congruence.
fn next_number(number: u32) -> u32
    requires { number < 2 ^ 31 }
    ensures { result ≡ next_number number }
{
    ((u64::from(number) * 1_103_515_245 + 12_345) % (1 << 31)) as u32
}

fn stand_of(draw: u32) -> Stand
    ensures { result ≡ stand_of draw }
{
    match draw % 4 {
        0 => Stand::Nothing,
        1 => Stand::Metal,
        2 => Stand::Poly,
        _ => Stand::Contact,
    }
}

fn point_of(draw: u32) -> Point
    ensures { result ≡ point_of draw }
{
    Point {
        stand: stand_of(draw),
        is_joined: draw >= 4,
    }
}

/// What is drawn for each point of a square of `n` columns and rows, row by row.
pub fn draw_points(alloc: Global, n: u32) -> Result<Vec<Point>, AllocError>
    requires { n ≤ 64 }
    ensures { IfOk result (λ drawn. drawn.items ≡ map (point_at n) (points n)) }
{
    let mut drawn = Vec::new(alloc);
    let mut number = n;
    for _k in 0..n * n {
        number = next_number(number);
        drawn.push(point_of(number / 65_536 % 8))?;
    }
    Ok(drawn)
}
