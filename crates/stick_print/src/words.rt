//! The words of a line.
ghost use Rattle.std.specs.{Prelude.{◌≡◌, if◌then◌else◌, ◌++◌, ◌∷◌, [], decimal, OnOk}, Fmt.signed_decimal};
ghost use Rattle.stick_print.specs.Canonical.{layer_word, side_word, width_words, name_words, spaced};

use lam_geom::Side;
use std::alloc::AllocError;
use stick_lex::{Text, push_decimal, push_signed_decimal};
use stick_text::Layer;

pub fn layer_word(layer: Layer) -> &'static [u8]
    ensures { result.now ≡ layer_word layer }
{
    match layer {
        Layer::Diffusion => b"diff",
        Layer::Poly => b"poly",
        Layer::Metal => b"metal",
    }
}

pub fn side_word(side: Side) -> &'static [u8]
    ensures { result.now ≡ side_word side }
{
    match side {
        Side::Left => b"left",
        Side::Right => b"right",
        Side::Bottom => b"bottom",
        Side::Top => b"top",
    }
}

/// One of two words.
pub fn either_word(first: &'static [u8], second: &'static [u8], is_second: bool) -> &'static [u8]
    ensures { result.now ≡ if is_second then second.now else first.now }
{
    if is_second { second } else { first }
}

/// Adds a space and a word.
pub fn put_word(out: &mut Vec<u8>, word: &[u8]) -> Result<(), AllocError>
    ensures { OnOk result (out.new.items ≡ out.old.items ++ 32 ∷ word.now) }
{
    out.push(b' ')?;
    out.extend_from_slice(word)?;
    Ok(())
}

/// Adds a space and a number.
pub fn put_number(out: &mut Vec<u8>, n: i64) -> Result<(), AllocError>
    ensures { OnOk result (out.new.items ≡ out.old.items ++ 32 ∷ signed_decimal n) }
{
    out.push(b' ')?;
    push_signed_decimal(out, n)
}

/// Adds a space and a number that is not negative.
pub fn put_count(out: &mut Vec<u8>, n: u32) -> Result<(), AllocError>
    ensures { OnOk result (out.new.items ≡ out.old.items ++ 32 ∷ decimal n) }
{
    out.push(b' ')?;
    push_decimal(out, u64::from(n))
}

/// Adds a width where there is one.
pub fn put_width(out: &mut Vec<u8>, width: Option<u32>) -> Result<(), AllocError>
    ensures { OnOk result (out.new.items ≡ out.old.items ++ spaced (width_words width)) }
{
    if let Some(width) = width {
        put_count(out, width)?;
    }
    Ok(())
}

/// Adds the name of a grid where it has one.
pub fn put_name(out: &mut Vec<u8>, name: &Option<Text>) -> Result<(), AllocError>
    ensures { OnOk result (out.new.items ≡ out.old.items ++ spaced (name_words name.now)) }
{
    if let Some(name) = name {
        put_word(out, name.bytes())?;
    }
    Ok(())
}

/// Adds two numbers that are not negative: a column and a row, or two sizes.
pub fn put_pair(out: &mut Vec<u8>, pair: (u32, u32)) -> Result<(), AllocError>
    ensures { OnOk result (out.new.items ≡ out.old.items ++ spaced (decimal pair.0 ∷ decimal pair.1 ∷ [])) }
{
    put_count(out, pair.0)?;
    put_count(out, pair.1)
}
