//! The checks on places and sizes.
ghost use Rattle.std.specs.Prelude.{◌≡◌};
ghost use Rattle.checked_cells.specs.{Checks.{layer_of, is_place, is_even_size, sized, is_channel}, Lines.axis_where};

use cell_model::Axis2;
use rule_table::{Layer, Tech};
use stick_text::{Layer as DrawnLayer, StickKind};

/// The technology's layer that a stick text names.
pub fn layer_of(drawn: DrawnLayer) -> Layer
    ensures { result ≡ layer_of drawn }
{
    match drawn {
        DrawnLayer::Diffusion => Layer::Diffusion,
        DrawnLayer::Poly => Layer::Poly,
        DrawnLayer::Metal => Layer::Metal,
    }
}

/// The axis that runs up where it is vertical, and else across.
pub fn axis_where(vertical: bool) -> Axis2
    ensures { result ≡ axis_where vertical }
{
    if vertical { Axis2::Up } else { Axis2::Across }
}

/// The greatest column, row or place.
pub const MOST_PLACE: u32 = 4095;

/// The greatest width or size, in u.
pub const MOST_SIZE: u32 = 4096;

/// Whether a column, a row or a place is not too far out.
pub fn is_place(n: u32) -> bool
    ensures { result ≡ is_place n }
{
    n <= MOST_PLACE
}

/// Whether a size, in u, is even and not too large.
pub fn is_even_size(n: u32) -> bool
    ensures { result ≡ is_even_size n }
{
    n % 2 == 0 && n <= MOST_SIZE
}

/// The width that is given, in u, which is to be even, not 0, not too large and no less than the layer's; or else the
/// layer's. It is refused as `BadSize` or `NarrowWire`.
#[tactic(auto, unfolding(crate::specs::Checks::sized))]
pub fn sized(tech: &Tech, layer: Layer, width: Option<u32>) -> Result<i64, StickKind>
    ensures { result ≡ sized tech.now layer width }
{
    match width {
        None => Ok(tech.width(layer)),
        Some(given) => {
            if !is_even_size(given) || given == 0 {
                return Err(StickKind::BadSize);
            }
            let wide = i64::from(given);
            if wide < tech.width(layer) {
                return Err(StickKind::NarrowWire);
            }
            Ok(wide)
        }
    }
}

/// Whether the sizes of a transistor, in u, are even, not too large, and no less than the widths of diffusion and poly.
pub fn is_channel(tech: &Tech, w: u32, l: u32) -> bool
    ensures { result ≡ is_channel tech.now w l }
{
    is_even_size(w)
        && is_even_size(l)
        && tech.width(Layer::Diffusion) <= i64::from(w)
        && tech.width(Layer::Poly) <= i64::from(l)
}
