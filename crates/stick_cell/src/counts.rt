//! How many items and mask boxes nodes and wires have.
ghost use Rattle.std.specs.Prelude.{◌≡◌, ◌+◌};
ghost use Rattle.cell_model.specs.Counts.{layer_items, kind_items, kind_boxes};
ghost use Rattle.checked_cells.specs.Counts.{capped};

use cell_model::NodeKind;
use rule_table::Layer;

/// What counts as too many: one more than the greatest number of items that a cell may have.
pub const TOO_MANY: u32 = 65537;

/// The sum of two counts, or 65,537 where it is more than 65,536.
pub fn capped_sum(a: u32, b: u32) -> u32
    ensures { result ≡ capped (a + b) }
{
    a.saturating_add(b).min(TOO_MANY)
}

/// How many items a piece of the layer has.
pub fn layer_items(layer: Layer) -> u32
    ensures { result ≡ layer_items layer }
{
    match layer {
        Layer::Diffusion => 2,
        Layer::Poly | Layer::Metal => 1,
    }
}

/// How many items a node of this kind has.
pub fn kind_items(kind: NodeKind) -> u32
    ensures { result ≡ kind_items kind }
{
    match kind {
        NodeKind::Joint { layer, .. } => layer_items(layer),
        NodeKind::Contact { lower } => 2 + layer_items(lower),
        NodeKind::Buried => 4,
        NodeKind::Fet { depletion, .. } => 5 + u32::from(depletion),
    }
}

/// How many mask boxes a node of this kind has.
pub fn kind_boxes(kind: NodeKind) -> u32
    ensures { result ≡ kind_boxes kind }
{
    match kind {
        NodeKind::Joint { .. } => 1,
        NodeKind::Contact { .. } | NodeKind::Buried => 3,
        NodeKind::Fet { depletion, .. } => 2 + u32::from(depletion),
    }
}
