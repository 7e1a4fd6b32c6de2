//! What holds of all netlists.
ghost use Rattle.net_model.specs.Laws.{IsNetlistDetermined, IsExtractionDetermined};

/// A law, with nothing to run: pieces, of which it is told where they stand and which are of one net, have only one
/// netlist with these crossings as its devices. So it is with the pieces of boxes and chains of their links.
pub fn netlist_is_determined()
    ensures by_classes { IsNetlistDetermined }
    ensures by_links { IsExtractionDetermined }
{}
