// How long an interrupted call of the operating system is tried.

/// How often a read, a write or a flush that a signal interrupts is tried before it counts as
/// failed. An interruption that a later try makes good is no fault.
pub(crate) const MOST_TRIES: u32 = 1000;
