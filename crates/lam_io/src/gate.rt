// Where the shares of work that is split among threads arrive.

/// Is told where a share of split work begins. It answers nothing, and no answer depends on it: a test can see by it
/// that shares run beside each other.
pub trait Gate: Sync {
    /// The share with this number begins.
    fn arrive(&self, share: u32);
}

/// A gate that does nothing.
#[derive(Clone, Copy)]
pub struct OpenGate;

impl Gate for OpenGate {
    fn arrive(&self, _share: u32) {}
}
