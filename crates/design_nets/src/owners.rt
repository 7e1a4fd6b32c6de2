//! A net of an instance.

/// A net of an instance: the instance's number, and that of the net among those of its master.
#[derive(Clone, Copy)]
pub struct OwnNet {
    pub instance: usize,
    pub net: u32,
}
