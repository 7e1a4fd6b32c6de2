use lam_list::Seq;

/// One raise of a variable's label: the variable, its new value, the number of the edge that raised it, and the number
/// of the entry that it came from, the latest one of the edge's tail.
#[derive(Clone, Copy)]
pub struct Entry {
    pub var: u32,
    pub value: i64,
    pub edge: u32,
    pub prev: u64,
}

/// The append-only log of the rounds: entry 0 stands for the origin, each later one for a raise, and `last` has the
/// number of each variable's latest entry, or 0.
#[derive(Drop)]
pub struct Log {
    pub entries: Seq<Entry>,
    pub last: Seq<u64>,
}
