// What `bench` does: it makes a design, lays it out, and tells of it in a line. Its contract for the layer above is
// that of `bench`.
#![tactic(auto)]

pub mod bench;
