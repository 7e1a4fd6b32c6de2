// What `jog` does once its files are read: it bends the wires that a script names, one after the other, and lays the
// design out after each. Its contract for the layer above is that of `jog`.
#![tactic(auto)]

pub mod jog;
