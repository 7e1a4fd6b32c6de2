//! Tests of the top call, whole, with shelves and sinks in memory.
#![tactic(auto)]

#[cfg(test)]
mod tests;
