//! Tests of calls on layouts that no command makes: how fast a session of edits follows, the pairs of a layout, and
//! kept pairs and first clashes among many items. There is no other code.
#![tactic(auto)]

#[cfg(test)]
mod edit_session_tests;
#[cfg(test)]
mod kept_pairs_tests;
#[cfg(test)]
mod pair_rules_tests;
