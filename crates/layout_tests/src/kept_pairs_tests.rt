//! What the scans find among many items, and the first clash of few.

mod boxed;
mod many;
mod rows;
