// What `edit` does once its files are read: it adds limits to the cells of a design and drops them, as a script says,
// and lays the design out after each line. Its contract for the layer above is that of `edit`.
#![tactic(auto)]

pub mod edit;
mod least;

pub use least::Started;
