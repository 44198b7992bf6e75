// The entries of each place of a description, found one after another by tables that a caller lends.
#![tactic(auto)]

mod places;
mod tables;

pub use places::Places;
pub use tables::PlaceTables;
