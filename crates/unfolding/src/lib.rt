// Unfolding: descriptions that name others of a dictionary are read, or refused, and written as the plain descriptions that they stand for.
//
// A dictionary is read once for all inputs, into tables that a caller lends, each description in two passes over its bytes: one for its blocks, by
// `reading`, and one over its entries, which tells whether the rules allow them, how many they are once unfolded and how deep they stand. The tables
// keep where each begins, its size and its levels. So 14 is told without unfolding anything. A description is then unfolded from its first entry to
// its last: what a name stands for is put in where it comes first, and copied from there where it comes again, so that each description of the
// dictionary is read once at most. One that names others is opened for that, behind those that are open already: names go to earlier descriptions
// only, so that all that are open at once are few. So the time grows with what is read and with what is written, however names are nested.
//
// The contracts cite `names` (NamedReading) and specs/Answer. What unfolding means is proved in `names`.
#![tactic(auto)]

mod calls;
mod contents;
mod dictionary;
mod measure;
mod replace;
mod rows;
mod tables;

pub use calls::{unfold, unfold_both, unfold_into};
pub use dictionary::Dictionary;
pub use rows::entry_of_row;
pub use tables::Tables;

// What the entries of a description come to: how many they are once unfolded, and on how many levels these stand. They are not yet held against
// the limits, so that the numbers are wider than those of Measured.
#[derive(Clone, Copy)]
struct Extent {
    size: usize,
    levels: usize,
}

// A description that is read under a dictionary: how many entries it has, how many once unfolded, and on how many levels these stand.
#[derive(Clone, Copy)]
struct Measured {
    total: u16,
    size: u16,
    levels: u8,
}
