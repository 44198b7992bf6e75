// The shorter stored form: the entries of a description in walking order, each with its depth in place of its owner,
// 6 bytes for each; written from a description, and read back into one.
//
// The contracts cite specs/: Stored has the entries and their bytes, Walking the order and the lines by which a stored
// input is refused, Answer what the two calls answer and write. That one call undoes the other is proved in proofs/.
#![tactic(auto)]

mod entries;
mod restoring;
mod rules;
mod storing;

pub use restoring::from_stored;
pub use storing::to_stored;

/// An entry of the stored form: with its depth in place of its owner.
#[derive(Clone, Copy)]
pub struct StoredEntry {
    /// The byte as it stands, before any check; `kinds` of `blocks` has its names.
    pub kind: u8,
    /// How many owners it has above it.
    pub depth: u8,
    /// The number of a property, a link, or none.
    pub name: u16,
    /// How many items, where the kind has a number.
    pub number: u16,
}
