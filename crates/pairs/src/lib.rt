// Pairs: properties that exclude each other. A list of them is read, or refused by number 11, and indexed, so that those which exclude a
// property are found by walking along a chain.
//
// The contracts cite specs/Pairs, which also defines the background that a list stands for. That an accepted list gives a lawful
// one, and which records keep it, is proved in proofs/.
#![tactic(auto)]

mod exclusions;
mod index;
mod list;
mod reader;
mod sides;

pub use exclusions::{Excluders, Exclusions};
pub use index::INDEX_BYTES;
pub use reader::read_pairs;
pub use sides::Sides;
