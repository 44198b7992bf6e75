// Clashes: a specimen read under a list of pairs of properties that exclude each other. Number 11 refuses the list, numbers 1 to 9 the
// specimen by itself, and number 12 a specimen with an item that has both of a pair.
//
// The contract cites specs/Clash. That a specimen which is not refused is one whose record keeps the list is proved in proofs/.
#![tactic(auto)]

mod clash;
mod reader;
mod sound;

pub use reader::read_specimen;
pub use sound::SoundBlocks;
