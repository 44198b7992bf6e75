// Lists of descriptions laid end to end: how long the first one is, and how many there are. A list is cut on the
// stored block numbers, before any block is checked.
//
// The contracts cite specs/Parts. What cutting means is proved in proofs/: that a part ends at the first later whole block with number 1,
// that the parts in a row are the list again, and that the part at an index begins where its offset says.
#![tactic(auto)]

mod parts;

pub use parts::{Parts, part_length, parts_in};
