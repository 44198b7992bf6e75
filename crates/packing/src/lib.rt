// The number of 64 bits that stands for an answer, for C and Rust: four fields in one number.
//
// The contracts cite specs/Packing, which has the table of these numbers.
#![tactic(auto)]

mod packing;

pub use packing::{pack_comparison, pack_counted, pack_fit, pack_lack, pack_reading};
