// The writer: packed entries are written as blocks from the start of an output, or nothing is written where they do not fit.
//
// The contracts cite Encoding of `blocks`. That reading undoes writing is proved in `blocks`.
#![tactic(auto)]

mod writer;

pub use writer::{bytes_for, write_entries, write_stored};
