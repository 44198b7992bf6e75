// The entries of a lent input, by number: a small struct holds the input and its total, and a function with plain parameters
// serves the callers that need no struct.
#![tactic(auto)]

mod held;

pub use held::{Entries, entries_of, entry_held};
