// Reading an input: its number of entries, or the refusal by the first number of the table of refusals that applies. Number 1 goes by the length,
// numbers 2 and 3 by the frames of the blocks, numbers 4 to 6, 9 of specimens and 13 of names, by the entries. `read_blocks` stops before the
// entries, for callers that go over them once for the rules and for more; `entry_refusal` is the rule of one entry.
//
// The contracts cite Frame, Faults and Reading of `blocks`; what those definitions mean together is proved there.
#![tactic(auto)]

mod frame;
mod reader;
mod rules;
mod single;

pub use reader::{read, read_blocks, read_description, read_specimen, read_stored_blocks};
pub use rules::{entry_refusal, level_under, owner_level};
