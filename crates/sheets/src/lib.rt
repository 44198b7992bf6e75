// Field sheets: descriptions of a small profile, read, or refused by the first number of the table of refusals that
// applies: those of any description, and 19 at an entry that is outside the profile. It is the pass of `reading` over
// the levels of entries, with a test more.
//
// The contracts cite specs/Sheet; what that means beside the reading of any description is proved here.
#![tactic(auto)]

mod profile;
mod reader;

pub use reader::read_sheet;
