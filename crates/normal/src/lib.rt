// The normal form of a description: its slots, which `slots` builds and settles and `runs` puts on chains, are put in order and written place
// by place.
//
// The layers above use of it what the contracts state, and nothing else [K3]. The contracts cite specs/: Answer says
// what is answered and written; the others mirror the code, and no public promise names them. What a normal form is,
// that the same items fit it and that there is only one, is said and proved in `logic`; the same of lists of entries,
// and that no rule applies, in `meaning`; that the passes give it in `passes`.
#![tactic(auto)]

mod emit;
mod ordering;
mod output;
mod settled;
mod tables;
mod walk;

pub use output::{form_rows, normalise};
pub use settled::Workspace;
