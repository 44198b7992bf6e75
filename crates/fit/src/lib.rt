// Fitting: when the top item of a specimen fits a description, in the specimen's record [F11].
//
// The contract of `fit` speaks of the record of items that a specimen is, of the tree of places that a description
// is, and of fitting itself: Specimen and Description of `meaning`, and Record of `logic`. That the answer by groups,
// which the code works out, is the record's is proved in proofs/.
#![tactic(auto)]

mod answer;
mod bare;
mod chain;
mod entries;
mod groups;
mod index;
mod judge;
mod places;
mod tables;
mod totals;

pub use answer::{fit, fit_counted};
use blocks::Refusal;

// The fit answer, yes or no, or the refusal, with the number of additions of items in making the table of totals and in the walk over entries.
#[derive(Clone, Copy)]
pub struct Counted {
    pub answer: Result<bool, Refusal>,
    pub table: u16,
    pub walk: u16,
}
