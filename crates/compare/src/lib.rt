// The comparison of two descriptions, and the specimen that shows where the first is not contained in the second. Which entries of the
// second hold is asked of the layer of the normal form, which leaves the slots of the first behind; where one fails, the specimen is written
// place by place from these slots, with what the path to the failing entry asks for. Nothing is read or slotted twice.
//
// The contracts cite specs/: Answer says what is answered and written; the others mirror the code, and no public promise names them. What the
// specimen is, and what the answer for two lists of entries means in every finite record, is said and proved in `meaning`: SpecimenFor,
// Failing, Contained, NotContained. The same of two inputs is in proofs/PromiseKept.antt.
#![tactic(auto)]

mod asked;
mod items;
mod path;
mod places;
mod rows;
mod settled;
mod specimen;
mod verdict;

pub use verdict::compare;

// What is said where the first is not contained: the number of the first entry of the second description that fails, and the number of
// entries of the specimen that shows it.
#[derive(Clone, Copy, Debug, PartialEq, Eq)]
pub struct NotContained {
    pub entry: u16,
    pub entries: u16,
}
