// The slots of a description: one for each place, class and name, with the bounds that all entries give together. They are built from the
// entries, in the order in which they stand, and settled from the last to the first, so that what is below a place is known before the
// place. A second call asks which entries of another description they hold; it orders nothing. A third asks it of each description of a list,
// by one set of slots, and reads each as it comes to it. A fourth asks it of each entry of another, by itself. A fifth takes the entries of the first
// from a table where they stand packed, for callers that ask of one description again and again: it reads nothing.
//
// The slots stand in a table that the caller lends, who can go on from them. All other tables are slices too, made in three sizes, for
// as many entries as a block has, as four have, and for any number, so that a short call clears no large ones.
//
// The other four begin alike: the list of pairs is read, and indexed.
//
// The contracts cite specs/: Holding and Catalogue say what is answered; the others mirror the code. What slots are, on lists, is said in `passes`.
#![tactic(auto)]

mod accepted;
mod build;
mod catalogue;
mod containment;
mod each;
mod excluding;
mod failing;
mod filling;
mod marking;
mod restrict;
mod rows;
mod service;
mod settle;
mod slots;
mod states;
mod workspace;

pub use catalogue::judge_list;
pub use containment::contained_table;
pub use each::each_failing;
pub use failing::first_failing;
pub use filling::fill;
pub use rows::{Asked, Listing};
pub use slots::{high_in, key_in, low_in};
pub use states::NOWHERE;

// The first entry of a second description that the normal form of a first does not hold, and the number of slots that stand in the table.
#[derive(Clone, Copy, Debug, PartialEq, Eq)]
pub struct Unheld {
    pub entry: u16,
    pub used: u16,
}

// How many entries a second description has, and whether the normal form of a first holds all of them.
#[derive(Clone, Copy, Debug, PartialEq, Eq)]
pub struct Judgement {
    pub entries: u16,
    pub contained: bool,
}
