// A drafting desk in memory that is lent: what is asked of it, and its counters. What it holds, what each call answers and leaves, byte by byte,
// which desks lists of calls give, and that going back to a stand yields the description that was held when its name was last given: see specs/
// and proofs/. There is no code here: the calls are those of `desk`.
#![tactic(auto)]

use blocks::Entry;

/// What is asked of a desk.
#[derive(Clone, Copy)]
pub enum Call {
    /// To put an entry at the end (O2).
    Add(Entry),
    /// To take off the last entry (O3).
    TakeOff,
    /// To keep what is held under a number (O4).
    Name(u16),
    /// To go back to what is kept under a number (O5).
    GoBack(u16),
    /// To keep it no more (O6).
    Drop(u16),
}

/// The counters of a desk (O10): how many entries its description has, how many stands there are, and of each stand its number and its entries.
/// Those of stands that are not there are 0. The memory that goes with them has five areas of 8,064 bytes, 40,320 in all: the description's, and
/// then one for each stand, in each as many entries of 8 bytes as its counter says. Other bytes are no part of the desk.
#[derive(Clone, Copy)]
pub struct Desk {
    pub count: u16,
    pub stands: u16,
    pub names: [u16; 4],
    pub counts: [u16; 4],
}
