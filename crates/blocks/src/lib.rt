// Blocks: the laboratory's own format. Words and entries are read by number, straight from the lent blocks. Nothing here
// knows what an entry says of an item.
//
// Where a number is narrowed with `as`, here and in the crates above, a goal shows that it fits: `try_from` would add a branch that is never taken.
//
// The contracts cite specs/: Words, Frame, Entries, Owners, Faults, Reading and Encoding. What those definitions mean together,
// as that reading undoes writing, is proved in proofs/.
#![tactic(auto)]

mod causes;
mod entries;
mod in_order;
pub mod kinds;
pub mod sizes;
mod words;

pub use entries::{nth_entry, pack};
pub use in_order::{InOrder, entries_in_order};
pub use words::{block_check, block_second, byte, word, word_of_bytes};

// A property's number. Properties and links are numbered apart [E6], so each has a type of its own.
#[derive(Clone, Copy, PartialEq, Eq)]
pub struct Property(pub u16);

// A link's number: a role of the description logic.
#[derive(Clone, Copy, PartialEq, Eq)]
pub struct Link(pub u16);

// An entry as it stands in a block; `reserved` is the byte that is always zero in an accepted input.
#[derive(Clone, Copy, Default)]
pub struct Entry {
    // The byte as it stands, before any check; `kinds` has its names. An enum would need a variant more for every other byte, and the format, packed
    // entries and hashes go by the number.
    pub kind: u8,
    pub reserved: u8,
    pub owner: u16,
    pub name: u16,
    pub number: u16,
}

// Which table of kinds, and which limit of length, an input is read by. A named description is one that may name the descriptions of a
// dictionary, those up to a number.
#[derive(Clone, Copy)]
pub enum Schema {
    Description,
    Specimen,
    Named(u16),
}

// Why a call is refused: the table of refusals, whose numbers `number` gives.
#[derive(Clone, Copy, Debug, PartialEq, Eq)]
pub enum Cause {
    // The input's length.
    Length,
    // A block's check.
    Check,
    // A block's number, its used count, or a byte that is due to be zero.
    Framing,
    // An entry's kind, its second byte, or a name or number outside the table of kinds.
    Form,
    // An owner that is not earlier, or may not own.
    Owner,
    // A depth over 32.
    Depth,
    // An output that is too short.
    Room,
    // More than 64 services, or descriptions of a dictionary.
    Count,
    // A second item by a link that leads to one item only.
    Double,
    // The number of an item of a record, or how many items it has.
    Item,
    // The list of pairs.
    Pairs,
    // An item that has both properties of a pair.
    Clash,
    // A name of no description of the dictionary, or of none earlier.
    Name,
    // A description that is too large once it is unfolded.
    Size,
    // A stored entry that stands where no 'every' owns it.
    Walking,
    // An entry more than a desk holds.
    Full,
    // No entry to take off a desk.
    Empty,
    // The number of a desk's stand.
    Stand,
    // An entry outside the field-sheet profile.
    Profile,
    // A desk that its calls do not give, or too little memory for it.
    Desk,
}

// A refusal: why, of which input, and at which place of it, a block or an entry counted from 1, or 0.
#[derive(Clone, Copy, Debug, PartialEq, Eq)]
pub struct Refusal {
    pub cause: Cause,
    pub input: u16,
    pub place: u16,
}
