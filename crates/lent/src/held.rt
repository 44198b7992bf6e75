// The entries of an input, read by number straight from the lent blocks: a small struct holds the input and its total.
//
// `entry_held` has plain parameters, and serves callers that keep no struct.
ghost use Rattle.std.specs.Prelude.{◌≡◌};
ghost use Rattle.blocks.specs.Entries.{entry_of};
ghost use Rattle.blocks.specs.Reading.{total_read};

use blocks::{Entry, Schema, nth_entry};
use reading::read;

// An input, lent, and how many entries it has. Only `entries_of` and `entry_held` make one.
#[derive(Clone, Copy)]
pub struct Entries<'a> {
    blocks: &'a [u8],
    total: usize,
}

// How many entries an input has, read as a description or a specimen: its total where it is accepted. A refused input has none: 0 is their
// number, and no mark.
pub fn total_read(s: &[u8], schema: Schema) -> usize
    ensures { result ≡ total_read schema s.now }
{
    read(s, schema, 1).map_or(0, usize::from)
}

// The entries of an input, read as a description or a specimen: the input itself, and its total where it is accepted. A refused
// input has no entries.
pub fn entries_of<'a>(s: &'a [u8], schema: Schema) -> Entries<'a>
    ensures { (result.blocks ≡ s.entry) × (result.total ≡ total_read schema s.now) }
{
    Entries {
        blocks: s,
        total: total_read(s, schema),
    }
}

impl<'a> Entries<'a> {
    // How many entries there are.
    pub fn total(self) -> usize
        ensures { result ≡ self.entry.total }
    {
        self.total
    }

    // The entry of a number, counted from 1, as `nth_entry` reads it: the zero entry for 0 and above the total.
    pub fn get(self, number: usize) -> Entry
        ensures { result ≡ entry_of self.entry.blocks.now self.entry.total number }
    {
        nth_entry(self.blocks, self.total, number)
    }
}

// The entry of a number, counted from 1, of an input whose total is known: the zero entry for 0 and above the total. Nothing is read but
// the entry.
pub fn entry_held(s: &[u8], total: usize, number: usize) -> Entry
    ensures { result ≡ entry_of s.now total number }
{
    Entries { blocks: s, total }.get(number)
}
