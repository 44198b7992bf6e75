// The tables of the places of a description.
ghost use Rattle.std.specs.Prelude.{◌≡◌, ◌<◌, ◌≤◌, ℕ, get_or, length, replicate, IfOk, IfErr};
ghost use Rattle.blocks.specs.Entries.{entries_of, nth, zero_entry};
ghost use Rattle.blocks.specs.Promise.{Legal};
ghost use Rattle.blocks.specs.Reading.{reading_of};
ghost use Rattle.blocks.specs.code.Blockwise.{Whole};
ghost use Rattle.blocks.specs.declared.Schema.{Schema};
ghost use Rattle.places.specs.Owned.{with_room};
ghost use Rattle.places.specs.code.Chained.{Filled};

use blocks::{Cause, Entry, Refusal, Schema, entries_in_order};

/// What `Places` keeps of a description of fewer than N entries, 12 bytes for each: there is no heap, so that the tables stand where a caller has
/// room. Small ones are sooner made.
#[derive(Drop)]
pub struct PlaceTables<const N: usize> {
    // The entries by number; that of 0 is the entry of zero bytes.
    pub(crate) entries: [Entry; N],
    // The first entry of each place, and after each entry the next one of its place; 0 where there is none.
    pub(crate) first: [u16; N],
    pub(crate) next: [u16; N],
}

impl<const N: usize> PlaceTables<N> {
    /// Tables of no description.
    pub fn new() -> Self
        ensures { (result.entries ≡ replicate N zero_entry) × (result.first ≡ replicate N 0) × (result.next ≡ replicate N 0) }
    {
        PlaceTables {
            entries: [Entry::default(); N],
            first: [0; N],
            next: [0; N],
        }
    }

    // Reads a description as input number `input`, and takes its places: how many entries it has. Where it is refused the tables stay as they are.
    pub(crate) fn read(&mut self, d: &[u8], input: u16) -> Result<usize, Refusal>
        ensures reading { result ≡ with_room N (reading_of Schema.Description input d.now) }
        ensures accepted { IfOk (with_room N (reading_of Schema.Description input d.now))
            (λ n. Filled (entries_of d.now) self.new.entries self.new.first self.new.next) }
        ensures refused { IfErr (with_room N (reading_of Schema.Description input d.now))
            (λ x. (self.new.entries ≡ self.old.entries) × (self.new.first ≡ self.old.first) × (self.new.next ≡ self.old.next)) }
    {
        let total = usize::from(reading::read(d, Schema::Description, input)?);
        if N <= total {
            return Err(Refusal {
                cause: Cause::Room,
                input: 0,
                place: 0,
            });
        }
        fill(d, total, &mut self.entries, &mut self.first, &mut self.next);
        Ok(total)
    }
}

// Puts the entries into a table by number, behind the entry of zero bytes, and none into any place.
fn enter(d: &[u8], total: usize, entries: &mut [Entry], first: &mut [u16])
    requires { (total ≡ length (entries_of d.now)) × (total ≤ 1008) × Whole d.now total
        × (total < length entries.old) × (total < length first.old) }
    ensures numbered { (k : ℕ) → k ≤ total → get_or entries.new k zero_entry ≡ nth (entries_of d.now) k }
    ensures empty { (k : ℕ) → k ≤ total → get_or first.new k 0 ≡ 0 }
{
    entries[0] = Entry::default();
    first[0] = 0;
    for (before, bytes) in entries_in_order(d, total).enumerate() {
        entries[before + 1] = Entry::from(bytes);
        first[before + 1] = 0;
    }
}

// Fills the tables. Places are filled from the last entry to the first: each entry goes in front of those of its place that are there.
pub(crate) fn fill(
    d: &[u8],
    total: usize,
    entries: &mut [Entry],
    first: &mut [u16],
    next: &mut [u16],
)
    requires { (total ≡ length (entries_of d.now)) × (total ≤ 1008) × Whole d.now total × Legal Schema.Description (entries_of d.now)
        × (total < length entries.old) × (total < length first.old) × (total < length next.old) }
    ensures { Filled (entries_of d.now) entries.new first.new next.new }
{
    enter(d, total, entries, first);
    next[0] = 0;
    for n in (1..=total).rev() {
        let o = usize::from(entries[n].owner);
        next[n] = first[o];
        first[o] = n as u16;
    }
}
