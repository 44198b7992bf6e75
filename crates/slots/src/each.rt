// Which entries of a second description the normal form of a first does not hold: the pass of `first_failing_entry` that goes on to the end, and
// stores a byte for each entry. One look at the slots decides an entry, so the time grows with the number of entries.
ghost use Rattle.std.specs.Prelude.{◌≡◌, ◌≢◌, ◌+◌, ◌*◌, ◌<◌, ◌≤◌, ℕ, List, eqb, length, not};
ghost use Rattle.base.proofs.Lists.{listed};
ghost use Rattle.base.specs.Range.{bit};
ghost use Rattle.base.specs.Search.{first_from};
ghost use Rattle.base.specs.Stores.{stored};
ghost use Rattle.blocks.specs.Entries.{entries_of};
ghost use Rattle.logic.specs.Background.{Ruled};
ghost use Rattle.pairs.specs.Pairs.{pair_count, under};
ghost use Rattle.passes.specs.code.Slots.{Slot};
ghost use Rattle.slots.specs.Each.{each_after, each_of, failing_bytes};
ghost use Rattle.slots.specs.Holding.{failing_in};
ghost use Rattle.slots.specs.code.Lent.{HeldIn, IndexedIn, MarkedIn};
ghost use Rattle.slots.specs.code.States.{holds_by_slots};
ghost use Rattle.slots.specs.code.Tables.{Readable, slots_in};

use crate::Judgement;
use crate::accepted::Accepted;
use crate::excluding::Marked;
use crate::failing::Supplier;
use crate::filling::chained_slots;
use crate::slots::Slots;
use crate::states::NOWHERE;
use crate::workspace::Workspace;
use blocks::{Entry, Refusal, Schema, entries_in_order};
use pairs::{Exclusions, INDEX_BYTES, Sides};

impl<const BUCKETS: usize, const CELLS: usize> Slots<'_, BUCKETS, CELLS> {
    // Stores a byte for each of the `total` entries of a description: 1 where it fails, else 0; whether none does. An entry that fails is no 'every',
    // so that the state noted for it is never asked for.
    fn each_failing_entry(
        self,
        marked: Marked<'_>,
        d: &[u8],
        total: usize,
        states: &mut [u16],
        bytes: &mut [u8; 1008],
    ) -> bool
        requires { Readable d.now total × (total < length states.old) × MarkedIn (slots_in self.table.now self.used) marked }
        ensures { (ss : List Slot) → IndexedIn ss self.entry
            → (result ≡ eqb (first_from (holds_by_slots (under marked.entry.exclusions.pairs.now) ss (entries_of d.now)) 1 total) 0)
            × (bytes.new ≡ stored bytes.old 0 (listed (λ n. bit (not (holds_by_slots (under marked.entry.exclusions.pairs.now) ss (entries_of d.now) n))) 1 total)) }
    {
        let mut none = true;
        states[0] = 0;
        for (before, eight) in entries_in_order(d, total).enumerate() {
            let e = Entry::from(eight);
            let s = states[usize::from(e.owner)];
            let below = self.look(marked, s, e);
            states[before + 1] = below.unwrap_or(NOWHERE);
            bytes[before] = u8::from(below.is_none());
            none &= below.is_some();
        }
        none
    }
}

impl<const BUCKETS: usize, const CELLS: usize> Supplier<'_, BUCKETS, CELLS> {
    // The same by a supplier: where nothing fits it, no entry fails.
    fn each(self, d: Accepted<'_>, states: &mut [u16], bytes: &mut [u8; 1008]) -> bool
        requires { d.total < length states.old }
        ensures { (c : List ℕ) → HeldIn (under self.entry.marked.exclusions.pairs.now) c self.entry
            → (result ≡ eqb (failing_in (under self.entry.marked.exclusions.pairs.now) c d.entry.bytes.now) 0)
            × (bytes.new ≡ stored bytes.old 0 (failing_bytes (under self.entry.marked.exclusions.pairs.now) c d.entry.bytes.now)) }
    {
        if self.impossible {
            bytes[..d.total].fill(0);
            return true;
        }
        self.slots
            .each_failing_entry(self.marked, d.bytes, d.total, states, bytes)
    }
}

// Slots and settles the first description and judges each entry of the second by its slots, where both have fewer than N entries. All tables are
// its own: MARKS places are marked.
fn each_within<const N: usize, const MARKS: usize, const BUCKETS: usize, const CELLS: usize>(
    exclusions: Exclusions<'_>,
    c: Accepted<'_>,
    d: Accepted<'_>,
    bytes: &mut [u8; 1008],
) -> bool
    requires { Ruled (under exclusions.pairs.now) × (c.total < N) × (d.total < N)
        × (N ≤ 1009) × (251 ≤ BUCKETS) × (BUCKETS ≤ 4093) × (BUCKETS + 2 * N ≤ CELLS) × (CELLS ≤ 8192)
        × (MARKS ≤ 1009) × (pair_count exclusions.pairs.now ≢ 0 → c.total < MARKS) }
    ensures { (result ≡ eqb (failing_in (under exclusions.entry.pairs.now) c.entry.bytes.now d.entry.bytes.now) 0)
        × (bytes.new ≡ stored bytes.old 0 (failing_bytes (under exclusions.entry.pairs.now) c.entry.bytes.now d.entry.bytes.now)) }
{
    let mut table = [0u64; N];
    let mut cells = [0u16; CELLS];
    let mut node = [0u16; N];
    let mut bad = [0u8; N];
    let mut full = [0u8; N];
    let mut marks = [Sides::none(); MARKS];
    let cells = &mut cells;
    let marks: &mut [Sides] = &mut marks;
    let mut work = Workspace {
        cells: &mut *cells,
        node: &mut node,
        marks: &mut *marks,
        bad: &mut bad,
        full: &mut full,
    };
    let used = chained_slots::<BUCKETS, CELLS>(exclusions, c, &mut table, &mut work);
    let top = work.bad[0];
    let slots = Slots::<BUCKETS, CELLS>::of(&table, cells, used);
    let supplier = Supplier::new(Marked { exclusions, marks }, slots, top);
    let mut states = [0u16; N];
    supplier.each(d, &mut states, bytes)
}

// The same, where nothing is marked if the list has no pair.
fn each_under<const N: usize, const BUCKETS: usize, const CELLS: usize>(
    exclusions: Exclusions<'_>,
    c: Accepted<'_>,
    d: Accepted<'_>,
    bytes: &mut [u8; 1008],
) -> bool
    requires { Ruled (under exclusions.pairs.now) × (c.total < N) × (d.total < N)
        × (N ≤ 1009) × (251 ≤ BUCKETS) × (BUCKETS ≤ 4093) × (BUCKETS + 2 * N ≤ CELLS) × (CELLS ≤ 8192) }
    ensures { (result ≡ eqb (failing_in (under exclusions.entry.pairs.now) c.entry.bytes.now d.entry.bytes.now) 0)
        × (bytes.new ≡ stored bytes.old 0 (failing_bytes (under exclusions.entry.pairs.now) c.entry.bytes.now d.entry.bytes.now)) }
{
    if exclusions.is_empty() {
        return each_within::<N, 0, BUCKETS, CELLS>(exclusions, c, d, bytes);
    }
    each_within::<N, N, BUCKETS, CELLS>(exclusions, c, d, bytes)
}

// The same of any number of entries. Those of one block, and of four, take smaller tables, which are sooner cleared.
fn each_read(
    exclusions: Exclusions<'_>,
    c: Accepted<'_>,
    d: Accepted<'_>,
    bytes: &mut [u8; 1008],
) -> bool
    requires { Ruled (under exclusions.pairs.now) }
    ensures { (result ≡ eqb (failing_in (under exclusions.entry.pairs.now) c.entry.bytes.now d.entry.bytes.now) 0)
        × (bytes.new ≡ stored bytes.old 0 (failing_bytes (under exclusions.entry.pairs.now) c.entry.bytes.now d.entry.bytes.now)) }
{
    if c.total < 64 && d.total < 64 {
        return each_under::<64, 251, 379>(exclusions, c, d, bytes);
    }
    if c.total < 253 && d.total < 253 {
        return each_under::<253, 4093, 4599>(exclusions, c, d, bytes);
    }
    each_under::<1009, 4093, 6111>(exclusions, c, d, bytes)
}

/// Reads a list of pairs and two descriptions, and stores a byte for each entry of the second, from the table's first on: 1 where the normal form of
/// the first, under the list, does not hold it, else 0. Returns how many entries the second has, and whether all of them hold; or the refusal: of the
/// pairs, of the first description as input 1, of the second as input 2. Then the table stays, as do its bytes after these.
pub fn each_failing(
    pairs: &[u8],
    c: &[u8],
    d: &[u8],
    bytes: &mut [u8; 1008],
) -> Result<Judgement, Refusal>
    ensures { (result ≡ each_of pairs.now c.now d.now) × (bytes.new ≡ each_after pairs.now c.now d.now bytes.old) }
{
    pairs::read_pairs(pairs)?;
    let n = reading::read(c, Schema::Description, 1)?;
    let m = reading::read(d, Schema::Description, 2)?;
    let mut index = [0u8; INDEX_BYTES];
    let exclusions = Exclusions::new(pairs, &mut index);
    let first = Accepted {
        bytes: c,
        total: usize::from(n),
    };
    let second = Accepted {
        bytes: d,
        total: usize::from(m),
    };
    let contained = each_read(exclusions, first, second, bytes);
    Ok(Judgement {
        entries: m,
        contained,
    })
}
