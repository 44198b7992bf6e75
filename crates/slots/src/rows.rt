// Entries that stand packed in a table, judged by an accepted description: they are slotted from the table. A caller that asks again and again, with
// other entries each time, writes no blocks, and nothing is read twice.
ghost use Rattle.std.specs.Prelude.{◌≡◌, ◌≢◌, ◌+◌, ◌*◌, ◌<◌, ◌≤◌, eqb, length, Ok};
ghost use Rattle.std.proofs.Props.{props};
ghost use Rattle.blocks.specs.Entries.{entries_of};
ghost use Rattle.blocks.specs.Promise.{Legal};
ghost use Rattle.blocks.specs.Reading.{reading_of};
ghost use Rattle.blocks.specs.declared.Schema.{Schema};
ghost use Rattle.logic.specs.Background.{Ruled};
ghost use Rattle.meaning.specs.Failing.{failing};
ghost use Rattle.pairs.specs.Pairs.{pair_count, under};
ghost use Rattle.slots.specs.Holding.{failing_in};
ghost use Rattle.slots.specs.code.Lent.{ChainedIn, Ready, SameTables};
ghost use Rattle.slots.specs.code.Marking.{MarkedBy, Unmarked};
ghost use Rattle.slots.specs.code.Rows.{listed_in, rows_bytes};
ghost use Rattle.slots.specs.code.Tables.{Built, Cleared, built_slots, slots_in};

use crate::accepted::Accepted;
use crate::build::entry_bounds;
use crate::excluding::Marked;
use crate::failing::Supplier;
use crate::marking::mark_places;
use crate::restrict::restrict_slots;
use crate::settle::settle;
use crate::slots::{Slots, enter, entry_key};
use crate::workspace::Workspace;
use pairs::{Exclusions, Sides};
use unfolding::entry_of_row;

/// Entries that stand packed in a table, from its first number to its last. As a description they are refused by no rule.
#[derive(Clone, Copy)]
pub struct Listing<'a> {
    /// The entries, each as one number.
    pub rows: &'a [u64],
    ghost legal: { Legal Schema.Description (listed_in rows.now) } by { Prim.hlevel props },
    ghost few: { length rows.now ≤ 1008 },
}

/// An accepted description that entries are judged by, under a list of pairs that is accepted and indexed.
#[derive(Clone, Copy)]
pub struct Asked<'a> {
    /// The list of pairs.
    pub exclusions: Exclusions<'a>,
    /// The description.
    pub bytes: &'a [u8],
    /// How many entries it has.
    pub total: usize,
    ghost ruled: { Ruled (under exclusions.pairs.now) },
    ghost read: { reading_of Schema.Description 2 bytes.now ≡ Ok total } by { Prim.hlevel props },
}

// Enters listed entries into their slots, as `build` does those of blocks, and returns the number of slots.
#[inline(always)]
fn build_rows<const BUCKETS: usize, const CELLS: usize>(
    listing: Listing<'_>,
    table: &mut [u64],
    cells: &mut [u16; CELLS],
    node: &mut [u16],
) -> usize
    requires { (length listing.rows.now < length table.old) × Cleared (length listing.rows.now) BUCKETS cells.old node.old }
    ensures { Built (built_slots (rows_bytes listing.entry.rows.now)) (rows_bytes listing.entry.rows.now) result table.old table.new BUCKETS cells.new }
{
    let mut used: usize = 0;
    for before in 0..listing.rows.len() {
        let e = entry_of_row(listing.rows[before]);
        let place = u64::from(node[usize::from(e.owner)]);
        let s = enter::<BUCKETS, CELLS>(
            table,
            cells,
            used,
            entry_key(place, e),
            entry_bounds(e.kind, e.number),
        );
        node[before + 1] = s as u16;
        used = used.max(s);
    }
    used
}

// The slots of listed entries, settled, as `chained_slots` makes those of a description in blocks.
fn chained_rows<const BUCKETS: usize, const CELLS: usize>(
    exclusions: Exclusions<'_>,
    listing: Listing<'_>,
    table: &mut [u64],
    work: &mut Workspace<'_, CELLS>,
) -> usize
    requires { (BUCKETS ≤ 4093) × (CELLS ≤ 8192) × (length listing.rows.now < length table.old) × Ready BUCKETS (length listing.rows.now) work.old
        × Unmarked exclusions.pairs.now (length listing.rows.now) work.old.marks.now }
    ensures chained { ChainedIn BUCKETS (under exclusions.entry.pairs.now) (rows_bytes listing.entry.rows.now) result table.old table.new work.new }
    ensures marked { MarkedBy exclusions.entry.pairs.now (slots_in table.new result) work.new.marks.now }
    ensures same { SameTables work.old work.new }
{
    let cells = &mut *work.cells;
    let node = &mut *work.node;
    let marks = &mut *work.marks;
    let bad = &mut *work.bad;
    let full = &mut *work.full;
    let used = build_rows::<BUCKETS, CELLS>(listing, table, cells, node);
    mark_places(exclusions, table, used, marks);
    restrict_slots(exclusions, marks, table, used);
    settle(table, bad, full, used);
    used
}

// Whether listed entries are contained, where both have fewer than N entries. All tables are its own: MARKS places are marked.
fn held_within<const N: usize, const MARKS: usize, const BUCKETS: usize, const CELLS: usize>(
    asked: Asked<'_>,
    listing: Listing<'_>,
) -> bool
    requires { (length listing.rows.now < N) × (asked.total < N) × (N ≤ 1009) × (251 ≤ BUCKETS) × (BUCKETS ≤ 4093) × (BUCKETS + 2 * N ≤ CELLS)
        × (CELLS ≤ 8192) × (MARKS ≤ 1009) × (pair_count asked.exclusions.pairs.now ≢ 0 → length listing.rows.now < MARKS) }
    ensures { result ≡ eqb (failing_in (under asked.entry.exclusions.pairs.now) (rows_bytes listing.entry.rows.now) asked.entry.bytes.now) 0 }
{
    let mut table = [0u64; N];
    let mut cells = [0u16; CELLS];
    let mut node = [0u16; N];
    let mut bad = [0u8; N];
    let mut full = [0u8; N];
    let mut marks = [Sides::none(); MARKS];
    let cells = &mut cells;
    let marks: &mut [Sides] = &mut marks;
    let mut work = Workspace {
        cells: &mut *cells,
        node: &mut node,
        marks: &mut *marks,
        bad: &mut bad,
        full: &mut full,
    };
    let exclusions = asked.exclusions;
    let used = chained_rows::<BUCKETS, CELLS>(exclusions, listing, &mut table, &mut work);
    let top = work.bad[0];
    let slots = Slots::<BUCKETS, CELLS>::of(&table, cells, used);
    let supplier = Supplier::new(Marked { exclusions, marks }, slots, top);
    let mut states = [0u16; N];
    let d = Accepted {
        bytes: asked.bytes,
        total: asked.total,
    };
    supplier.judge(d, &mut states).is_none()
}

// The same, where nothing is marked if the list has no pair.
fn held_under<const N: usize, const BUCKETS: usize, const CELLS: usize>(
    asked: Asked<'_>,
    listing: Listing<'_>,
) -> bool
    requires { (length listing.rows.now < N) × (asked.total < N) × (N ≤ 1009) × (251 ≤ BUCKETS) × (BUCKETS ≤ 4093) × (BUCKETS + 2 * N ≤ CELLS)
        × (CELLS ≤ 8192) }
    ensures { result ≡ eqb (failing_in (under asked.entry.exclusions.pairs.now) (rows_bytes listing.entry.rows.now) asked.entry.bytes.now) 0 }
{
    if asked.exclusions.is_empty() {
        return held_within::<N, 0, BUCKETS, CELLS>(asked, listing);
    }
    held_within::<N, N, BUCKETS, CELLS>(asked, listing)
}

impl Asked<'_> {
    /// Tells whether listed entries, as a description, are contained in this one. Those of one block, and of four, take smaller tables, which are
    /// sooner cleared.
    pub fn holds(self, listing: Listing<'_>) -> bool
        ensures { result ≡ eqb (failing (under self.entry.exclusions.pairs.now) (listed_in listing.entry.rows.now) (entries_of self.entry.bytes.now)) 0 }
    {
        let count = listing.rows.len();
        if count < 64 && self.total < 64 {
            return held_under::<64, 251, 379>(self, listing);
        }
        if count < 253 && self.total < 253 {
            return held_under::<253, 4093, 4599>(self, listing);
        }
        held_under::<1009, 4093, 6111>(self, listing)
    }
}
