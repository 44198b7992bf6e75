// The slots of a description, built and settled, in tables that the caller lends.
ghost use Rattle.std.specs.Prelude.{◌≡◌, ◌≢◌, ◌+◌, ◌*◌, ◌<◌, ◌≤◌, length};
ghost use Rattle.pairs.specs.Pairs.{pair_count, under};
ghost use Rattle.slots.specs.code.Lent.{ChainedIn, Ready, SameTables};
ghost use Rattle.slots.specs.code.Marking.{MarkedBy, Unmarked};
ghost use Rattle.slots.specs.code.Tables.{Blank, Exact, Settled, slots_in};
ghost use Rattle.slots.specs.code.Standing.{FilledBy, Fills, bad_after, full_after, room_in, slotting_of, table_after};

use crate::accepted::Accepted;
use crate::build::build;
use crate::marking::mark_places;
use crate::restrict::restrict_slots;
use crate::settle::settle;
use crate::workspace::Workspace;
use blocks::{Cause, Refusal, Schema};
use pairs::{Exclusions, INDEX_BYTES, Sides};

// The slots of a description, settled, with the cells in which they are found and the marks of their places; returns their number. Each table of the workspace
// has a name first: several are lent to one pass.
pub(crate) fn chained_slots<const BUCKETS: usize, const CELLS: usize>(
    exclusions: Exclusions<'_>,
    d: Accepted<'_>,
    table: &mut [u64],
    work: &mut Workspace<'_, CELLS>,
) -> usize
    requires { (BUCKETS ≤ 4093) × (CELLS ≤ 8192) × (d.total < length table.old) × Ready BUCKETS d.total work.old
        × Unmarked exclusions.pairs.now d.total work.old.marks.now }
    ensures chained { ChainedIn BUCKETS (under exclusions.entry.pairs.now) d.entry.bytes.now result table.old table.new work.new }
    ensures marked { MarkedBy exclusions.entry.pairs.now (slots_in table.new result) work.new.marks.now }
    ensures same { SameTables work.old work.new }
{
    let cells = &mut *work.cells;
    let node = &mut *work.node;
    let marks = &mut *work.marks;
    let bad = &mut *work.bad;
    let full = &mut *work.full;
    let used = build::<BUCKETS, CELLS>(d.bytes, d.total, table, cells, node);
    mark_places(exclusions, table, used, marks);
    restrict_slots(exclusions, marks, table, used);
    settle(table, bad, full, used);
    used
}

// The slots of a description of fewer than N entries, settled, with tables of their own for what only the passes need: MARKS places are marked.
fn settled_within<const N: usize, const MARKS: usize, const BUCKETS: usize, const CELLS: usize>(
    exclusions: Exclusions<'_>,
    d: Accepted<'_>,
    table: &mut [u64],
    bad: &mut [u8],
    full: &mut [u8],
) -> usize
    requires { (d.total < N) × (N ≤ 1009) × (251 ≤ BUCKETS) × (BUCKETS ≤ 4093) × (BUCKETS + 2 * N ≤ CELLS) × (CELLS ≤ 8192)
        × (MARKS ≤ 1009) × (pair_count exclusions.pairs.now ≢ 0 → d.total < MARKS)
        × (d.total < length table.old) × Blank d.total bad.old × Blank d.total full.old }
    ensures { Settled (under exclusions.entry.pairs.now) d.entry.bytes.now result table.new bad.new full.new
        × Exact table.old table.new result }
{
    let mut cells = [0u16; CELLS];
    let mut node = [0u16; N];
    let mut marks = [Sides::none(); MARKS];
    let mut work = Workspace {
        cells: &mut cells,
        node: &mut node,
        marks: &mut marks,
        bad,
        full,
    };
    chained_slots::<BUCKETS, CELLS>(exclusions, d, table, &mut work)
}

// The same, where nothing is marked if the list has no pair.
fn settled_under<const N: usize, const BUCKETS: usize, const CELLS: usize>(
    exclusions: Exclusions<'_>,
    d: Accepted<'_>,
    table: &mut [u64],
    bad: &mut [u8],
    full: &mut [u8],
) -> usize
    requires { (d.total < N) × (N ≤ 1009) × (251 ≤ BUCKETS) × (BUCKETS ≤ 4093) × (BUCKETS + 2 * N ≤ CELLS) × (CELLS ≤ 8192)
        × (d.total < length table.old) × Blank d.total bad.old × Blank d.total full.old }
    ensures { Settled (under exclusions.entry.pairs.now) d.entry.bytes.now result table.new bad.new full.new
        × Exact table.old table.new result }
{
    if exclusions.is_empty() {
        return settled_within::<N, 0, BUCKETS, CELLS>(exclusions, d, table, bad, full);
    }
    settled_within::<N, N, BUCKETS, CELLS>(exclusions, d, table, bad, full)
}

// The slots of a description, settled; returns their number. Those of one block, and of four, take smaller tables, which
// are sooner cleared.
fn settled_slots(
    exclusions: Exclusions<'_>,
    d: Accepted<'_>,
    table: &mut [u64],
    bad: &mut [u8],
    full: &mut [u8],
) -> usize
    requires { (d.total < length table.old) × Blank d.total bad.old × Blank d.total full.old }
    ensures { Settled (under exclusions.entry.pairs.now) d.entry.bytes.now result table.new bad.new full.new
        × Exact table.old table.new result }
{
    if d.total < 64 {
        return settled_under::<64, 251, 379>(exclusions, d, table, bad, full);
    }
    if d.total < 253 {
        return settled_under::<253, 4093, 4599>(exclusions, d, table, bad, full);
    }
    settled_under::<1009, 4093, 6111>(exclusions, d, table, bad, full)
}

// Fills the tables with the slots of an accepted description; or 7 where one of them is too short for it.
fn fill_accepted(
    exclusions: Exclusions<'_>,
    d: Accepted<'_>,
    table: &mut [u64],
    bad: &mut [u8],
    full: &mut [u8],
) -> Result<u16, Refusal>
    ensures { Fills (under exclusions.entry.pairs.now) d.entry.bytes.now table.old bad.old full.old result
        table.new bad.new full.new }
{
    if table.len().min(bad.len().min(full.len())) <= d.total {
        return Err(Refusal {
            cause: Cause::Room,
            input: 0,
            place: 0,
        });
    }
    bad.fill(0);
    full.fill(0);
    Ok(settled_slots(exclusions, d, table, bad, full) as u16)
}

// The same for any description, under a list of pairs that is accepted and indexed.
fn fill_indexed(
    exclusions: Exclusions<'_>,
    d: &[u8],
    table: &mut [u64],
    bad: &mut [u8],
    full: &mut [u8],
) -> Result<u16, Refusal>
    ensures { Fills (under exclusions.entry.pairs.now) d.now table.old bad.old full.old result table.new bad.new full.new }
{
    let n = reading::read(d, Schema::Description, 1)?;
    let accepted = Accepted {
        bytes: d,
        total: usize::from(n),
    };
    fill_accepted(exclusions, accepted, table, bad, full)
}

// The same where the list is accepted.
fn fill_listed(
    pairs: &[u8],
    d: &[u8],
    table: &mut [u64],
    bad: &mut [u8],
    full: &mut [u8],
) -> Result<u16, Refusal>
    requires { pair_count pairs.now ≤ 64 }
    ensures { Fills (under pairs.now) d.now table.old bad.old full.old result table.new bad.new full.new }
{
    let mut index = [0u8; INDEX_BYTES];
    let exclusions = Exclusions::new(pairs, &mut index);
    fill_indexed(exclusions, d, table, bad, full)
}

// Reads a list of pairs and a description and fills the tables: with the slots of the description under the list, from number 1 on, and with
// marks, whatever they held. Returns the number of slots; or the refusal, which is 7 where a table has no number for each entry after number
// 0, and then the tables stay.
pub fn fill(
    pairs: &[u8],
    d: &[u8],
    table: &mut [u64],
    bad: &mut [u8],
    full: &mut [u8],
) -> Result<u16, Refusal>
    ensures { (result ≡ slotting_of pairs.now (room_in table.old bad.old full.old) d.now)
        × (table.new ≡ table_after pairs.now (room_in table.old bad.old full.old) d.now table.old)
        × (bad.new ≡ bad_after pairs.now (room_in table.old bad.old full.old) d.now bad.old)
        × (full.new ≡ full_after pairs.now (room_in table.old bad.old full.old) d.now full.old)
        × FilledBy pairs.now (room_in table.old bad.old full.old) d.now table.new bad.new full.new result }
{
    pairs::read_pairs(pairs)?;
    fill_listed(pairs, d, table, bad, full)
}
