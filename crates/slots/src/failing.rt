// The first entry of a second description that the normal form of a first does not hold, in a table of slots that the caller lends.
ghost use Rattle.std.specs.Prelude.{◌≡◌, ◌≢◌, ◌+◌, ◌*◌, List, ◌<◌, ◌≤◌, ℕ, length, unwrap_or, IfSome};
ghost use Rattle.blocks.specs.Reading.{reading_of};
ghost use Rattle.blocks.specs.declared.Schema.{Schema};
ghost use Rattle.base.specs.Range.{bit};
ghost use Rattle.logic.specs.Background.{Background, Ruled};
ghost use Rattle.passes.specs.code.Slots.{inconsistent};
ghost use Rattle.pairs.specs.Pairs.{pair_count, under};
ghost use Rattle.slots.specs.Holding.{failing_in, holding_by, holding_of};
ghost use Rattle.slots.specs.code.Standing.{JudgedBy, Judges, table_judged};
ghost use Rattle.slots.specs.code.Marking.{MarkedBy};
ghost use Rattle.slots.specs.code.Tables.{Tabled, slots_in, slots_of};

use crate::Unheld;
use crate::accepted::Accepted;
use crate::excluding::Marked;
use crate::filling::chained_slots;
use crate::slots::Slots;
use crate::workspace::Workspace;
use blocks::{Cause, Refusal, Schema};
use pairs::{Exclusions, INDEX_BYTES, Sides};

// The answer of the number of the entry that fails, if one does, and of the number of slots.
fn answer_of(failing: Option<usize>, used: usize) -> Option<Unheld>
    requires { (unwrap_or failing 0 ≤ 1008) × IfSome failing (λ n. 1 ≤ n) × (used ≤ 1008) }
    ensures { result ≡ holding_by used (unwrap_or failing 0) }
{
    failing.map(|n| Unheld {
        entry: n as u16,
        used: used as u16,
    })
}

// A description that others are judged by, under a list of pairs: its settled slots, the marks of their places beside the list, and whether
// nothing fits it. That the list is ruled is kept
// here, and up to here a clause: it is known of bytes once they are read, and `Exclusions`, of another crate, indexes any list.
// `impossible` stands beside the slots: a description that nothing fits has slots as well.
#[derive(Clone, Copy)]
pub(crate) struct Supplier<'a, const BUCKETS: usize, const CELLS: usize> {
    pub marked: Marked<'a>,
    pub slots: Slots<'a, BUCKETS, CELLS>,
    pub impossible: bool,
    ghost ruled: { Ruled (under marked.exclusions.pairs.now) },
    ghost right: { MarkedBy marked.exclusions.pairs.now (slots_in slots.table.now slots.used) marked.marks.now },
}

impl<'a, const BUCKETS: usize, const CELLS: usize> Supplier<'a, BUCKETS, CELLS> {
    ghost use Rattle.slots.specs.code.Lent.{HeldIn, MarkedIn};

    // The supplier whose slots these are, settled, and whose top has this mark: 1 where it is impossible, else 0.
    pub(crate) fn new(marked: Marked<'a>, slots: Slots<'a, BUCKETS, CELLS>, bad: u8) -> Self
        requires { Ruled (under marked.exclusions.pairs.now) × MarkedIn (slots_in slots.table.now slots.used) marked }
        ensures held { (b : Background) → (c : List ℕ) → Tabled b c slots.entry.used slots.entry.table.now
            → bad ≡ bit (inconsistent 1 (slots_of b c) 0) → HeldIn b c result }
        ensures same { (result.marked ≡ marked.entry) × (result.slots ≡ slots.entry) }
    {
        Supplier {
            marked,
            slots,
            impossible: bad != 0,
        }
    }

    // The first entry of a description that does not hold by the supplier; none where nothing fits it. This is all that
    // judges, and it leaves the slots: they serve for many descriptions. The states are a slice, since they come in each size of tables.
    pub(crate) fn judge(self, d: Accepted<'_>, states: &mut [u16]) -> Option<usize>
        requires { d.total < length states.old }
        ensures { (unwrap_or result 0 ≤ 1008) × IfSome result (λ n. 1 ≤ n)
            × ((c : List ℕ) → HeldIn (under self.entry.marked.exclusions.pairs.now) c self.entry
            → unwrap_or result 0 ≡ failing_in (under self.entry.marked.exclusions.pairs.now) c d.entry.bytes.now) }
    {
        if self.impossible {
            return None;
        }
        self.slots
            .first_failing_entry(self.marked, d.bytes, d.total, states)
    }
}

// Slots and settles the first description and judges the second by its slots, where both have fewer than N entries. All
// tables but that of the slots are its own: MARKS places are marked.
fn judge<const N: usize, const MARKS: usize, const BUCKETS: usize, const CELLS: usize>(
    exclusions: Exclusions<'_>,
    c: Accepted<'_>,
    d: Accepted<'_>,
    table: &mut [u64],
) -> Result<Option<Unheld>, Refusal>
    requires { Ruled (under exclusions.pairs.now) × (c.total < length table.old) × (c.total < N) × (d.total < N)
        × (N ≤ 1009) × (251 ≤ BUCKETS) × (BUCKETS ≤ 4093) × (BUCKETS + 2 * N ≤ CELLS) × (CELLS ≤ 8192)
        × (MARKS ≤ 1009) × (pair_count exclusions.pairs.now ≢ 0 → c.total < MARKS) }
    ensures { Judges (under exclusions.entry.pairs.now) c.entry.bytes.now d.entry.bytes.now table.old result table.new }
{
    let mut cells = [0u16; CELLS];
    let mut node = [0u16; N];
    let mut bad = [0u8; N];
    let mut full = [0u8; N];
    let mut marks = [Sides::none(); MARKS];
    let cells = &mut cells;
    let marks: &mut [Sides] = &mut marks;
    let mut work = Workspace {
        cells: &mut *cells,
        node: &mut node,
        marks: &mut *marks,
        bad: &mut bad,
        full: &mut full,
    };
    let used = chained_slots::<BUCKETS, CELLS>(exclusions, c, table, &mut work);
    let top = work.bad[0];
    let slots = Slots::<BUCKETS, CELLS>::of(table, cells, used);
    let supplier = Supplier::new(Marked { exclusions, marks }, slots, top);
    let mut states = [0u16; N];
    let e = supplier.judge(d, &mut states);
    Ok(answer_of(e, used))
}

// The same, where nothing is marked if the list has no pair.
fn judge_under<const N: usize, const BUCKETS: usize, const CELLS: usize>(
    exclusions: Exclusions<'_>,
    c: Accepted<'_>,
    d: Accepted<'_>,
    table: &mut [u64],
) -> Result<Option<Unheld>, Refusal>
    requires { Ruled (under exclusions.pairs.now) × (c.total < length table.old) × (c.total < N) × (d.total < N)
        × (N ≤ 1009) × (251 ≤ BUCKETS) × (BUCKETS ≤ 4093) × (BUCKETS + 2 * N ≤ CELLS) × (CELLS ≤ 8192) }
    ensures { Judges (under exclusions.entry.pairs.now) c.entry.bytes.now d.entry.bytes.now table.old result table.new }
{
    if exclusions.is_empty() {
        return judge::<N, 0, BUCKETS, CELLS>(exclusions, c, d, table);
    }
    judge::<N, N, BUCKETS, CELLS>(exclusions, c, d, table)
}

// The answer for two accepted descriptions: 7 where the table is too short for the first. Those of one block, and
// of four, take smaller tables, which are sooner cleared.
fn judge_read(
    exclusions: Exclusions<'_>,
    c: Accepted<'_>,
    d: Accepted<'_>,
    table: &mut [u64],
) -> Result<Option<Unheld>, Refusal>
    requires { Ruled (under exclusions.pairs.now) }
    ensures { Judges (under exclusions.entry.pairs.now) c.entry.bytes.now d.entry.bytes.now table.old result table.new }
{
    if table.len() <= c.total {
        return Err(Refusal {
            cause: Cause::Room,
            input: 0,
            place: 0,
        });
    }
    if c.total < 64 && d.total < 64 {
        return judge_under::<64, 251, 379>(exclusions, c, d, table);
    }
    if c.total < 253 && d.total < 253 {
        return judge_under::<253, 4093, 4599>(exclusions, c, d, table);
    }
    judge_under::<1009, 4093, 6111>(exclusions, c, d, table)
}

// Reads the second description, where the first is accepted.
fn second_failing(
    exclusions: Exclusions<'_>,
    c: Accepted<'_>,
    d: &[u8],
    table: &mut [u64],
) -> Result<Option<Unheld>, Refusal>
    requires { Ruled (under exclusions.pairs.now) }
    ensures { Judges (under exclusions.entry.pairs.now) c.entry.bytes.now d.now table.old result table.new }
{
    let m = reading::read(d, Schema::Description, 2)?;
    let second = Accepted {
        bytes: d,
        total: usize::from(m),
    };
    judge_read(exclusions, c, second, table)
}

// Reads the first description, under a list of pairs that is accepted and indexed.
fn failing_indexed(
    exclusions: Exclusions<'_>,
    c: &[u8],
    d: &[u8],
    table: &mut [u64],
) -> Result<Option<Unheld>, Refusal>
    requires { Ruled (under exclusions.pairs.now) }
    ensures { Judges (under exclusions.entry.pairs.now) c.now d.now table.old result table.new }
{
    let n = reading::read(c, Schema::Description, 1)?;
    let first = Accepted {
        bytes: c,
        total: usize::from(n),
    };
    second_failing(exclusions, first, d, table)
}

// The same where the list is accepted.
fn failing_listed(
    pairs: &[u8],
    c: &[u8],
    d: &[u8],
    table: &mut [u64],
) -> Result<Option<Unheld>, Refusal>
    requires { (pair_count pairs.now ≤ 64) × Ruled (under pairs.now) }
    ensures { Judges (under pairs.now) c.now d.now table.old result table.new }
{
    let mut index = [0u8; INDEX_BYTES];
    let exclusions = Exclusions::new(pairs, &mut index);
    failing_indexed(exclusions, c, d, table)
}

// Looks for the first entry of the second description that the normal form of the first, under a list of pairs, does not hold, and returns
// its number, with the number of slots that then stand in the table, settled, from number 1 on; or that all hold; or the refusal, of the
// list, of input 1 or 2, or 7 where the table has no number for each entry of the first after number 0. Where anything is refused the table
// stays. Nothing is sorted.
pub fn first_failing(
    pairs: &[u8],
    c: &[u8],
    d: &[u8],
    table: &mut [u64],
) -> Result<Option<Unheld>, Refusal>
    ensures { (result ≡ holding_of pairs.now (length table.old) c.now d.now)
        × (table.new ≡ table_judged pairs.now c.now d.now table.old)
        × JudgedBy pairs.now c.now d.now table.new result }
{
    pairs::read_pairs(pairs)?;
    failing_listed(pairs, c, d, table)
}
