// The comparison. Whether all entries of the second description hold is asked of the normal form's layer, which slots the first and leaves
// its slots in a lent table. Only where one fails is the specimen written to the output, from these slots. Tables are made in three sizes, so
// that two descriptions of one block each, or of at most four, do not pay for clearing tables for 1,008 entries.
ghost use Rattle.std.specs.Prelude.{◌≡◌, ◌*◌, ◌+◌, ◌≤◌, ◌<◌, leb, ltb, length, min, replicate, ◌&&◌};
ghost use Rattle.logic.specs.Background.{Background, Ruled};
ghost use Rattle.slots.specs.code.Standing.{BothRead};
ghost use Rattle.compare.specs.Answer.{compare_of, compare_under, output_of, output_under};
ghost use Rattle.compare.specs.code.Prepared.{Agreed, Failed, FailedSomehow, Roomy, Showable, shown_after, shown_by};

use crate::NotContained;
use crate::path::Path;
use crate::specimen::specimen_rows;
use blocks::sizes::{BLOCK, ENTRIES};
use blocks::{Cause, Refusal};
use normal::Workspace;

// Writes the specimen that the slots give for entry n of a description, in lent tables, and returns its number of entries.
fn write_specimen(table: &[u64], d: &[u8], n: usize, work: &mut Workspace, out: &mut [u8]) -> usize
    requires { Showable table.now d.now n (length work.old.rows.now) out.old × (work.old.last.now ≡ replicate (length work.old.last.now) 0)
        × (2 * length table.now ≤ length work.old.last.now) × (length table.now ≤ length work.old.before.now)
        × (length table.now ≤ length work.old.order.now) × (work.old.below.now ≡ replicate (length work.old.rows.now + 1) 0) }
    ensures { (result ≡ length (shown_by table.now d.now n)) × (result ≤ 2016) × (out.new ≡ shown_after table.now d.now n out.old) }
{
    let path = Path::to(d, n);
    let count = specimen_rows(table, &path, work);
    writing::write_entries(out, work.rows, count);
    count
}

// The same with tables of its own, for so many slots and rows.
fn show_sized<const SLOTS: usize, const RUNS: usize, const ROWS: usize, const PLACES: usize>(
    table: &[u64],
    d: &[u8],
    n: usize,
    out: &mut [u8],
) -> usize
    requires { Showable table.now d.now n ROWS out.old × (length table.now ≤ SLOTS) × (SLOTS ≤ 1009) × (RUNS ≡ 2 * SLOTS) × (PLACES ≡ ROWS + 1) }
    ensures { (result ≡ length (shown_by table.now d.now n)) × (result ≤ 2016) × (out.new ≡ shown_after table.now d.now n out.old) }
{
    let mut last = [0u16; RUNS];
    let mut before = [0u16; SLOTS];
    let mut order = [0u64; SLOTS];
    let mut rows = [0u64; ROWS];
    let mut below = [0u16; PLACES];
    let mut work = Workspace {
        last: &mut last,
        before: &mut before,
        order: &mut order,
        rows: &mut rows,
        below: &mut below,
    };
    write_specimen(table, d, n, &mut work, out)
}

// Whether two descriptions are of at most so many bytes each.
fn are_within(c: &[u8], d: &[u8], most: usize) -> bool
    ensures { result ≡ (leb (length c.now) most && leb (length d.now) most) }
{
    c.len() <= most && d.len() <= most
}

// Shows that entry n fails, where the slots of the first description stand in the table.
fn show(c: &[u8], d: &[u8], n: usize, table: &[u64], out: &mut [u8]) -> NotContained
    requires { FailedSomehow c.now d.now n table.now × (length c.now + length d.now ≤ length out.old) }
    ensures { (b : Background) → Ruled b → Failed b c.now d.now n table.now
        → (Ok (Some result) ≡ compare_under b c.now d.now out.old) × (out.new ≡ output_under b c.now d.now out.old) }
{
    let count = if are_within(c, d, BLOCK) {
        show_sized::<64, 128, 126, 127>(table, d, n, out)
    } else if are_within(c, d, 2048) {
        show_sized::<253, 506, 504, 505>(table, d, n, out)
    } else {
        show_sized::<1009, 2018, 2016, 2017>(table, d, n, out)
    };
    NotContained {
        entry: n as u16,
        entries: count as u16,
    }
}

// Whether an output is shorter than two descriptions together.
fn is_short(c: &[u8], d: &[u8], out: &[u8]) -> bool
    requires { length c.now + length d.now ≤ 16384 }
    ensures { result ≡ ltb (length out.now) (length c.now + length d.now) }
{
    out.len() < c.len() + d.len()
}

// The answer where all entries hold: 7 where the output is shorter than both descriptions together.
fn agree(c: &[u8], d: &[u8], out: &[u8]) -> Result<Option<NotContained>, Refusal>
    requires { BothRead c.now d.now }
    ensures { (b : Background) → Agreed b c.now d.now
        → (result ≡ compare_under b c.now d.now out.now) × (out.now ≡ output_under b c.now d.now out.now) }
{
    if is_short(c, d, out) {
        return Err(Refusal {
            cause: Cause::Room,
            input: 0,
            place: 0,
        });
    }
    Ok(None)
}

// The answer where entry n fails: 7 where the output is shorter, else the specimen.
fn deny(
    c: &[u8],
    d: &[u8],
    n: usize,
    table: &[u64],
    out: &mut [u8],
) -> Result<Option<NotContained>, Refusal>
    requires { FailedSomehow c.now d.now n table.now }
    ensures { (b : Background) → Ruled b → Failed b c.now d.now n table.now
        → (result ≡ compare_under b c.now d.now out.old) × (out.new ≡ output_under b c.now d.now out.old) }
{
    if is_short(c, d, out) {
        return Err(Refusal {
            cause: Cause::Room,
            input: 0,
            place: 0,
        });
    }
    Ok(Some(show(c, d, n, table, out)))
}

// Compares two descriptions under a list of pairs, with a lent table for the slots of the first.
fn compare_in(
    pairs: &[u8],
    c: &[u8],
    d: &[u8],
    table: &mut [u64],
    out: &mut [u8],
) -> Result<Option<NotContained>, Refusal>
    requires { Roomy c.now table.old }
    ensures { (result ≡ compare_of pairs.now c.now d.now out.old) × (out.new ≡ output_of pairs.now c.now d.now out.old) }
{
    let unheld = slots::first_failing(pairs, c, d, table)?;
    match unheld {
        None => agree(c, d, out),
        Some(u) => deny(
            c,
            d,
            usize::from(u.entry),
            &table[..usize::from(u.used) + 1],
            out,
        ),
    }
}

// The same with a table of its own, for so many slots.
fn compare_sized<const SLOTS: usize>(
    pairs: &[u8],
    c: &[u8],
    d: &[u8],
    out: &mut [u8],
) -> Result<Option<NotContained>, Refusal>
    requires { (ENTRIES * min (length c.now) 8192 < BLOCK * SLOTS) × (SLOTS ≤ 1009) }
    ensures { (result ≡ compare_of pairs.now c.now d.now out.old) × (out.new ≡ output_of pairs.now c.now d.now out.old) }
{
    let mut table = [0u64; SLOTS];
    compare_in(pairs, c, d, &mut table, out)
}

// Compares two descriptions: whether every item that fits the first fits the second, in every finite record in which links from 32,768 up
// lead to one item at most and no item has both properties of a pair of the list. Where one does not, the blocks of a specimen that shows it
// are written from the start of the output, and the answer has the number of the first entry of the second description that fails and the
// specimen's number of entries; later bytes stay. The output is at least as long as both descriptions; where it is shorter, or the list or a
// description is refused, the refusal is returned. Nothing is written but a specimen.
pub fn compare(
    pairs: &[u8],
    c: &[u8],
    d: &[u8],
    out: &mut [u8],
) -> Result<Option<NotContained>, Refusal>
    ensures { (result ≡ compare_of pairs.now c.now d.now out.old) × (out.new ≡ output_of pairs.now c.now d.now out.old) }
{
    if are_within(c, d, BLOCK) {
        return compare_sized::<64>(pairs, c, d, out);
    }
    if are_within(c, d, 2048) {
        return compare_sized::<253>(pairs, c, d, out);
    }
    compare_sized::<1009>(pairs, c, d, out)
}
