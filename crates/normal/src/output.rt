// The answer, and the blocks that are written.
ghost use Rattle.std.specs.Prelude.{◌≡◌, ◌+◌, ◌*◌, ◌≤◌, length, min};
ghost use Rattle.normal.specs.Answer.{normalise_of, normalised_of};
ghost use Rattle.normal.specs.code.Emitted.{Roomy};
ghost use Rattle.normal.specs.code.Formed.{FormHeld, form_reading};

use crate::settled::Workspace;
use crate::tables::normal_rows;
use blocks::sizes::{BLOCK, ENTRIES};
use blocks::{Cause, Refusal};

// The rows of the normal form of any description, in tables that have room for its entries. Those of the slots stay apart, as `slots::fill` takes
// them: it writes them all, and from then on they are only read. The marks `bad` and `full` are bytes of 0 and 1, as it writes them.
fn rows_in(
    pairs: &[u8],
    d: &[u8],
    table: &mut [u64],
    bad: &mut [u8],
    full: &mut [u8],
    work: &mut Workspace,
) -> Result<u16, Refusal>
    requires { Roomy d.now table.old bad.old full.old work.old.last.now work.old.before.now work.old.order.now work.old.rows.now work.old.below.now }
    ensures { (result ≡ form_reading pairs.now d.now) × FormHeld pairs.now d.now result work.new.rows.now
        × (work.new.rows.ghost_name ≡ work.old.rows.ghost_name) }
{
    let used = slots::fill(pairs, d, table, bad, full)?;
    let count = normal_rows(&table[..usize::from(used) + 1], bad, full, work);
    Ok(count as u16)
}

// The same in tables of its own, for so many rows: a description of one block has few, and one of four at most 252, and smaller tables are sooner
// cleared.
fn rows_sized<const ROWS: usize, const SLOTS: usize, const RUNS: usize>(
    pairs: &[u8],
    d: &[u8],
    rows: &mut [u64],
) -> Result<u16, Refusal>
    requires { (ENTRIES * min (length d.now) 8192 ≤ BLOCK * ROWS) × (1 ≤ ROWS) × (ROWS ≤ 1008) × (SLOTS ≡ ROWS + 1) × (RUNS ≡ 2 * SLOTS)
        × (length rows.old ≡ ROWS) }
    ensures { (result ≡ form_reading pairs.now d.now) × FormHeld pairs.now d.now result rows.new }
{
    let mut table = [0u64; SLOTS];
    let mut bad = [0u8; SLOTS];
    let mut full = [0u8; SLOTS];
    let mut last = [0u16; RUNS];
    let mut before = [0u16; SLOTS];
    let mut order = [0u64; ROWS];
    let mut below = [0u16; SLOTS];
    let mut work = Workspace {
        last: &mut last,
        before: &mut before,
        order: &mut order,
        rows,
        below: &mut below,
    };
    rows_in(pairs, d, &mut table, &mut bad, &mut full, &mut work)
}

// Packs the entries of the normal form of a description, under a list of pairs, entry n as the number n - 1, and returns how many they are; the
// numbers after them are of no account. Where the list or the description is refused, as input 1, the refusal is returned.
pub fn form_rows(pairs: &[u8], description: &[u8], rows: &mut [u64; 1008]) -> Result<u16, Refusal>
    ensures { (result ≡ form_reading pairs.now description.now) × FormHeld pairs.now description.now result rows.new }
{
    if description.len() <= BLOCK {
        return rows_sized::<ENTRIES, 64, 128>(pairs, description, &mut rows[..ENTRIES]);
    }
    if description.len() <= 2048 {
        return rows_sized::<252, 253, 506>(pairs, description, &mut rows[..252]);
    }
    rows_sized::<1008, 1009, 2018>(pairs, description, rows)
}

// The answer for a description, with a table of its own for so many rows: 7 where the output is shorter, else its normal form is written.
fn normalise_sized<const ROWS: usize, const SLOTS: usize, const RUNS: usize>(
    pairs: &[u8],
    d: &[u8],
    out: &mut [u8],
) -> Result<u16, Refusal>
    requires { (ENTRIES * min (length d.now) 8192 ≤ BLOCK * ROWS) × (1 ≤ ROWS) × (ROWS ≤ 1008) × (SLOTS ≡ ROWS + 1) × (RUNS ≡ 2 * SLOTS) }
    ensures { (result ≡ normalise_of pairs.now d.now out.old) × (out.new ≡ normalised_of pairs.now d.now out.old) }
{
    let mut rows = [0u64; ROWS];
    let count = rows_sized::<ROWS, SLOTS, RUNS>(pairs, d, &mut rows)?;
    if out.len() < d.len() {
        return Err(Refusal {
            cause: Cause::Room,
            input: 0,
            place: 0,
        });
    }
    writing::write_entries(out, &rows, usize::from(count));
    Ok(count)
}

// Writes the normal form of a description, under a list of pairs, in blocks from the start of the output, which is at least as long as the
// description, and returns its number of entries; later bytes stay. Where the list or the description is refused, or the output is shorter,
// the refusal is returned and no byte changes.
pub fn normalise(pairs: &[u8], description: &[u8], out: &mut [u8]) -> Result<u16, Refusal>
    ensures { (result ≡ normalise_of pairs.now description.now out.old) × (out.new ≡ normalised_of pairs.now description.now out.old) }
{
    if description.len() <= BLOCK {
        return normalise_sized::<ENTRIES, 64, 128>(pairs, description, out);
    }
    if description.len() <= 2048 {
        return normalise_sized::<252, 253, 506>(pairs, description, out);
    }
    normalise_sized::<1008, 1009, 2018>(pairs, description, out)
}
