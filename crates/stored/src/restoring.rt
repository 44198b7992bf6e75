// From the stored form to a description: each entry's owner is the nearest earlier entry of lesser depth.
ghost use Rattle.std.specs.Prelude.{◌≡◌, ◌+◌, ◌*◌, ◌≤◌, IfOk, Ok, length, map};
ghost use Rattle.base.specs.Stores.{stored};
ghost use Rattle.blocks.specs.Entries.{packed};
ghost use Rattle.blocks.specs.Faults.{first, frame_faults, rows_from};
ghost use Rattle.blocks.specs.Frame.{stored_frame, total_in};
ghost use Rattle.blocks.specs.Reading.{answer};
ghost use Rattle.stored.specs.Answer.{restored_in, restored_of};
ghost use Rattle.stored.specs.Stored.{stored_entries};
ghost use Rattle.stored.specs.Walking.{restored, stored_rows};
ghost use Rattle.stored.specs.code.Steps.{There};

use crate::entries::{owned_entry, stored_entry};
use crate::rules::stored_refusal;
use blocks::{Cause, Refusal, kinds, pack};
use reading::read_stored_blocks;
use writing::write_entries;

// Goes over the entries once, and keeps the last 'every' of each depth that may own the next: the row of each entry as
// a description's, or the refusal of the lowest that breaks number 4, 15 or 6.
fn restore(s: &[u8], total: usize, rows: &mut [u64]) -> Result<(), Refusal>
    requires { (total ≡ length (stored_entries s.now)) × (total ≤ 1008) × There s.now total × (total ≤ length rows.old) }
    ensures refused { result ≡ answer 1 tt (first (rows_from (stored_rows (stored_entries s.now)) 1 total)) }
    ensures given { IfOk result (λ x. rows.new ≡ stored rows.old 0 (map packed (restored (stored_entries s.now)))) }
{
    let mut last = [0u16; 34];
    let mut most = 0u8;
    for before in 0..total {
        let n = before + 1;
        let x = stored_entry(s, n);
        if let Some(cause) = stored_refusal(x, most) {
            return Err(Refusal {
                cause,
                input: 1,
                place: n as u16,
            });
        }
        rows[before] = pack(owned_entry(x, last[usize::from(x.depth)]));
        most = x.depth;
        if x.kind == kinds::EVERY {
            most = x.depth + 1;
            last[usize::from(most)] = n as u16;
        }
    }
    Ok(())
}

// The description that an input whose blocks are right holds, with a table of N rows, which has room for its entries.
fn restore_in<const N: usize>(s: &[u8], count: u16, out: &mut [u8]) -> Result<u16, Refusal>
    requires { (N ≤ 1008) × (count ≤ N) × (answer 1 (total_in stored_frame s.now) (first (frame_faults stored_frame 12 s.now)) ≡ Ok count) }
    ensures { (result ≡ restored_of s.now out.old) × (out.new ≡ restored_in s.now out.old) }
{
    let total = usize::from(count);
    let mut rows = [0u64; N];
    restore(s, total, &mut rows)?;
    if write_entries(out, &rows, total) == 0 {
        return Err(Refusal {
            cause: Cause::Room,
            input: 0,
            place: 0,
        });
    }
    Ok(count)
}

/// Writes the description that an input in the stored form holds from the start of the output: its number of entries.
/// Owners are the nearest earlier entries of lesser depth. Later bytes stay.
///
/// Refused, the first that applies: 1 to 12 blocks; the blocks; the lowest entry that breaks 4, 15 or 6; an output
/// shorter than what is written. A refusal writes nothing.
pub fn from_stored(s: &[u8], out: &mut [u8]) -> Result<u16, Refusal>
    ensures { (result ≡ restored_of s.now out.old) × (out.new ≡ restored_in s.now out.old) }
{
    let count = read_stored_blocks(s, 1)?;
    // Few entries take a small table, which is sooner cleared.
    if count <= 84 {
        return restore_in::<84>(s, count, out);
    }
    if count <= 336 {
        return restore_in::<336>(s, count, out);
    }
    restore_in::<1008>(s, count, out)
}
