// The description of a desk, written out as blocks.
ghost use Rattle.std.specs.Prelude.{◌≡◌, ◌*◌, ◌≤◌, length, map};
ghost use Rattle.base.specs.Stores.{stored};
ghost use Rattle.blocks.specs.Entries.{entry_from, packed};
ghost use Rattle.drafts.specs.Answer.{output_after, write_answer};

use crate::sound::is_desk;
use blocks::sizes::ENTRY;
use blocks::{Cause, Entry, Refusal, pack};
use drafts::Desk;
use writing::{bytes_for, write_entries};

// Entries as numbers, from the start of a table.
fn pack_rows(bytes: &[[u8; 8]], rows: &mut [u64; 1008])
    requires { length bytes.now ≤ 1008 }
    ensures { rows.new ≡ stored rows.old 0 (map (λ b. packed (entry_from b 0)) bytes.now) }
{
    for (j, b) in bytes.iter().enumerate() {
        rows[j] = pack(Entry::from(b));
    }
}

// Writes the description out.
pub(crate) fn write_out(desk: Desk, memory: &[u8], out: &mut [u8]) -> Result<u16, Refusal>
    ensures { (result ≡ write_answer desk memory.now out.old) × (out.new ≡ output_after desk memory.now out.old) }
{
    if !is_desk(desk, memory) {
        return Err(Refusal {
            cause: Cause::Desk,
            input: 1,
            place: 0,
        });
    }
    if out.len() < bytes_for(desk.count) {
        return Err(Refusal {
            cause: Cause::Room,
            input: 0,
            place: 0,
        });
    }
    let count = usize::from(desk.count);
    let mut rows = [0u64; 1008];
    pack_rows(memory[..ENTRY * count].as_chunks::<8>().0, &mut rows);
    write_entries(out, &rows, count);
    Ok(desk.count)
}
