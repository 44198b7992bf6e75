// Reading a field sheet: its blocks as of any description, then its entries, gone over once.
ghost use Rattle.std.specs.Prelude.{◌≡◌, ◌≤◌, ◌<◌, length};
ghost use Rattle.blocks.specs.Entries.{entries_of};
ghost use Rattle.blocks.specs.Faults.{first, rows_from};
ghost use Rattle.blocks.specs.Reading.{answer};
ghost use Rattle.blocks.specs.code.Blockwise.{Whole};
ghost use Rattle.blocks.specs.declared.Schema.{Schema};
ghost use Rattle.sheets.specs.Sheet.{sheet_reading, sheet_rows};

use crate::profile::sheet_refusal;
use blocks::{Entry, Refusal, Schema, entries_in_order};
use reading::{level_under, owner_level, read_blocks};

// The lowest of `total` entries that breaks number 4, 5, 6 or 19, with a table that has room for the level of each, as
// for reading.
#[inline(always)]
fn fault_by_levels(s: &[u8], total: usize, level: &mut [u8]) -> Result<(), Refusal>
    requires { (total ≡ length (entries_of s.now)) × (total ≤ 1008) × Whole s.now total × (total < length level.old) }
    ensures { result ≡ answer 1 tt (first (rows_from (sheet_rows (entries_of s.now)) 1 total)) }
{
    level[0] = 1;
    for (before, bytes) in entries_in_order(s, total).enumerate() {
        let e = Entry::from(bytes);
        let n = before + 1;
        let l = owner_level(&level[..n], e.owner);
        if let Some(cause) = sheet_refusal(e, l) {
            return Err(Refusal {
                cause,
                input: 1,
                place: n as u16,
            });
        }
        level[n] = level_under(Schema::Description, e.kind, l);
    }
    Ok(())
}

// The same with a table of N levels: of fixed size, since there is no heap.
#[inline(always)]
fn fault_in_table<const N: usize>(s: &[u8], total: usize) -> Result<(), Refusal>
    requires { (total ≡ length (entries_of s.now)) × (total < N) × (N ≤ 1009) × Whole s.now total }
    ensures { result ≡ answer 1 tt (first (rows_from (sheet_rows (entries_of s.now)) 1 total)) }
{
    let mut level = [0u8; N];
    fault_by_levels(s, total, &mut level)
}

// Reads the entries of a sheet whose blocks are sound. Few entries take a small table, which is sooner cleared.
fn check_entries(s: &[u8], total: usize) -> Result<(), Refusal>
    requires { (total ≡ length (entries_of s.now)) × (total ≤ 1008) × Whole s.now total }
    ensures { result ≡ answer 1 tt (first (rows_from (sheet_rows (entries_of s.now)) 1 total)) }
{
    if total < 64 {
        return fault_in_table::<64>(s, total);
    }
    fault_in_table::<1009>(s, total)
}

// The entries, and how many they are.
fn read_entries(s: &[u8], total: u16) -> Result<u16, Refusal>
    requires { (total ≡ length (entries_of s.now)) × (total ≤ 1008) × Whole s.now total }
    ensures { result ≡ answer 1 total (first (rows_from (sheet_rows (entries_of s.now)) 1 total)) }
{
    check_entries(s, usize::from(total))?;
    Ok(total)
}

/// Reads a field sheet as input 1: 1 to 16 blocks of entries of kinds 1, 3, 4 and 5, with numbers of at most 99, at
/// most 3 links deep. Its number of entries, or the refusal by the first number that applies: those of any description,
/// and at an entry after these 19, where it is outside the profile.
pub fn read_sheet(s: &[u8]) -> Result<u16, Refusal>
    ensures { result ≡ sheet_reading s.now }
{
    let total = read_blocks(s, Schema::Description, 1)?;
    read_entries(s, total)
}
