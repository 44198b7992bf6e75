// Reading a delivered record under a list of pairs: number 11 of the list, then 10 of the total, 1 to 3 of the blocks, 4, 10 and 9 entry by entry, and 12.
ghost use Rattle.std.specs.Prelude.{◌≡◌, ◌+◌, ◌≤◌, ◌<◌, ℕ, IfOk, IfErr, length, false, Ok};
ghost use Rattle.blocks.specs.Entries.{entries_of};
ghost use Rattle.blocks.specs.Faults.{first, rows_from};
ghost use Rattle.blocks.specs.Owners.{owner_of};
ghost use Rattle.blocks.specs.Reading.{answer};
ghost use Rattle.blocks.specs.Refusals.{refused};
ghost use Rattle.blocks.specs.code.Blockwise.{Whole};
ghost use Rattle.clashes.specs.Clash.{clash_rows};
ghost use Rattle.delivered.specs.Promise.{LegalRecord};
ghost use Rattle.delivered.specs.Reading.{delivered_reading, delivered_rows, total_wrong};
ghost use Rattle.firsts.specs.code.Held.{room_of};
ghost use Rattle.pairs.specs.Pairs.{pair_count};
ghost use Rattle.std.specs.Prelude.{cond};

use crate::single::{Leads, entry_fault};
use blocks::{Cause, Entry, Refusal, entries_in_order};
use clashes::SoundBlocks;
use firsts::Firsts;
use pairs::read_pairs;

/// A delivered record that is accepted under a list of pairs. It borrows the bytes, so that it can be handed on as it is.
#[derive(Clone, Copy)]
pub struct Delivered<'a> {
    bytes: &'a [u8],
    entries: usize,
    items: usize,
    ghost counted: { entries ≡ length (entries_of bytes.now) },
    ghost few: { entries ≤ 2016 },
    ghost whole: { Whole bytes.now entries },
    ghost some: { 1 ≤ items },
    ghost most: { items ≤ 256 },
    ghost legal: { LegalRecord items (entries_of bytes.now) },
}

// Refuses a number of items that a record may not have.
fn check_total(total: usize) -> Result<(), Refusal>
    ensures { result ≡ cond (total_wrong total) (refused Cause.Item 1 0) (Ok tt) }
{
    if total == 0 || 256 < total {
        return Err(Refusal {
            cause: Cause::Item,
            input: 1,
            place: 0,
        });
    }
    Ok(())
}

// Refuses a record by the lowest of its entries that breaks number 4, 10 or 9, with tables of their own, which have room for the links of all. It is
// not inlined, so that its loop has the registers.
#[inline(never)]
fn check_in_tables<const MOST: usize, const CELLS: usize, const KEYS: usize>(
    blocks: SoundBlocks,
    total: usize,
) -> Result<(), Refusal>
    requires { (blocks.total ≤ room_of MOST CELLS KEYS) × (blocks.total ≤ KEYS) × (CELLS ≤ 8192) × (KEYS ≤ 2048) }
    ensures { result ≡ answer 1 tt (first (rows_from (delivered_rows total (entries_of blocks.entry.bytes.now)) 1 (length (entries_of blocks.entry.bytes.now)))) }
{
    let mut firsts = Firsts::<MOST, CELLS, KEYS>::new();
    let mut leads = Leads::<KEYS> {
        items: [0; KEYS],
        used: 0,
    };
    for (before, bytes) in entries_in_order(blocks.bytes(), blocks.total()).enumerate() {
        if let Some(cause) = entry_fault(&mut firsts, &mut leads, total, Entry::from(bytes)) {
            return Err(Refusal {
                cause,
                input: 1,
                place: (before + 1) as u16,
            });
        }
    }
    Ok(())
}

// Refuses a record by the lowest of its entries that breaks number 4, 10 or 9. Few entries take small tables, which are sooner cleared.
fn check_entries(blocks: SoundBlocks, total: usize) -> Result<(), Refusal>
    ensures { result ≡ answer 1 tt (first (rows_from (delivered_rows total (entries_of blocks.entry.bytes.now)) 1 (length (entries_of blocks.entry.bytes.now)))) }
{
    if blocks.total() < 64 {
        return check_in_tables::<64, 194, 64>(blocks, total);
    }
    check_in_tables::<4096, 8130, 2016>(blocks, total)
}

// Refuses a record, whose owners are items, by the lowest of its entries that completes a pair of a list. Where there is none, nothing is looked for.
fn check_pairs(pairs: &[u8], blocks: SoundBlocks) -> Result<(), Refusal>
    requires { (pair_count pairs.now ≤ 64)
        × ((k : ℕ) → 1 ≤ k → k ≤ length (entries_of blocks.bytes.now) → owner_of (entries_of blocks.bytes.now) k < 257) }
    ensures { result ≡ answer 1 tt (first (rows_from (clash_rows pairs.now (entries_of blocks.entry.bytes.now)) 1 (length (entries_of blocks.entry.bytes.now)))) }
{
    if pairs.is_empty() {
        return Ok(());
    }
    match blocks.first_clash(pairs) {
        Some(place) => Err(Refusal {
            cause: Cause::Clash,
            input: 1,
            place: place as u16,
        }),
        None => Ok(()),
    }
}

impl<'a> Delivered<'a> {
    /// Reads a delivered record of `total` items, as input 1, under a list of pairs.
    pub fn read(pairs: &[u8], total: usize, s: &'a [u8]) -> Result<Self, Refusal>
        ensures refused { IfErr result (λ x. delivered_reading pairs.now total s.now ≡ Err x) }
        ensures accepted { IfOk result (λ d. (delivered_reading pairs.now total s.now ≡ Ok d.entries) × (d.bytes.now ≡ s.now) × (d.items ≡ total)) }
    {
        read_pairs(pairs)?;
        check_total(total)?;
        let blocks = SoundBlocks::read(s, 1)?;
        check_entries(blocks, total)?;
        check_pairs(pairs, blocks)?;
        Ok(Delivered {
            bytes: s,
            entries: blocks.total(),
            items: total,
        })
    }

    /// The bytes that hold it.
    pub fn bytes(self) -> &'a [u8]
        ensures { result.now ≡ self.entry.bytes.now }
    {
        self.bytes
    }

    /// How many entries it has.
    pub fn entries(self) -> usize
        ensures { result ≡ length (entries_of self.entry.bytes.now) }
    {
        self.entries
    }

    /// How many items it has, at most 256.
    pub fn items(self) -> usize
        ensures { (result ≡ self.entry.items) × (result ≤ 256) }
    {
        self.items
    }
}
