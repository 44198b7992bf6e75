// Reading an input: number 1 by its length, then its blocks, then its entries.
ghost use Rattle.std.specs.Prelude.{◌≡◌, ◌∷◌, ◌*◌, ◌-◌, ◌≤◌, MatchOption, false, length, true};
ghost use Rattle.blocks.specs.Frame.{framed, plain, stored_frame, blocks_in, used_in, total_in};
ghost use Rattle.blocks.specs.Entries.{limit_of, entries_of};
ghost use Rattle.blocks.specs.Faults.{block_faults, entry_faults, fault, first, frame_faults, length_over, length_wrong};
ghost use Rattle.blocks.specs.Reading.{answer, reading_of};
ghost use Rattle.blocks.specs.code.Blockwise.{Whole};
ghost use Rattle.blocks.specs.declared.Schema.{Schema};

use crate::frame::check_frames;
use crate::single::check_entries;
use blocks::sizes::{BLOCK, ENTRIES, ENTRY, STORED_ENTRIES, STORED_ENTRY};
use blocks::{Cause, Refusal, Schema, word};

// The most blocks that an input may have.
fn limit_of(schema: Schema) -> usize
    ensures { (result ≡ limit_of schema) × (result ≤ 32) }
{
    match schema {
        Schema::Description | Schema::Named(_) => 16,
        Schema::Specimen => 32,
    }
}

// The blocks of an input, if number 1 allows its length, which is at most so many blocks.
fn blocks_read(s: &[u8], most: usize) -> Option<usize>
    requires { most ≤ 32 }
    ensures { MatchOption result (length_over most s.now ≡ true)
        (λ n. (length_over most s.now ≡ false) × (n ≡ blocks_in s.now) × (1 ≤ n) × (n ≤ 32) × (BLOCK * n ≤ length s.now)) }
{
    let n = s.len();
    if n == 0 {
        return None;
    }
    if n % BLOCK != 0 {
        return None;
    }
    if most < n / BLOCK {
        return None;
    }
    Some(n / BLOCK)
}

// How many entries n blocks have whose frames are sound.
fn entries_in<const WIDTH: usize, const ROOM: usize>(s: &[u8], n: usize) -> usize
    requires { (ROOM ≤ 504) × (1 ≤ n) × (n ≤ 32) × (n ≡ blocks_in s.now) × (used_in s.now (n - 1) ≤ ROOM) }
    ensures { (result ≡ total_in (framed WIDTH ROOM) s.now) × (result ≤ 16128) }
{
    let last = n - 1;
    ROOM * last + usize::from(word(s, BLOCK * last + 2))
}

// Reads the entries of an input whose blocks are sound.
fn read_entries(s: &[u8], schema: Schema, input: u16, total: u16) -> Result<u16, Refusal>
    requires { (total ≡ length (entries_of s.now)) × (total ≤ 2016) × Whole s.now total }
    ensures { result ≡ answer input total (first (entry_faults schema (entries_of s.now) 1 total)) }
{
    check_entries(s, schema, usize::from(total), input)?;
    Ok(total)
}

// Reads the blocks of an input, of entries of WIDTH bytes, ROOM of them to a block: how many entries these are, or the refusal by number 1, 2 or 3.
#[inline(always)]
fn read_framed<const WIDTH: usize, const ROOM: usize>(
    s: &[u8],
    most: usize,
    input: u16,
) -> Result<u16, Refusal>
    requires { (WIDTH * ROOM ≡ 504) × (ROOM ≤ 504) × (most ≤ 32) }
    ensures { result ≡ answer input (total_in (framed WIDTH ROOM) s.now) (first (frame_faults (framed WIDTH ROOM) most s.now)) }
{
    let Some(n) = blocks_read(s, most) else {
        return Err(Refusal {
            cause: Cause::Length,
            input,
            place: 0,
        });
    };
    check_frames::<WIDTH, ROOM>(s, n, input)?;
    Ok(entries_in::<WIDTH, ROOM>(s, n) as u16)
}

// Reads the blocks of an input and not its entries: how many these are, or the refusal by number 1, 2 or 3. It stands in each function that calls it.
#[inline(always)]
#[tactic(auto, unfolding(blocks::specs::Faults::length_wrong))]
pub fn read_blocks(s: &[u8], schema: Schema, input: u16) -> Result<u16, Refusal>
    ensures { result ≡ answer input (total_in plain s.now) (first (fault (length_wrong schema s.now) Cause.Length 0 ∷ block_faults plain s.now (blocks_in s.now) 0 (blocks_in s.now))) }
{
    read_framed::<ENTRY, ENTRIES>(s, limit_of(schema), input)
}

// The same of an input in the shorter stored form: of at most 12 blocks.
pub fn read_stored_blocks(s: &[u8], input: u16) -> Result<u16, Refusal>
    ensures { result ≡ answer input (total_in stored_frame s.now) (first (frame_faults stored_frame 12 s.now)) }
{
    read_framed::<STORED_ENTRY, STORED_ENTRIES>(s, 12, input)
}

// Reads an input as a description, with or without names, or a specimen: its number of entries, or the refusal by the first number that applies. The
// input's own number is only handed on, into the refusal.
pub fn read(s: &[u8], schema: Schema, input: u16) -> Result<u16, Refusal>
    ensures { result ≡ reading_of schema input s.now }
{
    let total = read_blocks(s, schema, input)?;
    read_entries(s, schema, input, total)
}

// Reads a description as input 1: 1 to 16 blocks of entries of kinds 1 to 6.
pub fn read_description(s: &[u8]) -> Result<u16, Refusal>
    ensures { result ≡ reading_of Schema.Description 1 s.now }
{
    read(s, Schema::Description, 1)
}

// Reads a specimen as input 1: 1 to 32 blocks of entries of kinds 1 and 7.
pub fn read_specimen(s: &[u8]) -> Result<u16, Refusal>
    ensures { result ≡ reading_of Schema.Specimen 1 s.now }
{
    read(s, Schema::Specimen, 1)
}
