// Entries written as blocks from the start of an output: rows of WIDTH bytes, ROOM of them to a block.
ghost use Rattle.std.specs.Prelude.{◌≡◌, ◌∷◌, [], map, ◌+◌, ◌*◌, ◌<◌, ◌≤◌, length, take, drop, replicate};
ghost use Rattle.base.specs.Stores.{stored};
ghost use Rattle.blocks.specs.Words.{word_bytes};
ghost use Rattle.blocks.specs.Frame.{framed, plain, stored_frame};
ghost use Rattle.blocks.specs.Encoding.{joined, row_bytes_of, block_bytes, blocks_for, framed_bytes, encode_from, bytes_written, framed_written, written};

use blocks::sizes::{BLOCK, ENTRIES, ENTRY, STORED_ENTRIES, STORED_ENTRY};
use blocks::{block_check, block_second};

// The most entries that are written, and in the shorter stored form.
const MOST: usize = 2016;

const MOST_STORED: usize = 1008;

// Stores bytes from an index on.
fn put(out: &mut [u8], at: usize, bytes: &[u8])
    requires { at + length bytes.now ≤ length out.old }
    ensures { out.new ≡ stored out.old at bytes.now }
{
    out[at..at + bytes.len()].copy_from_slice(bytes);
}

// Stores a word, low byte first.
fn put_word(out: &mut [u8], at: usize, x: u16)
    requires { at + 2 ≤ length out.old }
    ensures { out.new ≡ stored out.old at (word_bytes x) }
{
    put(out, at, &x.to_le_bytes());
}

// Stores packed entries, the first WIDTH bytes of each, low byte first.
fn put_rows<const WIDTH: usize>(out: &mut [u8], at: usize, rows: &[u64])
    requires { (WIDTH ≤ 8) × (at + WIDTH * length rows.now ≤ length out.old) }
    ensures { out.new ≡ stored out.old at (joined (map (row_bytes_of WIDTH) rows.now)) }
{
    for (j, row) in rows.iter().enumerate() {
        put(out, at + WIDTH * j, &row.to_le_bytes()[..WIDTH]);
    }
}

// Stores block i, counted from 0: its number, its used count, its entries, zeros, the second sum, and the check.
fn put_block<const WIDTH: usize, const ROOM: usize>(block: &mut [u8], i: u16, rows: &[u64])
    requires { (WIDTH * ROOM ≡ 504) × (WIDTH ≤ 8) × (ROOM ≤ 504) × (length block.old ≡ BLOCK) × (i ≤ 31) × (length rows.now ≤ ROOM) }
    ensures { block.new ≡ block_bytes (framed WIDTH ROOM) i (map (row_bytes_of WIDTH) rows.now) }
{
    put_word(block, 0, i + 1);
    put_word(block, 2, rows.len() as u16);
    put_rows::<WIDTH>(block, 4, rows);
    block[4 + WIDTH * rows.len()..508].fill(0);
    let second = block_second(block, 0);
    put_word(block, 508, second);
    let check = block_check(block, 0);
    put_word(block, 510, check);
}

// The blocks that so many entries take: ROOM to a block, and one block where there is no entry.
fn blocks_for<const WIDTH: usize, const ROOM: usize>(count: usize) -> usize
    requires { 0 < ROOM }
    ensures { result ≡ blocks_for (framed WIDTH ROOM) count }
{
    count.div_ceil(ROOM).max(1)
}

// The bytes that so many entries take.
pub fn bytes_for(count: u16) -> usize
    ensures { (result ≡ BLOCK * blocks_for plain count) × (result ≤ 533504) }
{
    BLOCK * blocks_for::<ENTRY, ENTRIES>(usize::from(count))
}

// Stores the n blocks of packed entries. Blocks are lent by index: of what `chunks_exact_mut` lends only the length is known afterwards.
fn put_blocks<const WIDTH: usize, const ROOM: usize>(out: &mut [u8], rows: &[u64], n: usize)
    requires { (WIDTH * ROOM ≡ 504) × (WIDTH ≤ 8) × (ROOM ≤ 504) × (n ≡ blocks_for (framed WIDTH ROOM) (length rows.now)) × (n ≤ 32) × (BLOCK * n ≤ length out.old) }
    ensures { out.new ≡ stored out.old 0 (encode_from (framed WIDTH ROOM) n 0 (map (row_bytes_of WIDTH) rows.now)) }
{
    for i in 0..n {
        let end = rows.len().min(ROOM * i + ROOM);
        put_block::<WIDTH, ROOM>(
            &mut out[BLOCK * i..BLOCK * i + BLOCK],
            i as u16,
            &rows[ROOM * i..end],
        );
    }
}

// Writes the first `count` packed entries, of WIDTH bytes each, as blocks from the start of the output, and returns the number of bytes written.
#[inline(always)]
fn write_framed<const WIDTH: usize, const ROOM: usize>(
    out: &mut [u8],
    rows: &[u64],
    count: usize,
    most: usize,
) -> usize
    requires { (WIDTH * ROOM ≡ 504) × (WIDTH ≤ 8) × (ROOM ≤ 504) × (most ≤ ROOM * 32) }
    ensures { (result ≡ framed_bytes (framed WIDTH ROOM) most (length out.old) (length rows.now) count)
        × (out.new ≡ framed_written (framed WIDTH ROOM) (row_bytes_of WIDTH) most out.old rows.now count) }
{
    if rows.len() < count || most < count {
        return 0;
    }
    let n = blocks_for::<WIDTH, ROOM>(count);
    if out.len() < BLOCK * n {
        return 0;
    }
    put_blocks::<WIDTH, ROOM>(out, &rows[..count], n);
    BLOCK * n
}

// Writes the first `count` packed entries as blocks from the start of the output, and returns the number of bytes written;
// later bytes stay. Where there are fewer entries, more than 2,016 are asked for, or the output is too short, nothing is
// written and the result is 0: that is the number of bytes written, as of any other call, and no mark. `count` stays beside the entries:
// the call is public, and promises 0 where there are fewer.
pub fn write_entries(out: &mut [u8], rows: &[u64], count: usize) -> usize
    ensures { (result ≡ bytes_written (length out.old) (length rows.now) count)
        × (out.new ≡ written out.old rows.now count) }
{
    write_framed::<ENTRY, ENTRIES>(out, rows, count, MOST)
}

// The same in the shorter stored form, at most 1,008 entries: the low 6 bytes of each packed one.
pub fn write_stored(out: &mut [u8], rows: &[u64], count: usize) -> usize
    ensures { (result ≡ framed_bytes stored_frame 1008 (length out.old) (length rows.now) count)
        × (out.new ≡ framed_written stored_frame (row_bytes_of 6) 1008 out.old rows.now count) }
{
    write_framed::<STORED_ENTRY, STORED_ENTRIES>(out, rows, count, MOST_STORED)
}
