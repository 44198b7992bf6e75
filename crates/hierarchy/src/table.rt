// A table of containment as words of 64 bits, one for each row: gathered from bytes, 1 or 0, whose rows are 64 apart, and
// written as bytes, one row behind the other.
ghost use Rattle.std.specs.Prelude.{◌≡◌, ◌<◌, ◌≤◌, ◌+◌, ◌*◌, ℕ, eqb, get_or, length};
ghost use Rattle.std.specs.Int.{bit_at};
ghost use Rattle.base.specs.Stores.{stored};
ghost use Rattle.blocks.specs.Encoding.{joined};
ghost use Rattle.hierarchy.specs.code.Words.{Flat, Rows, Told, bits_in, cell, rows_in, turned};

// n bytes of a table, from a place on and so many apart, as a word: the first as its lowest bit. The last is taken first, so
// that a step is one sum.
#[inline(always)]
fn gather(table: &[u8; 4096], n: usize, from: usize, apart: usize) -> u64
    requires { (n ≤ 64) × ((j : ℕ) → j < n → (from + apart * j < 4096) × (get_or table.now (from + apart * j) 0 ≤ 1)) }
    ensures { Told (λ j. eqb (get_or table.now (from + apart * j) 0) 1) n result }
{
    let mut word = 0;
    for j in 0..n {
        word = 2 * word + u64::from(table[from + apart * (n - 1 - j)]);
    }
    word
}

// The rows of a table, and its columns.
pub(crate) fn gather_rows(table: &[u8; 4096], n: usize, up: &mut [u64; 64], down: &mut [u64; 64])
    requires { (n ≤ 64) × Flat n table.now }
    ensures { Rows (cell table.now) n n up.new × Rows (turned (cell table.now)) n n down.new }
{
    for i in 0..n {
        up[i] = gather(table, n, 64 * i, 1);
        down[i] = gather(table, n, i, 64);
    }
}

// Whether a word has bit k.
pub(crate) fn has(word: u64, k: usize) -> bool
    requires { k < 64 }
    ensures { result ≡ eqb (bit_at word k) 1 }
{
    word >> k & 1 == 1
}

// Writes n bits of a word, a byte for each, from a place of the output on.
fn put_row(word: u64, n: usize, out: &mut [u8], at: usize)
    requires { (n ≤ 64) × (at + n ≤ length out.old) }
    ensures { out.new ≡ stored out.old at (bits_in n word) }
{
    for j in 0..n {
        out[at + j] = (word >> j & 1) as u8;
    }
}

// Writes n bits of each of n words, and returns the place behind them.
pub(crate) fn put_rows(rows: &[u64; 64], n: usize, out: &mut [u8], at: usize) -> usize
    requires { (n ≤ 64) × (at + length (joined (rows_in rows.now n)) ≤ length out.old) }
    ensures { (out.new ≡ stored out.old at (joined (rows_in rows.now n))) × (result ≡ at + length (joined (rows_in rows.now n))) }
{
    let mut behind = at;
    for i in 0..n {
        put_row(rows[i], n, out, behind);
        behind += n;
    }
    behind
}
