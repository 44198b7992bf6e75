// The calls: one description, and two under one dictionary.
ghost use Rattle.std.specs.Prelude.{◌≡◌, [], ℕ, ◌*◌, ◌≤◌, ◌<◌, false, length, true};
ghost use Rattle.blocks.specs.Encoding.{blocks_for, encode};
ghost use Rattle.blocks.specs.Entries.{entries_of};
ghost use Rattle.blocks.specs.Frame.{plain};
ghost use Rattle.names.specs.NamedReading.{dictionary_of, named_unfolding};
ghost use Rattle.names.specs.Unfold.{unfolded_by};
ghost use Rattle.unfolding.specs.Answer.{both_of, over, second_after, unfold_at, unfolded_at};

use crate::contents::unfold_rows;
use crate::dictionary::{Dictionary, read_named};
use crate::rows::Rows;
use crate::tables::Tables;
use blocks::sizes::BLOCK;
use blocks::{Cause, Refusal};
use writing::write_entries;

// Reads a description, under a dictionary, and leaves its entries, unfolded, in a table that is empty before.
fn unfold_read(
    dictionary: Dictionary,
    d: &[u8],
    input: u16,
    rows: &mut Rows,
) -> Result<u16, Refusal>
    requires { rows.old ≡ [] }
    ensures { (result ≡ named_unfolding (dictionary_of dictionary.entry.bytes.now) input d.now)
        × ((n : ℕ) → result ≡ Ok n → (rows.new ≡ unfolded_by (dictionary_of dictionary.entry.bytes.now) (entries_of d.now)) × (length rows.new ≤ 1008)) }
{
    let m = read_named(d, input, dictionary.tables)?;
    unfold_rows(dictionary, d, usize::from(m.total), rows);
    Ok(rows.len() as u16)
}

// Writes the entries of a table as blocks from the start of an output; false, and no byte changes, where it is too short.
fn write_rows(out: &mut [u8], rows: &Rows) -> bool
    requires { length rows.now ≤ 1008 }
    ensures short { result ≡ false → (length out.old < BLOCK * blocks_for plain (length rows.now)) × (out.new ≡ out.old) }
    ensures long { result ≡ true → (BLOCK * blocks_for plain (length rows.now) ≤ length out.old) × (out.new ≡ over (encode rows.now) out.old) }
{
    let numbers = rows.numbers();
    write_entries(out, numbers, numbers.len()) != 0
}

impl Dictionary<'_> {
    // Reads a description, an input of any number, and writes the plain description that it stands for in blocks from the start of an output;
    // returns its number of entries. Later bytes stay. Where it is refused, or the output is shorter than what would be written, the refusal is
    // returned and no byte changes. An output of 8,192 bytes is never too short.
    pub fn unfold_into(self, d: &[u8], input: u16, out: &mut [u8]) -> Result<u16, Refusal>
        ensures { (result ≡ unfold_at self.entry.bytes.now input d.now out.old) × (out.new ≡ unfolded_at self.entry.bytes.now input d.now out.old) }
    {
        let mut rows = Rows::new();
        let n = unfold_read(self, d, input, &mut rows)?;
        if !write_rows(out, &rows) {
            return Err(Refusal {
                cause: Cause::Room,
                input: 0,
                place: 0,
            });
        }
        Ok(n)
    }
}

// Reads a dictionary and a description, an input of any number, and unfolds it to an output, as `Dictionary::unfold_into` does. A dictionary that is
// refused changes no byte either. Here and in `unfold_both` the dictionary is read first, into tables of the call's own.
pub fn unfold_into(dictionary: &[u8], d: &[u8], input: u16, out: &mut [u8]) -> Result<u16, Refusal>
    ensures { (result ≡ unfold_at dictionary.now input d.now out.old) × (out.new ≡ unfolded_at dictionary.now input d.now out.old) }
{
    let mut tables = Tables::new();
    let dictionary = Dictionary::read(dictionary, &mut tables)?;
    dictionary.unfold_into(d, input, out)
}

// The unfolding: the same for input 1.
pub fn unfold(dictionary: &[u8], d: &[u8], out: &mut [u8]) -> Result<u16, Refusal>
    ensures { (result ≡ unfold_at dictionary.now 1 d.now out.old) × (out.new ≡ unfolded_at dictionary.now 1 d.now out.old) }
{
    unfold_into(dictionary, d, 1, out)
}

// Two descriptions, inputs 1 and 2, under one dictionary: how many entries each has then.
fn unfold_two(
    dictionary: Dictionary,
    c: &[u8],
    d: &[u8],
    a: &mut [u8],
    b: &mut [u8],
) -> Result<(u16, u16), Refusal>
    ensures { (result ≡ both_of dictionary.entry.bytes.now c.now d.now a.old b.old) × (a.new ≡ unfolded_at dictionary.entry.bytes.now 1 c.now a.old)
        × (b.new ≡ second_after dictionary.entry.bytes.now c.now d.now a.old b.old) }
{
    let n = dictionary.unfold_into(c, 1, a)?;
    let m = dictionary.unfold_into(d, 2, b)?;
    Ok((n, m))
}

// Unfolds two descriptions, inputs 1 and 2, to two outputs, and returns how many entries each has then; the dictionary is read once.
pub fn unfold_both(
    dictionary: &[u8],
    c: &[u8],
    d: &[u8],
    a: &mut [u8],
    b: &mut [u8],
) -> Result<(u16, u16), Refusal>
    ensures { (result ≡ both_of dictionary.now c.now d.now a.old b.old) × (a.new ≡ unfolded_at dictionary.now 1 c.now a.old)
        × (b.new ≡ second_after dictionary.now c.now d.now a.old b.old) }
{
    let mut tables = Tables::new();
    let dictionary = Dictionary::read(dictionary, &mut tables)?;
    unfold_two(dictionary, c, d, a, b)
}
