// The call: the list of pairs, the dictionary, the record and the description are read, in this order, and then all bytes are written or none.
ghost use Rattle.std.specs.Prelude.{◌≡◌, ◌<◌, ◌≤◌, ℕ, [], false, get_or, length, IfOk};
ghost use Rattle.base.specs.Range.{bit};
ghost use Rattle.blocks.specs.Entries.{entries_of};
ghost use Rattle.items.specs.Answer.{items_of, items_reading, marked_of};
ghost use Rattle.items.specs.code.Record.{Marked};

use crate::sent::{mark_sent, mark_unfolded};
use blocks::{Cause, Refusal};
use delivered::Delivered;
use pairs::read_pairs;
use unfolding::{Dictionary, Tables};

// With a dictionary of length 0: marks the items that fit the description as it is sent.
fn mark_plain(
    pairs: &[u8],
    total: usize,
    delivered: &[u8],
    description: &[u8],
    marks: &mut [bool; 256],
) -> Result<u16, Refusal>
    ensures reading { result ≡ items_reading pairs.now [] total delivered.now description.now }
    ensures marked { IfOk result (λ n. Marked [] total (entries_of delivered.now) description.now marks.new) }
{
    let accepted = Delivered::read(pairs, total, delivered)?;
    mark_sent(accepted, description, marks)
}

// With a dictionary that is not of length 0, which is read before the record: marks the items that fit what the description stands for.
fn mark_named(
    pairs: &[u8],
    dictionary: &[u8],
    total: usize,
    delivered: &[u8],
    description: &[u8],
    marks: &mut [bool; 256],
) -> Result<u16, Refusal>
    requires { 0 < length dictionary.now }
    ensures reading { result ≡ items_reading pairs.now dictionary.now total delivered.now description.now }
    ensures marked { IfOk result (λ n. Marked dictionary.now total (entries_of delivered.now) description.now marks.new) }
{
    read_pairs(pairs)?;
    let mut tables = Tables::new();
    let names = Dictionary::read(dictionary, &mut tables)?;
    let accepted = Delivered::read(pairs, total, delivered)?;
    let mut buffer = [0u8; 8192];
    mark_unfolded(names, accepted, description, &mut buffer, marks)
}

// Marks the items that fit, under a dictionary or none.
fn mark_items(
    pairs: &[u8],
    dictionary: &[u8],
    total: usize,
    delivered: &[u8],
    description: &[u8],
    marks: &mut [bool; 256],
) -> Result<u16, Refusal>
    ensures reading { result ≡ items_reading pairs.now dictionary.now total delivered.now description.now }
    ensures marked { IfOk result (λ n. Marked dictionary.now total (entries_of delivered.now) description.now marks.new) }
{
    if dictionary.is_empty() {
        return mark_plain(pairs, total, delivered, description, marks);
    }
    mark_named(pairs, dictionary, total, delivered, description, marks)
}

// Writes a byte for each of the first n items, 1 where it is marked.
fn put_bytes(marks: &[bool; 256], n: usize, out: &mut [u8])
    requires { (n ≤ 256) × (n ≤ length out.old) }
    ensures long { length out.new ≡ length out.old }
    ensures here { (x : ℕ) → x < n → get_or out.new x 0 ≡ bit (get_or marks.now x false) }
    ensures later { (x : ℕ) → n ≤ x → get_or out.new x 0 ≡ get_or out.old x 0 }
{
    for x in 0..n {
        out[x] = u8::from(marks[x]);
    }
}

/// Judges each item of a delivered record, input 1, of `total` items, by a description, input 2, under a list of pairs and a dictionary. Items may be
/// shared, and links may go round. It writes one byte for each item from the start of the output, 1 where it fits the description, else 0; later
/// bytes stay. Returns the number of items.
///
/// Refused, the first that applies: the pairs; the dictionary; as input 1 a total of 0 or above 256, and the record in full; the description in full;
/// an output of fewer bytes than there are items. A refusal writes nothing.
pub fn fit_items(
    pairs: &[u8],
    dictionary: &[u8],
    total: usize,
    delivered: &[u8],
    description: &[u8],
    out: &mut [u8],
) -> Result<u16, Refusal>
    ensures { (result ≡ items_of pairs.now dictionary.now total delivered.now description.now out.old)
        × (out.new ≡ marked_of pairs.now dictionary.now total delivered.now description.now out.old) }
{
    let mut marks = [false; 256];
    mark_items(pairs, dictionary, total, delivered, description, &mut marks)?;
    if out.len() < total {
        return Err(Refusal {
            cause: Cause::Room,
            input: 0,
            place: 0,
        });
    }
    put_bytes(&marks, total, out);
    Ok(total as u16)
}
