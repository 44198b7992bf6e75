// From a description to the stored form: place by place, each entry followed by what it owns.
ghost use Rattle.std.specs.Prelude.{◌≡◌, ◌+◌, ◌≤◌, length, map};
ghost use Rattle.base.specs.Stores.{stored};
ghost use Rattle.blocks.specs.Entries.{entries_of};
ghost use Rattle.blocks.specs.Reading.{reading_of};
ghost use Rattle.blocks.specs.declared.Schema.{Schema};
ghost use Rattle.places.specs.Owned.{with_room};
ghost use Rattle.stored.specs.Answer.{stored_in, stored_of};
ghost use Rattle.stored.specs.Walked.{at_depth};
ghost use Rattle.stored.specs.code.Steps.{DeepAt, packed_walk};

use crate::StoredEntry;
use crate::entries::pack_stored;
use blocks::sizes::BLOCK;
use blocks::{Cause, Entry, Refusal, kinds};
use places::{PlaceTables, Places};
use writing::write_stored;

// An entry of a description, as one of the stored form.
fn placed(e: Entry, depth: u8) -> StoredEntry
    ensures { result ≡ at_depth depth e }
{
    StoredEntry {
        kind: e.kind,
        depth,
        name: e.name,
        number: e.number,
    }
}

// Stores the rows of the place that entry `o` owns, whose entries have this depth, from index `at` on: where they end.
// It calls itself for what an 'every' owns, which stands after it.
fn store_place(places: &Places, o: usize, depth: u8, rows: &mut [u64], at: usize) -> usize
    requires { (o ≤ length (entries_of places.now.bytes.now)) × DeepAt (entries_of places.now.bytes.now) o depth
        × (at + length (packed_walk (entries_of places.now.bytes.now) o depth) ≤ length rows.old) }
    ensures { (result ≡ at + length (packed_walk (entries_of places.now.bytes.now) o depth))
        × (rows.new ≡ stored rows.old at (packed_walk (entries_of places.now.bytes.now) o depth)) }
{
    let mut end = at;
    let mut next = places.begin(o);
    while let Some(n) = next {
        let e = places.entry(n);
        rows[end] = pack_stored(placed(e, depth));
        end += 1;
        if e.kind == kinds::EVERY {
            end = store_place(places, n, depth + 1, rows, end);
        }
        next = places.after(n);
    }
    end
}

// Writes a description in the stored form, with tables of N cells, which have room for its entries.
fn store_in<const N: usize>(d: &[u8], out: &mut [u8]) -> Result<u16, Refusal>
    requires { (N ≤ 1009) × (with_room N (reading_of Schema.Description 1 d.now) ≡ reading_of Schema.Description 1 d.now) }
    ensures { (result ≡ stored_of d.now out.old) × (out.new ≡ stored_in d.now out.old) }
{
    let mut tables = PlaceTables::<N>::new();
    let places = Places::read(d, 1, &mut tables)?;
    let mut rows = [0u64; N];
    let total = store_place(&places, 0, 0, &mut rows, 0);
    if write_stored(out, &rows, total) == 0 {
        return Err(Refusal {
            cause: Cause::Room,
            input: 0,
            place: 0,
        });
    }
    Ok(total as u16)
}

/// Writes a description in the stored form from the start of the output: its number of entries. They stand in walking
/// order, each followed by what it owns, and the entries of one owner by their numbers. Later bytes stay.
///
/// Refused, the first that applies: the description in full, as input 1; an output shorter than what is written. A
/// refusal writes nothing.
pub fn to_stored(d: &[u8], out: &mut [u8]) -> Result<u16, Refusal>
    ensures { (result ≡ stored_of d.now out.old) × (out.new ≡ stored_in d.now out.old) }
{
    // Few entries take small tables, which are sooner cleared.
    if d.len() <= BLOCK {
        return store_in::<64>(d, out);
    }
    if d.len() <= 4 * BLOCK {
        return store_in::<256>(d, out);
    }
    store_in::<1009>(d, out)
}
