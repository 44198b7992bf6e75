// The marks of the items that fit a description, where the record and the description are accepted.
ghost use Rattle.std.specs.Prelude.{◌≡◌, ◌≤◌, ◌<◌, ℕ, false, get_or, length};
ghost use Rattle.blocks.specs.Entries.{entries_of};
ghost use Rattle.delivered.specs.Record.{delivered_record};
ghost use Rattle.logic.specs.Record.{fits};
ghost use Rattle.meaning.specs.Description.{place_of};

use crate::facts::{Facts, gather};
use crate::judge::keep_fitting;
use delivered::Delivered;
use places::Places;

// Marks the items that fit, with a table that has room for the facts.
fn mark_by_facts(delivered: Delivered, places: Places, facts: &mut [u64], marks: &mut [bool; 256])
    requires { length facts.old ≡ delivered.entries }
    ensures { (x : ℕ) → x < 256 → get_or marks.new x false ≡ fits (delivered_record delivered.entry.items (entries_of delivered.entry.bytes.now)) (place_of (entries_of places.entry.bytes.now) 0) x }
{
    gather(delivered, facts);
    *marks = [true; 256];
    keep_fitting(Facts { facts }, places, 0, marks);
}

// The same with a table of its own, of fixed size, since there is no heap.
fn mark_in_table<const ROOM: usize>(delivered: Delivered, places: Places, marks: &mut [bool; 256])
    requires { (delivered.entries ≤ ROOM) × (ROOM ≤ 4096) }
    ensures { (x : ℕ) → x < 256 → get_or marks.new x false ≡ fits (delivered_record delivered.entry.items (entries_of delivered.entry.bytes.now)) (place_of (entries_of places.entry.bytes.now) 0) x }
{
    let mut facts = [0u64; ROOM];
    mark_by_facts(delivered, places, &mut facts[..delivered.entries()], marks);
}

// Marks the items that fit. Few entries take a small table, which is sooner cleared. What the marks were does not count.
pub(crate) fn mark_fitting(delivered: Delivered, places: Places, marks: &mut [bool; 256])
    ensures { (x : ℕ) → x < 256 → get_or marks.new x false ≡ fits (delivered_record delivered.entry.items (entries_of delivered.entry.bytes.now)) (place_of (entries_of places.entry.bytes.now) 0) x }
{
    if delivered.entries() < 64 {
        return mark_in_table::<64>(delivered, places, marks);
    }
    mark_in_table::<2016>(delivered, places, marks)
}
