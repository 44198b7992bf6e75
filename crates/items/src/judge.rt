// Which items fit a place: all items of the record at once, entry by entry of the place.
ghost use Rattle.std.specs.Prelude.{◌≡◌, ◌+◌, ◌*◌, ◌&&◌, ◌<◌, ◌≤◌, ◌≢◌, ℕ, false, get_or, leb};
ghost use Rattle.blocks.specs.Entries.{entries_of};
ghost use Rattle.items.specs.code.Record.{record_in};
ghost use Rattle.logic.specs.Record.{fits, meets, successors};
ghost use Rattle.meaning.specs.Description.{atom_of, place_of};

use crate::facts::Facts;
use crate::marks::{count_targets, keep_every, keep_having, keep_lacking};
use blocks::{Entry, kinds};
use places::Places;

// What facts say that give a property, and those that link.
fn giving(e: Entry) -> u64
    ensures { result ≡ 2 * e.name }
{
    2 * u64::from(e.name)
}

fn linking(e: Entry) -> u64
    ensures { result ≡ 2 * e.name + 1 }
{
    2 * u64::from(e.name) + 1
}

// Leaves the items that are linked to at least n others.
fn keep_least(degrees: &[u16; 256], n: u16, marks: &mut [bool; 256])
    ensures { (x : ℕ) → x < 256 → get_or marks.new x false ≡ (get_or marks.old x false && leb n (get_or degrees.now x 0)) }
{
    for x in 0..256 {
        marks[x] = marks[x] & (n <= degrees[x]);
    }
}

// Leaves the items that are linked to at most n others.
fn keep_most(degrees: &[u16; 256], n: u16, marks: &mut [bool; 256])
    ensures { (x : ℕ) → x < 256 → get_or marks.new x false ≡ (get_or marks.old x false && leb (get_or degrees.now x 0) n) }
{
    for x in 0..256 {
        marks[x] = marks[x] & (degrees[x] <= n);
    }
}

// Leaves the items that meet an entry which is no 'every'.
fn keep_meeting(facts: Facts, e: Entry, marks: &mut [bool; 256])
    requires { e.kind ≢ 5 }
    ensures { (x : ℕ) → x < 256 → get_or marks.new x false ≡ (get_or marks.old x false && meets (record_in facts.entry.facts.now) (atom_of e) x) }
{
    match e.kind {
        kinds::HAS => keep_having(facts.saying(giving(e)), marks),
        kinds::LACKS => keep_lacking(facts.saying(giving(e)), marks),
        kinds::AT_LEAST => {
            let mut degrees = [0u16; 256];
            count_targets(facts.saying(linking(e)), &mut degrees);
            keep_least(&degrees, e.number, marks)
        }
        kinds::AT_MOST => {
            let mut degrees = [0u16; 256];
            count_targets(facts.saying(linking(e)), &mut degrees);
            keep_most(&degrees, e.number, marks)
        }
        _ => *marks = [false; 256],
    }
}

// Leaves the items that fit the place which entry o owns. It calls itself for what an 'every' owns, which stands after it.
pub(crate) fn keep_fitting(facts: Facts, places: Places, o: usize, marks: &mut [bool; 256])
    requires { o ≤ places.total }
    ensures { (x : ℕ) → x < 256 → get_or marks.new x false ≡ (get_or marks.old x false && fits (record_in facts.entry.facts.now) (place_of (entries_of places.entry.bytes.now) o) x) }
{
    let mut at = places.begin(o).unwrap_or(0);
    while at != 0 {
        let e = places.entry(at);
        if e.kind == kinds::EVERY {
            let mut below = [true; 256];
            keep_fitting(facts, places, at, &mut below);
            keep_every(facts.saying(linking(e)), &below, marks);
        } else {
            keep_meeting(facts, e, marks);
        }
        at = places.after(at).unwrap_or(0);
    }
}
