// Rows that are pushed one after another. One that finds no room is not stored, and the number is then one more than there is room for: so a place
// is written, or only asked whether it has a row, by the same functions.
ghost use Rattle.std.specs.Prelude.{◌≡◌, ◌∷◌, [], ◌+◌, ◌≤◌, length};
ghost use Rattle.std.proofs.Math.Option.{some};
ghost use Rattle.std.specs.List.{flat_map};
ghost use Rattle.logic.specs.Normal.{rank};
ghost use Rattle.logic.specs.Place.{atom};
ghost use Rattle.logic.specs.Tree.{leaf_row};
ghost use Rattle.narrowest.specs.code.Forms.{entries_in, kind_in, option_of};
ghost use Rattle.narrowest.specs.code.Pushes.{Counted, atom_if, leaf_numbers, row_number, shared, shared_value};
ghost use Rattle.narrowest.specs.code.Places.{place_in};
ghost use Rattle.unfolding.specs.code.Rows.{entry_of_row};

use crate::form::{AtomKind, entry_of_row};
use crate::place::PlaceIn;
use blocks::Entry;

// Pushes a number.
pub(crate) fn push(rows: &mut [u64], count: usize, x: u64) -> usize
    requires { count ≤ length rows.old + 1 }
    ensures { Counted (length rows.old) rows.old count (x ∷ []) rows.new result }
{
    if rows.len() <= count {
        return rows.len() + 1;
    }
    rows[count] = x;
    count + 1
}

// Pushes an entry of a kind that lists a number.
pub(crate) fn push_leaf(
    kind: AtomKind,
    owner: u16,
    name: u16,
    number: u16,
    rows: &mut [u64],
    count: usize,
) -> usize
    requires { count ≤ length rows.old + 1 }
    ensures { Counted (length rows.old) rows.old count (row_number (leaf_row owner (atom (kind_in kind) name number)) ∷ []) rows.new result }
{
    let x = blocks::pack(Entry {
        kind: kind.number(),
        reserved: 0,
        owner,
        name,
        number,
    });
    push(rows, count, x)
}

// The number of a kind and name that two places list together: a property, the smaller at least, the larger at most.
fn joined_number(kind: AtomKind, first: u16, second: u16) -> Option<u16>
    ensures { result ≡ option_of (shared_value (kind_in kind) first (some second)) }
{
    match kind {
        AtomKind::Has => Some(0),
        AtomKind::Lacks => None,
        AtomKind::AtLeast => {
            let least = first.min(second);
            (least != 0).then_some(least)
        }
        AtomKind::AtMost => Some(first.max(second)),
    }
}

// Pushes what an entry of a kind of the first place gives, where the second lists a number beside it.
fn push_joined(
    kind: AtomKind,
    owner: u16,
    e: Entry,
    other: u16,
    rows: &mut [u64],
    count: usize,
) -> usize
    requires { count ≤ length rows.old + 1 }
    ensures { Counted (length rows.old) rows.old count
        (leaf_numbers owner (atom_if (kind_in kind) e.name (shared_value (kind_in kind) e.number (some other)))) rows.new result }
{
    match joined_number(kind, e.number, other) {
        Some(number) => push_leaf(kind, owner, e.name, number, rows, count),
        None => count,
    }
}

// Pushes what a packed entry of the first place gives of a kind, beside the second place.
fn push_shared(
    kind: AtomKind,
    owner: u16,
    x: u64,
    second: PlaceIn<'_>,
    near: &mut usize,
    rows: &mut [u64],
    count: usize,
) -> usize
    requires { count ≤ length rows.old + 1 }
    ensures { Counted (length rows.old) rows.old count (leaf_numbers owner (shared (kind_in kind) (place_in second.entry) (entry_of_row x))) rows.new result }
{
    let e = entry_of_row(x);
    if e.kind != kind.number() {
        return count;
    }
    match second.listed_near(kind, e.name, near) {
        Some(other) => push_joined(kind, owner, e, other, rows, count),
        None => count,
    }
}

// Pushes what all entries of the first place give of a kind.
pub(crate) fn push_kind(
    kind: AtomKind,
    owner: u16,
    own: &[u64],
    second: PlaceIn<'_>,
    near: &mut usize,
    rows: &mut [u64],
    count: usize,
) -> usize
    requires { count ≤ length rows.old + 1 }
    ensures { Counted (length rows.old) rows.old count
        (leaf_numbers owner (flat_map (shared (kind_in kind) (place_in second.entry)) (entries_in own.now))) rows.new result }
{
    let mut k = count;
    for x in own {
        k = push_shared(kind, owner, *x, second, near, rows, k);
    }
    k
}
