// The entries of a place of the result, pushed kind by kind along the entries of one side.
ghost use Rattle.std.specs.Prelude.{◌≡◌, ◌+◌, ◌≤◌, ◌<◌, ◌++◌, length, map};
ghost use Rattle.std.specs.List.{flat_map};
ghost use Rattle.logic.specs.Normal.{rank};
ghost use Rattle.logic.specs.Place.{kind_of};
ghost use Rattle.narrowest.specs.code.Codes.{along, atoms_in, joined_atoms, knots, whole_atoms};
ghost use Rattle.narrowest.specs.code.Forms.{entries_in, owned_by};
ghost use Rattle.narrowest.specs.code.Knots.{Placed};
ghost use Rattle.narrowest.specs.code.Lacks.{apart, lack_numbers, lacks_of};
ghost use Rattle.narrowest.specs.code.Places.{place_in};
ghost use Rattle.narrowest.specs.code.Pushes.{Counted, leaf_numbers};
ghost use Rattle.sorting.specs.Sorted.{sorted};
ghost use Rattle.unfolding.specs.code.Rows.{entry_of_row};

use crate::form::{AtomKind, entry_of_row};
use crate::lacks::{note_lacks, push_lacks};
use crate::links::push_links;
use crate::paired::Paired;
use crate::rows::{push, push_kind};
use blocks::{Entry, kinds};
use pairs::Exclusions;

impl<'a> Paired<'a> {
    // The entries that the place is written along: the second's where that stands whole, else the first's.
    pub(crate) fn own(self) -> &'a [u64]
        ensures { (entries_in result.now ≡ along (entries_in self.entry.sides.first.form.rows.now) (entries_in self.entry.sides.second.form.rows.now)
            self.entry.sides.first.owner self.entry.sides.second.owner) × (length result.now ≤ 1008) }
    {
        if self.second_alone() {
            return self.sides.second.form.span(self.sides.second.owner).rows;
        }
        self.sides.first.form.span(self.sides.first.owner).rows
    }
}

// The kind that an entry says: what is no other is 'nothing fits'.
#[tactic(auto, unfolding(logic::specs::Place::kind_of))]
fn kind_said(kind: u8) -> u8
    ensures { result ≡ rank (kind_of kind) }
{
    if kind == kinds::HAS
        || kind == kinds::LACKS
        || kind == kinds::AT_LEAST
        || kind == kinds::AT_MOST
    {
        return kind;
    }
    kinds::NOTHING
}

// Pushes a packed entry of a place that stands whole, if it is no 'every'.
fn push_own(owner: u16, x: u64, rows: &mut [u64], count: usize) -> usize
    requires { count ≤ length rows.old + 1 }
    ensures { Counted (length rows.old) rows.old count (leaf_numbers owner (whole_atoms (entry_of_row x))) rows.new result }
{
    let e = entry_of_row(x);
    if e.kind == kinds::EVERY {
        return count;
    }
    let y = blocks::pack(Entry {
        kind: kind_said(e.kind),
        reserved: 0,
        owner,
        name: e.name,
        number: e.number,
    });
    push(rows, count, y)
}

// Pushes those of all entries of such a place.
fn push_whole(owner: u16, own: &[u64], rows: &mut [u64], count: usize) -> usize
    requires { count ≤ length rows.old + 1 }
    ensures { Counted (length rows.old) rows.old count (leaf_numbers owner (flat_map whole_atoms (entries_in own.now))) rows.new result }
{
    let mut k = count;
    for x in own {
        k = push_own(owner, *x, rows, k);
    }
    k
}

// Pushes the lacks of two joined places, in order.
fn push_lacked(
    pair: Paired<'_>,
    near: &mut usize,
    exclusions: Exclusions<'_>,
    owner: u16,
    own: &[u64],
    order: &mut [u64],
    rows: &mut [u64],
    count: usize,
) -> usize
    requires { (count ≤ length rows.old + 1)
        × (length (flat_map (lacks_of exclusions.pairs.now (place_in pair.sides.first) (place_in pair.sides.second))
        (entries_in own.now)) ≤ length order.old) }
    ensures { Counted (length rows.old) rows.old count (lack_numbers owner (apart 65536 (sorted
        (flat_map (lacks_of exclusions.entry.pairs.now (place_in pair.entry.sides.first) (place_in pair.entry.sides.second))
        (entries_in own.now))))) rows.new result }
{
    let n = note_lacks(pair.sides, near, exclusions, own, order);
    let lacks = &mut order[..n];
    sorting::sort(lacks);
    push_lacks(owner, lacks, rows, count)
}

// Pushes what two joined places list beside 'every', kind by kind.
fn push_joined_atoms(
    pair: Paired<'_>,
    exclusions: Exclusions<'_>,
    owner: u16,
    own: &[u64],
    order: &mut [u64],
    rows: &mut [u64],
    count: usize,
) -> usize
    requires { (count ≤ length rows.old + 1)
        × (length (flat_map (lacks_of exclusions.pairs.now (place_in pair.sides.first) (place_in pair.sides.second))
        (entries_in own.now)) ≤ length order.old)
        × (entries_in own.now ≡ owned_by pair.sides.first.owner (entries_in pair.sides.first.form.rows.now)) }
    ensures { Counted (length rows.old) rows.old count (leaf_numbers owner
        (joined_atoms exclusions.entry.pairs.now (entries_in pair.entry.sides.first.form.rows.now) (entries_in pair.entry.sides.second.form.rows.now)
        pair.entry.sides.first.owner pair.entry.sides.second.owner)) rows.new result }
{
    let second = pair.sides.second;
    let mut near = second.start();
    let h = push_kind(AtomKind::Has, owner, own, second, &mut near, rows, count);
    let k = push_lacked(pair, &mut near, exclusions, owner, own, order, rows, h);
    let a = push_kind(AtomKind::AtLeast, owner, own, second, &mut near, rows, k);
    push_kind(AtomKind::AtMost, owner, own, second, &mut near, rows, a)
}

// Pushes what a place of the result lists beside 'every'.
fn push_atoms(
    pair: Paired<'_>,
    exclusions: Exclusions<'_>,
    owner: u16,
    own: &[u64],
    order: &mut [u64],
    rows: &mut [u64],
    count: usize,
) -> usize
    requires { (count ≤ length rows.old + 1)
        × (length (flat_map (lacks_of exclusions.pairs.now (place_in pair.sides.first) (place_in pair.sides.second))
        (owned_by pair.sides.first.owner (entries_in pair.sides.first.form.rows.now))) ≤ length order.old)
        × (entries_in own.now ≡ along (entries_in pair.sides.first.form.rows.now) (entries_in pair.sides.second.form.rows.now)
        pair.sides.first.owner pair.sides.second.owner) }
    ensures { Counted (length rows.old) rows.old count (leaf_numbers owner
        (atoms_in exclusions.entry.pairs.now (entries_in pair.entry.sides.first.form.rows.now) (entries_in pair.entry.sides.second.form.rows.now)
        pair.entry.sides.first.owner pair.entry.sides.second.owner)) rows.new result }
{
    if pair.first_alone() {
        return push_whole(owner, own, rows, count);
    }
    if pair.second_alone() {
        return push_whole(owner, own, rows, count);
    }
    push_joined_atoms(pair, exclusions, owner, own, order, rows, count)
}

// Pushes all entries of a place of the result, and notes the places below its 'every' entries.
pub(crate) fn push_place(
    pair: Paired<'_>,
    exclusions: Exclusions<'_>,
    owner: u16,
    order: &mut [u64],
    rows: &mut [u64],
    below: &mut [u32],
    count: usize,
) -> usize
    requires { (count ≤ length rows.old + 1) × (length rows.old < length below.old) × (1136 ≤ length order.old) }
    ensures { Placed (length rows.old) rows.old count owner
        (atoms_in exclusions.entry.pairs.now (entries_in pair.entry.sides.first.form.rows.now) (entries_in pair.entry.sides.second.form.rows.now)
        pair.entry.sides.first.owner pair.entry.sides.second.owner)
        (knots (entries_in pair.entry.sides.first.form.rows.now) (entries_in pair.entry.sides.second.form.rows.now) pair.entry.mates.now
        pair.entry.sides.first.owner pair.entry.sides.second.owner) below.old rows.new result below.new }
{
    let own = pair.own();
    let k = push_atoms(pair, exclusions, owner, own, order, rows, count);
    push_links(pair, owner, own, order, rows, below, k)
}
