// The 'every' entries of a place of the result: the links below which something stands, found along the entries of a side, put in order, and each
// pushed once, with the code of the place below it.
ghost use Rattle.std.specs.Prelude.{◌≡◌, ◌+◌, ◌≤◌, ◌<◌, ◌∷◌, [], length, map};
ghost use Rattle.std.specs.List.{flat_map};
ghost use Rattle.narrowest.specs.code.Codes.{knot, links_of};
ghost use Rattle.narrowest.specs.code.Forms.{entries_in};
ghost use Rattle.narrowest.specs.code.Knots.{Knotted};
ghost use Rattle.narrowest.specs.code.Lacks.{apart, next_apart};
ghost use Rattle.narrowest.specs.code.Pushes.{Counted};
ghost use Rattle.sorting.specs.Sorted.{sorted};
ghost use Rattle.unfolding.specs.code.Rows.{entry_of_row};

use crate::form::entry_of_row;
use crate::paired::{Near, Paired, leads};
use crate::rows::push;
use blocks::{Entry, kinds};

// Notes the link of a packed entry that leads to a place.
fn note_link(pair: Paired<'_>, near: &mut Near, x: u64, order: &mut [u64], n: usize) -> usize
    requires { n ≤ length order.old + 1 }
    ensures { Counted (length order.old) order.old n
        (links_of (entries_in pair.entry.sides.first.form.rows.now) (entries_in pair.entry.sides.second.form.rows.now) pair.entry.mates.now
        pair.entry.sides.first.owner pair.entry.sides.second.owner (entry_of_row x)) order.new result }
{
    let e = entry_of_row(x);
    if !leads(e) {
        return n;
    }
    if pair.below(e.name, near) == 0 {
        return n;
    }
    push(order, n, u64::from(e.name))
}

// Notes those of all entries of a side; returns how many they are.
pub(crate) fn note_links(pair: Paired<'_>, own: &[u64], order: &mut [u64]) -> usize
    ensures { Counted (length order.old) order.old 0
        (flat_map (links_of (entries_in pair.entry.sides.first.form.rows.now) (entries_in pair.entry.sides.second.form.rows.now) pair.entry.mates.now
        pair.entry.sides.first.owner pair.entry.sides.second.owner) (entries_in own.now)) order.new result }
{
    let mut n: usize = 0;
    let mut near = pair.near();
    for x in own {
        n = note_link(pair, &mut near, *x, order, n);
    }
    n
}

// Pushes the 'every' of a link, and notes the place below it.
fn push_knot(
    pair: Paired<'_>,
    near: &mut Near,
    owner: u16,
    l: u64,
    rows: &mut [u64],
    below: &mut [u32],
    count: usize,
) -> usize
    requires { (count ≤ length rows.old + 1) × (length rows.old < length below.old) }
    ensures { Knotted (length rows.old) rows.old count owner
        (knot (entries_in pair.entry.sides.first.form.rows.now) (entries_in pair.entry.sides.second.form.rows.now) pair.entry.mates.now
        pair.entry.sides.first.owner pair.entry.sides.second.owner l ∷ []) below.old rows.new result below.new }
{
    let link = (l % 65536) as u16;
    let x = blocks::pack(Entry {
        kind: kinds::EVERY,
        reserved: 0,
        owner,
        name: link,
        number: 0,
    });
    let k = push(rows, count, x);
    if rows.len() < k {
        return k;
    }
    below[k] = pair.below(link, near);
    k
}

// Pushes that of link l, unless it is the one before.
fn push_next(
    pair: Paired<'_>,
    near: &mut Near,
    owner: u16,
    last: u64,
    l: u64,
    rows: &mut [u64],
    below: &mut [u32],
    count: usize,
) -> usize
    requires { (count ≤ length rows.old + 1) × (length rows.old < length below.old) }
    ensures { Knotted (length rows.old) rows.old count owner
        (map (knot (entries_in pair.entry.sides.first.form.rows.now) (entries_in pair.entry.sides.second.form.rows.now) pair.entry.mates.now
        pair.entry.sides.first.owner pair.entry.sides.second.owner) (next_apart last l)) below.old rows.new result below.new }
{
    if l == last {
        return count;
    }
    push_knot(pair, near, owner, l, rows, below, count)
}

// Pushes those of an ascending list of links, each once.
fn push_knots(
    pair: Paired<'_>,
    owner: u16,
    order: &[u64],
    rows: &mut [u64],
    below: &mut [u32],
    count: usize,
) -> usize
    requires { (count ≤ length rows.old + 1) × (length rows.old < length below.old) }
    ensures { Knotted (length rows.old) rows.old count owner
        (map (knot (entries_in pair.entry.sides.first.form.rows.now) (entries_in pair.entry.sides.second.form.rows.now) pair.entry.mates.now
        pair.entry.sides.first.owner pair.entry.sides.second.owner) (apart 65536 order.now)) below.old rows.new result below.new }
{
    let mut k = count;
    let mut last: u64 = 65536;
    let mut near = pair.near();
    for l in order {
        k = push_next(pair, &mut near, owner, last, *l, rows, below, k);
        last = *l;
    }
    k
}

// Pushes the 'every' entries of a place of the result, found along the entries of a side.
pub(crate) fn push_links(
    pair: Paired<'_>,
    owner: u16,
    own: &[u64],
    order: &mut [u64],
    rows: &mut [u64],
    below: &mut [u32],
    count: usize,
) -> usize
    requires { (count ≤ length rows.old + 1) × (length rows.old < length below.old) × (length own.now ≤ length order.old) }
    ensures { Knotted (length rows.old) rows.old count owner
        (map (knot (entries_in pair.entry.sides.first.form.rows.now) (entries_in pair.entry.sides.second.form.rows.now) pair.entry.mates.now
        pair.entry.sides.first.owner pair.entry.sides.second.owner)
        (apart 65536 (sorted (flat_map (links_of (entries_in pair.entry.sides.first.form.rows.now)
        (entries_in pair.entry.sides.second.form.rows.now) pair.entry.mates.now
        pair.entry.sides.first.owner pair.entry.sides.second.owner) (entries_in own.now))))) below.old rows.new result below.new }
{
    let n = note_links(pair, own, order);
    let links = &mut order[..n];
    sorting::sort(links);
    push_knots(pair, owner, links, rows, below, count)
}
