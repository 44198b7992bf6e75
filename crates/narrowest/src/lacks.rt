// The lacks of a joined place, found along the entries of the first place: those that it lists, and those that its properties exclude. They are
// put into a table, to be sorted, since the two do not come in the order of the names.
ghost use Rattle.std.specs.Prelude.{◌+◌, ◌≤◌, length};
ghost use Rattle.std.specs.List.{flat_map};
ghost use Rattle.narrowest.specs.code.Forms.{entries_in};
ghost use Rattle.narrowest.specs.code.Lacks.{apart, lack_if, lack_numbers, lacks_of, next_apart};
ghost use Rattle.narrowest.specs.code.Places.{place_in};
ghost use Rattle.narrowest.specs.code.Pushes.{Counted};
ghost use Rattle.pairs.specs.code.Index.{named_count, partners};
ghost use Rattle.unfolding.specs.code.Rows.{entry_of_row};

use crate::form::{AtomKind, entry_of_row};
use crate::lacking::Sides;
use crate::rows::{push, push_leaf};
use blocks::{Property, kinds};
use pairs::Exclusions;

// Notes the lack of a property that the first place says, where the joined place lists it.
fn note_lack(
    sides: Sides<'_>,
    near: &mut usize,
    exclusions: Exclusions<'_>,
    p: Property,
    order: &mut [u64],
    n: usize,
) -> usize
    requires { n ≤ length order.old + 1 }
    ensures { Counted (length order.old) order.old n (lack_if exclusions.entry.pairs.now (place_in sides.entry.first) (place_in sides.entry.second) p.0) order.new result }
{
    if !sides.lists_lack(exclusions, p, near) {
        return n;
    }
    push(order, n, u64::from(p.0))
}

// Notes those of the properties that exclude one.
fn note_partners(
    sides: Sides<'_>,
    near: &mut usize,
    exclusions: Exclusions<'_>,
    q: Property,
    order: &mut [u64],
    n: usize,
) -> usize
    requires { n ≤ length order.old + 1 }
    ensures { Counted (length order.old) order.old n
        (flat_map (lack_if exclusions.entry.pairs.now (place_in sides.entry.first) (place_in sides.entry.second))
        (partners exclusions.entry.pairs.now q.0 (named_count exclusions.entry.pairs.now))) order.new result }
{
    let mut k = n;
    let mut rest = exclusions.excluding(q);
    // `while let` and no `for`: what is left is what the proof speaks of.
    while let Some(p) = rest.next() {
        k = note_lack(sides, near, exclusions, p, order, k);
    }
    k
}

// Notes those that a packed entry of the first place leads to.
fn note_entry(
    sides: Sides<'_>,
    near: &mut usize,
    exclusions: Exclusions<'_>,
    x: u64,
    order: &mut [u64],
    n: usize,
) -> usize
    requires { n ≤ length order.old + 1 }
    ensures { Counted (length order.old) order.old n
        (lacks_of exclusions.entry.pairs.now (place_in sides.entry.first) (place_in sides.entry.second) (entry_of_row x)) order.new result }
{
    let e = entry_of_row(x);
    if e.kind == kinds::LACKS {
        return note_lack(sides, near, exclusions, Property(e.name), order, n);
    }
    if e.kind == kinds::HAS {
        return note_partners(sides, near, exclusions, Property(e.name), order, n);
    }
    n
}

// Notes those of all entries of the first place; returns how many they are.
pub(crate) fn note_lacks(
    sides: Sides<'_>,
    near: &mut usize,
    exclusions: Exclusions<'_>,
    own: &[u64],
    order: &mut [u64],
) -> usize
    ensures { Counted (length order.old) order.old 0
        (flat_map (lacks_of exclusions.entry.pairs.now (place_in sides.entry.first) (place_in sides.entry.second)) (entries_in own.now)) order.new result }
{
    let mut n: usize = 0;
    for x in own {
        n = note_entry(sides, near, exclusions, *x, order, n);
    }
    n
}

// Pushes the lack of property x, unless it is the one before.
fn push_next(owner: u16, last: u64, x: u64, rows: &mut [u64], count: usize) -> usize
    requires { count ≤ length rows.old + 1 }
    ensures { Counted (length rows.old) rows.old count (lack_numbers owner (next_apart last x)) rows.new result }
{
    if x == last {
        return count;
    }
    push_leaf(AtomKind::Lacks, owner, (x % 65536) as u16, 0, rows, count)
}

// Pushes the lacks of an ascending list of properties, each once.
pub(crate) fn push_lacks(owner: u16, order: &[u64], rows: &mut [u64], count: usize) -> usize
    requires { count ≤ length rows.old + 1 }
    ensures { Counted (length rows.old) rows.old count (lack_numbers owner (apart 65536 order.now)) rows.new result }
{
    let mut k = count;
    let mut last: u64 = 65536;
    for p in order {
        k = push_next(owner, last, *p, rows, k);
        last = *p;
    }
    k
}
