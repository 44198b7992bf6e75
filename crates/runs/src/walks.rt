// Walks along the chain of a run, from its last slot to its first. One look before a walk tells that no table ends before the first slot on
// it; each slot after that is of a lower number, or the walk ends.
ghost use Rattle.std.specs.Prelude.{◌≡◌, ◌*◌, ◌+◌, ◌-◌, ◌<◌, ◌≤◌, ℕ, List, length};
ghost use Rattle.std.specs.Iterator.{item_count, YieldsFirst};
ghost use Rattle.base.specs.Stores.{stored};
ghost use Rattle.runs.specs.code.Walked.{Starting, TagPushed, chain_down, gathered, named};

use crate::chains::link_at;
use crate::tags::{name_in, tag_of};
use blocks::{Link, Property};
use slots::low_in;
use std::marker::Model;

// The slots that are left on a chain, the last first: the next one and those before it, if it is one of the slots 1 to `most`. No slot of a
// higher number follows, so that every walk ends. Fit has a chain too: that goes along one table with an offset, this along two with a limit.
#[derive(Drop)]
struct Chain<'a> {
    before: &'a [u16],
    next: u16,
    most: u16,
}

impl<'a> Model for Chain<'a> {
    ghost Value = { List ℕ };

    ghost view = { λ c. chain_down c.before.now c.next c.most };

    ghost invariant = { λ c. c.most ≤ length c.before.now - 1 };
}

impl<'a> Iterator for Chain<'a> {
    type Item = u16;

    ghost next_gives = { YieldsFirst (λ slots. slots) };

    ghost remaining = { item_count (λ slots. slots) };

    // The next slot, behind which only those below it are left.
    fn next(&mut self) -> Option<u16> {
        let s = self.next;
        if s == 0 || self.most < s {
            return None;
        }
        self.next = self.before[usize::from(s)];
        self.most = s - 1;
        Some(s)
    }
}

// The slot where the walk over a run begins, or 0, which ends a chain in the tables too. The tables are slices of their callers' and no struct: two
// cores of different sizes lend them, and each writes them first.
fn chain_start(table: &[u64], last: &[u16], before: &[u16], run: usize) -> u16
    ensures { Starting table.now last.now before.now run result }
{
    let s = link_at(last, run);
    let at = usize::from(s);
    if table.len() <= at || before.len() <= at {
        return 0;
    }
    s
}

// Stores the tag of slot s, which is the number x, at index n where the slot says at least `low`. Returns the index after it. `order` and n
// are no struct: the caller lends the slice, and needs nothing of them afterwards but the number that `gather` returns.
fn push_tag(x: u64, s: u16, low: u64, order: &mut [u64], n: usize) -> usize
    requires { n < length order.old }
    ensures { TagPushed low x s order.old n order.new result }
{
    if low_in(x) < low {
        return n;
    }
    order[n] = tag_of(x, s);
    n + 1
}

// Gathers the tags of the slots of a run that say at least `low`, the last slot first. Returns how many there are. Nothing is gathered where
// there might not be room: as many tags as the last slot's number always have it. The tables are slices, as at `chain_start`.
fn gather(
    table: &[u64],
    last: &[u16],
    before: &[u16],
    run: usize,
    low: u64,
    order: &mut [u64],
) -> usize
    ensures { (result ≡ length (gathered table.now last.now before.now run low (length order.old)))
        × (order.new ≡ stored order.old 0 (gathered table.now last.now before.now run low (length order.old))) }
{
    let first = chain_start(table, last, before, run);
    if order.len() < usize::from(first) {
        return 0;
    }
    let chain = Chain {
        before,
        next: first,
        most: first,
    };
    let mut n = 0;
    for s in chain {
        n = push_tag(table[usize::from(s)], s, low, order, n);
    }
    n
}

// The slot of a run that has a name, or 0. That is no slot, and every table reads as empty there, so that a caller needs no case for it.
// The tables are slices, as at `chain_start`.
fn slot_named(table: &[u64], last: &[u16], before: &[u16], run: usize, name: u16) -> usize
    ensures { result ≡ named table.now last.now before.now run name }
{
    let first = chain_start(table, last, before, run);
    let chain = Chain {
        before,
        next: first,
        most: first,
    };
    for s in chain {
        let at = usize::from(s);
        if name_in(table[at]) == u64::from(name) {
            return at;
        }
    }
    0
}

/// Gathers the tags of the properties of place v that say at least `low`, the last slot first, into `order` from its start, and returns how many
/// there are; later numbers stay. Nothing is gathered where there might not be room: as many tags as there are slots always have it.
pub fn gather_properties(
    table: &[u64],
    last: &[u16],
    before: &[u16],
    v: u16,
    low: u64,
    order: &mut [u64],
) -> usize
    ensures { (result ≡ length (gathered table.now last.now before.now (2 * v) low (length order.old)))
        × (order.new ≡ stored order.old 0 (gathered table.now last.now before.now (2 * v) low (length order.old))) }
{
    gather(table, last, before, 2 * usize::from(v), low, order)
}

/// The same for the links of place v.
pub fn gather_links(
    table: &[u64],
    last: &[u16],
    before: &[u16],
    v: u16,
    low: u64,
    order: &mut [u64],
) -> usize
    ensures { (result ≡ length (gathered table.now last.now before.now (2 * v + 1) low (length order.old)))
        × (order.new ≡ stored order.old 0 (gathered table.now last.now before.now (2 * v + 1) low (length order.old))) }
{
    gather(table, last, before, 2 * usize::from(v) + 1, low, order)
}

/// The slot of a property of place v, or 0, which is no slot and reads as empty in every table. Only its type says in which run a name is looked for.
pub fn property_slot(table: &[u64], last: &[u16], before: &[u16], v: u16, p: Property) -> usize
    ensures { result ≡ named table.now last.now before.now (2 * v) p.0 }
{
    slot_named(table, last, before, 2 * usize::from(v), p.0)
}

/// The slot of a link of place v, or 0.
pub fn link_slot(table: &[u64], last: &[u16], before: &[u16], v: u16, l: Link) -> usize
    ensures { result ≡ named table.now last.now before.now (2 * v + 1) l.0 }
{
    slot_named(table, last, before, 2 * usize::from(v) + 1, l.0)
}
