// Slots: one for each place, class and name of a description, with the bounds that all its entries give together. A slot is one number
// of 64 bits, its key above its two bounds, in a table; cells in which the bits of the key lead find it again.
ghost use Rattle.std.specs.Prelude.{◌≡◌, Bool, false, true, ◌+◌, ◌*◌, ◌≤◌, ◌<◌, min, max, ℕ, get_or, length, set, unwrap_or, IfSome};
ghost use Rattle.base.specs.Chain.{last_where};
ghost use Rattle.base.specs.Ways.{Ends, by_quotient};
ghost use Rattle.passes.specs.code.Keys.{key_number};
ghost use Rattle.slots.specs.code.Tables.{key_in, low_part, high_part, slot_number, Kept, Searchable, keys_of, Entered, link_kind, no_bound};

use blocks::{Entry, Link, Property, kinds};

// The upper bound that stands for none: no bound of an entry is as large.
pub(crate) const NO_BOUND: u64 = 65536;

// The key of a slot.
#[tactic(auto, unfolding(crate::specs::code::Tables::key_in))]
pub fn key_in(x: u64) -> u64
    ensures { (result ≡ key_in x) × (result < 1073741824) }
{
    x / 17179869184
}

// At least so many.
#[tactic(auto, unfolding(crate::specs::code::Tables::low_part))]
pub fn low_in(x: u64) -> u64
    ensures { (result ≡ low_part x) × (result < 131072) }
{
    x / 131072 % 131072
}

// At most so many; NO_BOUND where there is no such bound.
#[tactic(auto, unfolding(crate::specs::code::Tables::high_part))]
pub fn high_in(x: u64) -> u64
    ensures { (result ≡ high_part x) × (result < 131072) }
{
    x % 131072
}

// A slot of this key and these bounds.
#[tactic(auto, unfolding(crate::specs::code::Tables::slot_number))]
pub(crate) fn make_slot(key: u64, lo: u64, hi: u64) -> u64
    requires { (key < 1073741824) × (lo < 131072) × (hi < 131072) }
    ensures { result ≡ slot_number key lo hi }
{
    17179869184 * key + (131072 * lo + hi)
}

// The slots that stand in lent tables, numbered from 1 on, with the cells in which they are found by their keys: a search begins in one of the
// first BUCKETS cells and goes on by the bits of the key, past slots with other keys. In a cell the number 0, which no slot has, is a free one.
// A division by BUCKETS is one by a constant, which is sooner done than by a number that is known only when the program runs.
#[derive(Clone, Copy)]
pub(crate) struct Slots<'a, const BUCKETS: usize, const CELLS: usize> {
    pub table: &'a [u64],
    pub cells: &'a [u16; CELLS],
    pub used: usize,
    ghost kept: { Searchable table.now BUCKETS cells.now used },
    ghost few: { used ≤ 1008 },
    ghost sized: { length cells.now ≡ CELLS },
}

impl<'a, const BUCKETS: usize, const CELLS: usize> Slots<'a, BUCKETS, CELLS> {
    // The slots that stand in these tables, which come apart until all of them are written.
    pub(crate) fn of(table: &'a [u64], cells: &'a [u16; CELLS], used: usize) -> Self
        requires { Kept table.now BUCKETS cells.now used × (used ≤ 1008) }
        ensures { (result.table.now ≡ table.now) × (result.cells.now ≡ cells.now) × (result.used ≡ used) }
    {
        Slots { table, cells, used }
    }

    // The cell whose slot has a key, or the free one where such a slot is to stand. Two keys of one bucket part at the first bit in which their
    // quotients differ, so that no choice of names makes it look at more than 24 cells.
    fn cell_for(self, key: u64) -> usize
        requires { key < 1073741824 }
        ensures { Ends (keys_of self.entry.table.now) self.entry.cells.now (by_quotient BUCKETS) 23 key result × (result < CELLS) }
    {
        let mut c = (key % BUCKETS as u64) as usize;
        let route = key / BUCKETS as u64;
        for bit in 0..23u32 {
            let s = usize::from(self.cells[c]);
            if s == 0 || key_in(self.table[s]) == key {
                return c;
            }
            c = BUCKETS + 2 * s + (route >> bit) as usize % 2;
        }
        c
    }

    // The slot of a key.
    pub(crate) fn search(self, key: u64) -> Option<usize>
        requires { key < 1073741824 }
        ensures { (unwrap_or result 0 ≡ last_where (λ j. key_in (get_or self.entry.table.now j 0)) key self.entry.used) × IfSome result (λ s. 1 ≤ s) }
    {
        let s = usize::from(self.cells[self.cell_for(key)]);
        (s != 0).then_some(s)
    }
}

// Tightens the bounds of slot s by those of an entry.
fn tighten(table: &mut [u64], s: usize, bounds: u64)
    requires { s < length table.old }
    ensures { table.new ≡ set table.old s (slot_number (key_in (get_or table.old s 0)) (max (low_part (get_or table.old s 0)) (low_part bounds)) (min (high_part (get_or table.old s 0)) (high_part bounds))) }
{
    let x = table[s];
    let lo = low_in(bounds);
    let hi = high_in(bounds);
    table[s] = make_slot(key_in(x), low_in(x).max(lo), high_in(x).min(hi));
}

// The key of a property at a place. Properties and links are numbered apart: only their types say which key a name gets.
#[tactic(auto, unfolding(passes::specs::code::Keys::key_number))]
pub(crate) fn property_key(place: u64, p: Property) -> u64
    requires { place < 1024 }
    ensures { (result ≡ key_number place false p.0) × (result < 1073741824) }
{
    131072 * place + u64::from(p.0)
}

// The key of a link at a place.
#[tactic(auto, unfolding(passes::specs::code::Keys::key_number))]
pub(crate) fn link_key(place: u64, l: Link) -> u64
    requires { place < 1024 }
    ensures { (result ≡ key_number place true l.0) × (result < 1073741824) }
{
    131072 * place + (65536 + u64::from(l.0))
}

// Whether the name of an entry of this kind is a link's.
#[tactic(auto, unfolding(crate::specs::code::Tables::link_kind))]
fn link_kind(kind: u8) -> bool
    ensures { result ≡ link_kind kind }
{
    match kind {
        kinds::AT_LEAST | kinds::AT_MOST | kinds::EVERY => true,
        _ => false,
    }
}

// The key of an entry's slot at a place. Two ways that compute alike, and no jump by kind: entries come in any order of kinds.
pub(crate) fn entry_key(place: u64, e: Entry) -> u64
    requires { place < 1024 }
    ensures { (result ≡ key_number place (link_kind e.kind) e.name) × (result < 1073741824) }
{
    if link_kind(e.kind) {
        link_key(place, e.link())
    } else {
        property_key(place, e.property())
    }
}

// Enters an entry: the slot of its key, found or made, gets the entry's bounds too; a new one takes the free cell where the search for its key
// ends. Returns the slot's number. It takes the parts of the table, which is written.
pub(crate) fn enter<const BUCKETS: usize, const CELLS: usize>(
    table: &mut [u64],
    cells: &mut [u16; CELLS],
    used: usize,
    key: u64,
    bounds: u64,
) -> usize
    requires { Kept table.old BUCKETS cells.old used × (used < 1008) × (used + 1 < length table.old) × (BUCKETS + 2 * (used + 1) + 2 ≤ length cells.old) × (key < 1073741824) × (bounds < 17179869184) × (high_part bounds ≤ no_bound) }
    ensures { (result ≤ used + 1) × ((v : ℕ) → (b : Bool) → (n : ℕ) → n < 65536 → key ≡ key_number v b n
        → Entered table.old BUCKETS cells.old used v b n (low_part bounds) (high_part bounds) result table.new cells.new) }
{
    let slots = Slots::<BUCKETS, CELLS> { table, cells, used };
    let c = slots.cell_for(key);
    let s = usize::from(cells[c]);
    if s != 0 {
        tighten(table, s, bounds);
        return s;
    }
    let new = used + 1;
    cells[c] = new as u16;
    table[new] = 17179869184 * key + bounds;
    new
}
