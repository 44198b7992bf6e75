// The entries that are tried, packed as for writing, and the list that is left of them where some are left out.
ghost use Rattle.std.proofs.Props.{props};
ghost use Rattle.std.specs.Prelude.{◌≡◌, ◌+◌, ◌≤◌, ◌++◌, ◌&&◌, ◌||◌, ℕ, List, cond, eqb, leb, length, ltb};
ghost use Rattle.blocks.specs.Entries.{Bounded, packed};
ghost use Rattle.blocks.specs.declared.Entry.{Entry};
ghost use Rattle.narrow.specs.Earned.{sayers};
ghost use Rattle.narrow.specs.Keeping.{neutral, thinned};
ghost use Rattle.earning.specs.code.Tried.{Listed, Packed, front_in, rest_in, set_of};

use blocks::kinds;

// Packed entries of a list: first those that are never left out, and then those that are tried.
#[derive(Clone, Copy)]
pub(crate) struct Tried<'a> {
    pub(crate) entries: &'a [u64; 1008],
    pub(crate) before: usize,
    pub(crate) count: usize,
    ghost few: { before + count ≤ 1008 },
    ghost whole: { length entries.now ≡ 1008 },
    ghost listed: { Listed (front_in entries.now before) (rest_in entries.now before count) entries.now before count } by { Prim.hlevel props },
}

// Whether a packed entry is an 'every', which stays: it goes with what it owns.
fn is_every(x: u64) -> bool
    ensures { (e : Entry) → Bounded e → x ≡ packed e → result ≡ eqb e.kind 5 }
{
    x % 256 == u64::from(kinds::EVERY)
}

// What stands in place of a packed entry that is left out: at least 0 of link 1, with the entry's owner.
fn neutral(x: u64) -> u64
    ensures { (e : Entry) → Bounded e → x ≡ packed e → result ≡ packed (neutral e) }
{
    4294967299 + 65536 * (x / 65536 % 65536)
}

// A packed entry, or what stands in its place.
fn left_at(x: u64, kept: bool) -> u64
    ensures { (e : Entry) → Bounded e → x ≡ packed e → result ≡ packed (cond (eqb e.kind 5 || kept) e (neutral e)) }
{
    if is_every(x) || kept { x } else { neutral(x) }
}

impl Tried<'_> {
    // Entry k of those that are tried, counted from 1, is one that may be left out.
    pub(crate) fn says(self, k: usize) -> bool
        requires { (1 ≤ k) × (k ≤ self.count) }
        ensures { (pre es : List Entry) → Listed pre es self.entry.entries.now self.entry.before self.entry.count
            → result ≡ sayers es k }
    {
        !is_every(self.entries[self.before + k - 1])
    }

    // The list where those that are not kept are left out.
    pub(crate) fn thin(self, kept: &[bool; 1009], rows: &mut [u64; 1008])
        ensures long { length rows.new ≡ 1008 }
        ensures left { (pre es : List Entry) → Listed pre es self.entry.entries.now self.entry.before self.entry.count
            → Packed (pre ++ thinned (set_of kept.now) 1 es) rows.new 0 }
    {
        *rows = *self.entries;
        for i in 0..self.count {
            let at = self.before + i;
            rows[at] = left_at(self.entries[at], kept[i + 1]);
        }
    }

    // Puts entries of a run back: those of them that may be left out.
    pub(crate) fn put_back(self, kept: &mut [bool; 1009], from: usize, to: usize)
        requires { (from ≤ to) × (to ≤ self.count) }
        ensures { (pre es : List Entry) → Listed pre es self.entry.entries.now self.entry.before self.entry.count
            → (k : ℕ) → set_of kept.new k ≡ cond (ltb from k && leb k to) (sayers es k) (set_of kept.old k) }
    {
        for k in from + 1..to + 1 {
            kept[k] = self.says(k);
        }
    }
}
