// The pass between the first and the second, under what every record keeps: a single link leads to one item at most, and
// no item has both properties of a pair.
ghost use Rattle.std.specs.Prelude.{◌≡◌, ◌+◌, ◌&&◌, ◌%◌, ◌/◌, ◌<◌, ◌≤◌, List, eqb, length, ltb, get_or};
ghost use Rattle.pairs.specs.Pairs.{under};
ghost use Rattle.pairs.specs.code.Index.{bucket_of};
ghost use Rattle.passes.specs.code.Restrict.{excluded_at};
ghost use Rattle.passes.specs.code.Slots.{Slot};
ghost use Rattle.slots.specs.code.Lent.{MarkedIn};
ghost use Rattle.slots.specs.code.Marking.{MarkedBy};
ghost use Rattle.slots.specs.code.Tables.{Restricted, excluded_high, key_in, link_word, no_bound, property_word, restricted_word, single_high, slots_in};

use crate::excluding::Marked;
use crate::slots::{NO_BOUND, high_in, key_in, low_in, make_slot};
use blocks::Property;
use blocks::sizes::FIRST_SINGLE;
use pairs::{Exclusions, Sides};

// The upper bound of such a link: 0, so that nothing meets the slot, where more than one are asked for; none where one or more are
// allowed, since every record keeps that.
#[tactic(auto, unfolding(crate::specs::code::Tables::single_high))]
fn single_high(lo: u64, hi: u64) -> u64
    ensures { (result ≡ single_high lo hi) × (result ≤ no_bound) }
{
    if 1 < lo || hi == 0 { 0 } else { NO_BOUND }
}

// The upper bound of a property that is excluded at its place: none, since its lack is implied; but 0, so that nothing meets the slot,
// where the place has it.
#[tactic(auto, unfolding(crate::specs::code::Tables::excluded_high))]
fn excluded_high(lo: u64) -> u64
    ensures { (result ≡ excluded_high lo) × (result ≤ no_bound) }
{
    if lo == 0 { NO_BOUND } else { 0 }
}

// The slot of a property under the rule, by whether the property is excluded.
fn restricted_property(x: u64, out: bool) -> u64
    ensures { result ≡ property_word out x }
{
    if !out {
        return x;
    }
    make_slot(key_in(x), low_in(x), excluded_high(low_in(x)))
}

// Whether a key is that of a property, or of a link to any number of items: a key modulo 131,072 is a property's name,
// or 65,536 and a link's.
fn below_single(key: u64) -> bool
    ensures { result ≡ ltb (key % 131072) (65536 + FIRST_SINGLE) }
{
    key % 131072 < 65536 + u64::from(FIRST_SINGLE)
}

// The slot of a link under the rule.
fn restricted_link(x: u64) -> u64
    ensures { result ≡ link_word x }
{
    if below_single(key_in(x)) {
        return x;
    }
    make_slot(key_in(x), low_in(x), single_high(low_in(x), high_in(x)))
}

// Whether a slot is that of a property.
pub(crate) fn of_property(x: u64) -> bool
    ensures { result ≡ ltb (key_in x % 131072) 65536 }
{
    key_in(x) % 131072 < 65536
}

// Whether a slot of this key stays as it is whatever the others are: no pair has a property of its bucket, and it is not that of a
// single link. Most slots stay, of either class, so that the jump by class, which nothing foretells, is for the few others.
fn stays(exclusions: Exclusions<'_>, key: u64) -> bool
    ensures { result ≡ (eqb (get_or exclusions.entry.index.now (bucket_of (key % 65536)) 0) 0 && ltb (key % 131072) (65536 + FIRST_SINGLE)) }
{
    exclusions.none_with(Property((key % 65536) as u16)) && below_single(key)
}

// A slot under the rule: a link's by its name, a property's by whether it is excluded.
fn restricted(marked: Marked<'_>, x: u64) -> u64
    ensures { (ss : List Slot) → MarkedIn ss marked.entry
        → result ≡ restricted_word (excluded_at (under marked.entry.exclusions.pairs.now) ss (key_in x / 131072) (key_in x % 65536)) x }
{
    let k = key_in(x);
    if stays(marked.exclusions, k) {
        return x;
    }
    if !of_property(x) {
        return restricted_link(x);
    }
    let p = Property((k % 65536) as u16);
    let out = marked.excluded(k / 131072, p);
    restricted_property(x, out)
}

// Puts the slots 1 to `used` under the rule, by what is marked of their places, which does not change on the way.
pub(crate) fn restrict_slots(
    exclusions: Exclusions<'_>,
    marks: &[Sides],
    table: &mut [u64],
    used: usize,
)
    requires { (used < length table.old) × (used ≤ 1008) × MarkedBy exclusions.pairs.now (slots_in table.old used) marks.now }
    ensures { Restricted exclusions.entry.pairs.now table.old used used table.new }
{
    let marked = Marked { exclusions, marks };
    for s in 1..used + 1 {
        table[s] = restricted(marked, table[s]);
    }
}
