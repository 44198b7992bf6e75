// Number 12 of the table of refusals, in a specimen that nothing else refuses. An entry completes a pair where it gives a property, and an
// earlier entry gives its owner one that makes a pair with it. So each owner has the pairs in which it was given a property, a bit for each: an
// entry costs one look, however often and however variously the list repeats its property.
ghost use Rattle.std.specs.Prelude.{◌≡◌, ◌&&◌, ◌+◌, ◌≤◌, ◌<◌, List, ℕ, length, ltb, take};
ghost use Rattle.blocks.specs.Entries.{entries_of, nth};
ghost use Rattle.blocks.specs.Owners.{owner_of};
ghost use Rattle.blocks.specs.code.Blockwise.{Whole};
ghost use Rattle.blocks.specs.declared.Entry.{Entry};
ghost use Rattle.clashes.specs.Clash.{completes};
ghost use Rattle.clashes.specs.Promise.{apart_below, apart_ok};
ghost use Rattle.clashes.specs.code.Given.{GivenTo, counted};
ghost use Rattle.pairs.specs.Pairs.{pair_count};
ghost use Rattle.pairs.specs.code.Search.{Finds};

use blocks::{Entry, entries_in_order, kinds};
use pairs::{Exclusions, INDEX_BYTES, Sides};

// Whether an entry gives an owner below `most` a property that some pair may have.
#[tactic(auto, unfolding(crate::specs::code::Given::counted))]
fn counts(exclusions: Exclusions<'_>, most: usize, e: Entry) -> bool
    ensures { result ≡ counted exclusions.entry.index.now most e }
{
    e.kind == kinds::HAS && !exclusions.none_with(e.property()) && usize::from(e.owner) < most
}

// Gives an entry's property to its owner, if it gives one: whether that completes a pair. A part of the loop below, inlined into it.
#[inline(always)]
fn give(exclusions: Exclusions<'_>, given: &mut [Sides], e: Entry) -> bool
    ensures { (es : List Entry) → (n : ℕ) → GivenTo exclusions.entry.pairs.now es n given.old → e ≡ nth es (n + 1)
        → (result ≡ (ltb e.owner (length given.old) && completes exclusions.entry.pairs.now es (n + 1)))
        × GivenTo exclusions.entry.pairs.now es (n + 1) given.new }
{
    if !counts(exclusions, given.len(), e) {
        return false;
    }
    let o = usize::from(e.owner);
    let sides = exclusions.sides(e.property());
    let before = given[o];
    given[o] = before.join(sides);
    before.excludes(sides)
}

// The lowest of n entries that completes a pair, of those whose owners are below MOST.
fn clash_within<const MOST: usize>(exclusions: Exclusions<'_>, s: &[u8], n: usize) -> Option<usize>
    requires { (MOST ≤ 2017) × (n ≤ 2016) × (n ≤ length (entries_of s.now)) × Whole s.now n }
    ensures { Finds (apart_below MOST exclusions.entry.pairs.now (entries_of s.now)) n result }
{
    let mut given = [Sides::none(); MOST];
    for (before, bytes) in entries_in_order(s, n).enumerate() {
        if give(exclusions, &mut given, Entry::from(bytes)) {
            return Some(before + 1);
        }
    }
    None
}

// The lowest of n entries that completes a pair of a list, where each entry stands after its owner.
pub(crate) fn first_clash(pairs: &[u8], s: &[u8], n: usize) -> Option<usize>
    requires { (pair_count pairs.now ≤ 64) × (n ≤ 2016) × (n ≤ length (entries_of s.now)) × Whole s.now n
        × ((k : ℕ) → 1 ≤ k → k ≤ n → owner_of (entries_of s.now) k < k) }
    ensures { Finds (apart_ok pairs.now (entries_of s.now)) n result }
{
    let mut index = [0u8; INDEX_BYTES];
    let exclusions = Exclusions::new(pairs, &mut index);
    if n < 64 {
        return clash_within::<64>(exclusions, s, n);
    }
    clash_within::<2017>(exclusions, s, n)
}

// The lowest of n entries that completes one of the first 64 pairs of a list, of those whose owners are items: 256 at most, counted from 1.
pub(crate) fn clash_of_items(pairs: &[u8], s: &[u8], n: usize) -> Option<usize>
    requires { (n ≤ 2016) × (n ≤ length (entries_of s.now)) × Whole s.now n }
    ensures { Finds (apart_below 257 (take 259 pairs.now) (entries_of s.now)) n result }
{
    let mut index = [0u8; INDEX_BYTES];
    clash_within::<257>(Exclusions::new(pairs, &mut index), s, n)
}
