// Numbers in buckets: of each bucket the last number, and of each number the one before it in its bucket, so that a look costs the numbers
// of a bucket and not all of them. The entries of an input are indexed so. A description's bucket is a place, since a place is gone over
// whole. A specimen's entries are looked for by owner, kind and name.
ghost use Rattle.std.specs.Prelude.{◌≡◌, ◌+◌, ◌*◌, ◌≤◌, ◌<◌, length, get_or, replicate, set, false, not};
ghost use Rattle.std.specs.Int.Bits.{bit_and};
ghost use Rattle.blocks.specs.Entries.{entries_of};
ghost use Rattle.blocks.specs.code.Blockwise.{Whole};
ghost use Rattle.blocks.specs.declared.Schema.{Schema};
ghost use Rattle.fit.specs.code.Bare.{Marked, any_entry, demands};
ghost use Rattle.fit.specs.code.Index.{Ordered, Ready, chained, code_of, hash_of};

use crate::bare::mark_demand;
use blocks::{Entry, entries_in_order, kinds};

// Groups that own nothing have buckets of their own, by this number in the place of their kind; no kind has it.
pub(crate) const BARE: u8 = 8;

// The bucket of an owner, a kind and a name, of one more than `mask`. Sizes are powers of two, so that it takes no
// division. Of one kind and name, different owners have different buckets: so all groups together look at each entry of
// a specimen at most once for an entry of a description, whatever names were chosen.
pub(crate) fn masked(mask: usize, owner: usize, kind: u8, name: u16) -> usize
    requires { owner < 65536 }
    ensures { result ≡ bit_and (owner + (31 * name + kind)) mask }
{
    (owner + (31 * usize::from(name) + usize::from(kind))) & mask
}

// The same of `most` buckets.
#[tactic(auto, using(crate::proofs::index::BucketLaws::hash_is))]
pub(crate) fn hash(most: usize, owner: usize, kind: u8, name: u16) -> usize
    requires { (0 < most) × (owner < 65536) }
    ensures { (result ≡ hash_of most owner kind name) × (result < most) }
{
    masked(most - 1, owner, kind, name)
}

// The kind by which an entry is found: groups that own nothing, which are not marked, stand apart, as if of kind 8.
#[tactic(auto, unfolding(crate::specs::code::Index::code_of))]
fn code(kind: u8, owning: bool) -> u8
    ensures { result ≡ code_of kind (not owning) }
{
    if kind == kinds::GROUP && !owning {
        BARE
    } else {
        kind
    }
}

// Puts number n in front of the chain of bucket b. That n fits two bytes is known: `try_from` would test it.
// `clashes` and `pairs` make the same two stores, each in a table of its own layout.
#[tactic(auto, unfolding(crate::specs::code::Index::chained))]
pub(crate) fn put(index: &mut [u16], most: usize, n: usize, b: usize)
    requires { (most ≤ 2048) × (length index.old ≡ most + most) × (n < most) × (b < most) }
    ensures { index.new ≡ chained index.old most n b }
{
    index[most + n] = index[b];
    index[b] = n as u16;
}

// The index of a specimen, in one pass over its entries. The marks say which groups own something.
#[inline(always)]
pub(crate) fn index_specimen(s: &[u8], total: usize, most: usize, marks: &[bool], index: &mut [u16])
    requires { (total ≡ length (entries_of s.now)) × (total < most) × (most ≤ 2048) × Ordered (entries_of s.now) × Whole s.now total
        × Marked any_entry (entries_of s.now) total most marks.now × (index.old ≡ replicate (most + most) 0) }
    ensures { Ready Schema.Specimen most s.now index.new }
{
    for (before, bytes) in entries_in_order(s, total).enumerate() {
        let e = Entry::from(bytes);
        let n = before + 1;
        put(
            index,
            most,
            n,
            hash(most, usize::from(e.owner), code(e.kind, marks[n]), e.name),
        );
    }
}

// The index of a description, in one pass over its entries: each place's. The places that an item with nothing does not fit are marked.
#[inline(always)]
pub(crate) fn index_description(
    d: &[u8],
    total: usize,
    most: usize,
    index: &mut [u16],
    marks: &mut [bool],
)
    requires { (total ≡ length (entries_of d.now)) × (total < most) × (most ≤ 2048) × Ordered (entries_of d.now) × Whole d.now total
        × (index.old ≡ replicate (most + most) 0) × (marks.old ≡ replicate most false) }
    ensures { Ready Schema.Description most d.now index.new × Marked demands (entries_of d.now) (length (entries_of d.now)) most marks.new }
{
    for (before, bytes) in entries_in_order(d, total).enumerate() {
        let e = Entry::from(bytes);
        put(index, most, before + 1, usize::from(e.owner));
        mark_demand(marks, e);
    }
}
