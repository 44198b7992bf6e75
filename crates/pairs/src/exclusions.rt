// The properties that exclude each other, by an index of the list of pairs: those beside a property in the list are found by walking along
// the chain of its bucket, so that a property that no pair has costs one look.
ghost use Rattle.std.specs.Prelude.{◌≡◌, Bool, ℕ, ◌+◌, ◌*◌, ◌<◌, ◌≤◌, length, take, eqb, get_or, true, [], List, ◌≢◌, replicate, unwrap_or, IfSome};
ghost use Rattle.std.proofs.Props.{props};
ghost use Rattle.base.specs.Chain.{OnChain};
ghost use Rattle.pairs.specs.Pairs.{pair_count};
ghost use Rattle.pairs.specs.code.Sides.{Marks};
ghost use Rattle.pairs.specs.code.Index.{PairsIndexed, beside_at, bucket_of, indexed_to, named_at, named_count, partnered, partners};
ghost use Rattle.std.specs.Iterator.{YieldsFirstBy, item_count};

use crate::index::{INDEX_BYTES, bucket, index_pairs, number_beside};
use crate::list::named_at;
use crate::sides::Sides;
use blocks::Property;

// A list has 64 pairs at most; up to 3 bytes past them are no whole pair.
const MOST_BYTES: usize = 259;

// A list of at most 64 pairs, and its index: at b the last number of bucket b, and at 256 + k the one before number k in its bucket. There
// is no heap: the index stands where the caller has room for it.
#[derive(Clone, Copy)]
pub struct Exclusions<'a> {
    pairs: &'a [u8],
    index: &'a [u8; INDEX_BYTES],
    ghost indexed: { PairsIndexed pairs.now index.now },
}

impl<'a> Exclusions<'a> {
    /// The exclusions of a list, those of its first 64 pairs. What the index held before does not count; it holds that of these pairs.
    pub fn new(pairs: &'a [u8], index: &'a mut [u8; INDEX_BYTES]) -> Self
        ensures listed { result.pairs.now ≡ take 259 pairs.now }
        ensures held { result.index.now ≡ indexed_to (take 259 pairs.now) (replicate INDEX_BYTES 0) (named_count (take 259 pairs.now)) }
    {
        let listed = &pairs[..pairs.len().min(MOST_BYTES)];
        index.fill(0);
        index_pairs(listed, index);
        Exclusions {
            pairs: listed,
            index,
        }
    }

    /// Whether the list has no pair.
    #[tactic(auto, unfolding(crate::specs::Pairs::pair_count))]
    pub fn is_empty(self) -> bool
        ensures { result ≡ eqb (pair_count self.entry.pairs.now) 0 }
    {
        self.pairs.len() / 4 == 0
    }

    // Whether no pair can have a property, which costs one look: none has one of its bucket.
    pub fn none_with(self, p: Property) -> bool
        ensures bucket { result ≡ eqb (get_or self.entry.index.now (bucket_of p.0) 0) 0 }
        ensures none { result ≡ true → partners self.entry.pairs.now p.0 (named_count self.entry.pairs.now) ≡ [] }
    {
        self.index[bucket(p)] == 0
    }

    // The number at a place of the index, if there is one.
    fn link(self, i: usize) -> Option<u8>
        requires { i < INDEX_BYTES }
        ensures number { unwrap_or result 0 ≡ get_or self.entry.index.now i 0 }
        ensures some { IfSome result (λ k. k ≢ 0) }
    {
        let k = self.index[i];
        (k != 0).then_some(k)
    }

    // The properties that exclude one: those that stand beside it in the list.
    pub fn excluding(self, p: Property) -> Excluders<'a>
        ensures { partners result.all.pairs.now result.of.0 (unwrap_or result.next 0) ≡ partners self.entry.pairs.now p.0 (named_count self.entry.pairs.now) }
    {
        Excluders {
            all: self,
            of: p,
            next: self.link(bucket(p)),
        }
    }

    /// The pairs in which a property stands, as their first and as their second: it goes once along the chain of its bucket, which has at
    /// most 128 numbers.
    pub fn sides(self, p: Property) -> Sides
        ensures { Marks self.entry.pairs.now (λ q. eqb q p.0) result }
    {
        let mut sides = Sides::none();
        let mut next = self.link(bucket(p));
        // It follows links, and counts nothing.
        while let Some(k) = next {
            if named_at(self.pairs, usize::from(k)) == p {
                sides = sides.join(Sides::of_number(k));
            }
            next = self.link(256 + usize::from(k));
        }
        sides
    }

    /// Whether a pair has a property on one side, and on the other one of those whose pairs these are: it goes along the chain of the
    /// property's bucket, at most 128 numbers, up to the first such pair.
    pub fn excluded_beside(self, held: Sides, p: Property) -> bool
        ensures { (has : ℕ → Bool) → Marks self.entry.pairs.now has held → result ≡ partnered self.entry.pairs.now has p.0 (named_count self.entry.pairs.now) }
    {
        let mut next = self.link(bucket(p));
        // It follows links, and counts nothing.
        while let Some(k) = next {
            if named_at(self.pairs, usize::from(k)) == p && held.has_beside(k) {
                return true;
            }
            next = self.link(256 + usize::from(k));
        }
        false
    }

    // The property beside that of number k, with which it makes a pair.
    #[tactic(auto, unfolding(crate::specs::code::Index::beside_at))]
    fn beside(self, k: u8) -> Property
        requires { (1 ≤ k) × (k ≤ named_count self.pairs.now) }
        ensures { result.0 ≡ beside_at self.entry.pairs.now k }
    {
        named_at(self.pairs, number_beside(k))
    }
}

// The properties that exclude one, from the highest number of its bucket down; `next` is the number that is looked at next.
#[derive(Clone, Copy)]
pub struct Excluders<'a> {
    all: Exclusions<'a>,
    of: Property,
    next: Option<u8>,
    ghost reached: { OnChain (λ k. bucket_of (named_at all.pairs.now k)) (bucket_of of.0) (unwrap_or next 0) (named_count all.pairs.now) },
    ghost number: { IfSome next (λ k. k ≢ 0) } by { Prim.hlevel props },
}

impl Iterator for Excluders<'_> {
    type Item = Property;

    ghost next_gives = { YieldsFirstBy (λ q. q.0) (λ s. partners s.all.pairs.now s.of.0 (unwrap_or s.next 0)) };

    ghost remaining = { item_count (λ s. partners s.all.pairs.now s.of.0 (unwrap_or s.next 0)) };

    // The loop follows links, and counts nothing.
    fn next(&mut self) -> Option<Property> {
        while let Some(k) = self.next {
            self.next = self.all.link(256 + usize::from(k));
            if named_at(self.all.pairs, usize::from(k)) == self.of {
                return Some(self.all.beside(k));
            }
        }
        None
    }
}
