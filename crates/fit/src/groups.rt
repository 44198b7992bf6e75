// What the items of one group of a specimen have: properties, and items that they are linked to.
ghost use Rattle.std.specs.Prelude.{◌≡◌, ◌%◌, ◌-◌, ◌<◌, get_or, length};
ghost use Rattle.blocks.specs.Entries.{entries_of};
ghost use Rattle.blocks.specs.declared.Schema.{Schema};
ghost use Rattle.fit.specs.Totals.{TotalsOf};
ghost use Rattle.fit.specs.code.Chains.{ComesTo};
ghost use Rattle.fit.specs.code.Groups.{has_bare, has_property};
ghost use Rattle.fit.specs.code.Index.{Ready, any_of, hash_of, is_of};
ghost use Rattle.fit.specs.code.Rows.{Singles};

use crate::chain::Chain;
use crate::entries::entry_at;
use crate::index::{BARE, hash};
use crate::places::Places;
use crate::totals::Totals;
use blocks::{Entry, Link, Property, kinds};

// Whether an entry is of this owner, kind and name. Only the functions below call it: their types say which names are whose.
fn is_of(e: Entry, owner: usize, kind: u8, name: u16) -> bool
    ensures { result ≡ is_of e owner kind name }
{
    usize::from(e.owner) == owner && e.kind == kind && e.name == name
}

// Whether an entry is a group by a link that group g owns.
pub(crate) fn is_group(e: Entry, g: usize, l: Link) -> bool
    ensures { result ≡ is_of e g 7 l.0 }
{
    is_of(e, g, kinds::GROUP, l.0)
}

// A specimen with its index: its entries stand in buckets, of `most`, by owner, kind and name.
#[derive(Clone, Copy)]
pub(crate) struct Items<'a> {
    pub bytes: &'a [u8],
    pub index: &'a [u16],
    pub most: usize,
    ghost ready: { Ready Schema.Specimen most bytes.now index.now },
    ghost even: { (most - 1) % 2 ≡ 1 },
}

impl<'a> Items<'a> {
    // That g < 2048 stands in each contract that takes a group's number: a type of such numbers would be put on and taken off at every step along a
    // chain.

    // The entries of the bucket of an owner, a kind and a name, from the last back.
    #[inline(always)]
    #[tactic(auto, using(crate::proofs::index::BucketWalk::falls_bucket))]
    fn bucket(&self, g: usize, kind: u8, name: u16) -> Chain<'a>
        requires { g < 2048 }
        ensures { ComesTo self.now.index.now self.now.most (get_or self.now.index.now (hash_of self.now.most g kind name) 0) result }
    {
        Chain::of_bucket(self.index, self.most, hash(self.most, g, kind, name))
    }

    // The entries of the bucket where group g's groups by a link stand, from the last back.
    #[inline(always)]
    pub(crate) fn groups_by(&self, g: usize, l: Link) -> Chain<'a>
        requires { g < 2048 }
        ensures { ComesTo self.now.index.now self.now.most (get_or self.now.index.now (hash_of self.now.most g 7 l.0) 0) result }
    {
        self.bucket(g, kinds::GROUP, l.0)
    }

    // Whether an entry of the bucket by which owner, kind and name are found is of this owner, kind and name.
    fn any_of(&self, code: u8, g: usize, kind: u8, name: u16) -> bool
        requires { g < 2048 }
        ensures { result ≡ any_of self.now.most (entries_of self.now.bytes.now) (hash_of self.now.most g code name) g kind name }
    {
        for k in self.bucket(g, code, name) {
            if is_of(entry_at(self.bytes, k), g, kind, name) {
                return true;
            }
        }
        false
    }

    // Whether the items of group g have a property: whether an entry that g owns gives it. It is not inlined, twice, into the loop over a
    // place's entries, whose registers it would take.
    #[inline(never)]
    #[tactic(auto, using(crate::proofs::groups::GroupLaws::property_bucket))]
    pub(crate) fn has_property(&self, g: usize, p: Property) -> bool
        requires { g < 2048 }
        ensures { result ≡ has_property (entries_of self.now.bytes.now) g p.0 }
    {
        self.any_of(kinds::HAS, g, kinds::HAS, p.0)
    }

    // Whether group g has a group by a link that owns nothing.
    #[tactic(auto, using(crate::proofs::groups::GroupLaws::bare_bucket))]
    pub(crate) fn has_bare(&self, g: usize, l: Link) -> bool
        requires { g < 2048 }
        ensures { result ≡ has_bare (entries_of self.now.bytes.now) g l.0 }
    {
        self.any_of(BARE, g, kinds::GROUP, l.0)
    }
}

// What judging knows of both inputs: the specimen's entries by their index, and its table of totals; and the places of the description.
#[derive(Clone, Copy)]
pub(crate) struct Known<'a> {
    pub items: Items<'a>,
    pub totals: Totals<'a>,
    pub places: Places<'a>,
    ghost counted: { ∥ TotalsOf (entries_of items.bytes.now) (length (entries_of items.bytes.now)) totals.rows.now totals.used ∥₁ },
    ghost single: { Singles (entries_of items.bytes.now) (length (entries_of items.bytes.now)) },
}

impl<'a> Known<'a> {
    // What is known of the specimen that has these items and this table, and of the description that has these places.
    pub(crate) fn new(items: Items<'a>, totals: Totals<'a>, places: Places<'a>) -> Known<'a>
        requires { ∥ TotalsOf (entries_of items.bytes.now) (length (entries_of items.bytes.now)) totals.rows.now totals.used ∥₁
            × Singles (entries_of items.bytes.now) (length (entries_of items.bytes.now)) }
        ensures { (result.items.bytes.now ≡ items.entry.bytes.now) × (result.places.bytes.now ≡ places.entry.bytes.now)
            × (result.places.most ≡ places.entry.most) }
    {
        Known {
            items,
            totals,
            places,
        }
    }
}
