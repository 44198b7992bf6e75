// The table of totals, worked out before the walk over entries: for each owner and link with a group, the number of items in all its
// groups, and nothing else. A row is one number of 64 bits, owner and link above the items; chains by the bucket of owner and link find it
// again. At most 2,016 groups of at most 65,536 items make 132,120,576.
ghost use Rattle.std.specs.Prelude.{◌≡◌, List, ◌+◌, ◌*◌, ◌-◌, ◌≤◌, ◌<◌, ℕ, eqb, false, leb, length, get_or, replicate, set};
ghost use Rattle.base.specs.Chain.{last_where};
ghost use Rattle.base.specs.Range.{bit};
ghost use Rattle.blocks.specs.Entries.{entries_of, nth};
ghost use Rattle.blocks.specs.Single.{items_up_to};
ghost use Rattle.blocks.specs.code.Blockwise.{Whole};
ghost use Rattle.blocks.specs.declared.Entry.{Entry};
ghost use Rattle.fit.specs.Totals.{TotalsOf, groups_up_to, items_in};
ghost use Rattle.fit.specs.code.Bare.{Marked, any_entry};
ghost use Rattle.fit.specs.code.Index.{Ordered};
ghost use Rattle.fit.specs.code.Rows.{FoundRow, Rows, Singles, Small, empty_row, pair_in, pair_of, pairs_of};

use crate::chain::Chain;
use crate::index::{hash, masked, put};
use blocks::{Entry, Link, entries_in_order, kinds};

// The owner and the link of a row.
fn pair_in(row: u64) -> u64
    ensures { result ≡ pair_in row }
{
    row / 4294967296
}

// The items of a row.
fn items_in(row: u64) -> u32
    ensures { result ≡ items_in row }
{
    (row % 4294967296) as u32
}

// An owner and a link as one number. There is no `From` that makes a `u64` of a `usize`.
fn pair_of(owner: usize, l: Link) -> u64
    requires { owner < 65536 }
    ensures { (result ≡ pair_of owner l.0) × (result < 4294967296) × (l.0 < 65536) }
{
    65536 * (owner as u64) + u64::from(l.0)
}

// The table as it is looked into: rows 1 to `used`, chained by the buckets, of `most`, of their owners and links. One
// less than `most` is at hand as `mask`: each entry of a place may ask for a total.
#[derive(Clone, Copy)]
pub(crate) struct Totals<'a> {
    pub rows: &'a [u64],
    pub links: &'a [u16],
    pub most: usize,
    pub mask: usize,
    pub used: usize,
    ghost kept: { Rows most rows.now links.now used },
    ghost masked: { mask ≡ most - 1 },
}

impl<'a> Totals<'a> {
    // The row of an owner and a link.
    fn row_of(&self, owner: usize, l: Link) -> Option<usize>
        requires { owner < 65536 }
        ensures { FoundRow self.now.rows.now self.now.used owner l.0 result × (l.0 < 65536) }
    {
        let pair = pair_of(owner, l);
        for r in Chain::of_bucket(
            self.links,
            self.most,
            masked(self.mask, owner, kinds::GROUP, l.0),
        ) {
            if pair_in(self.rows[r]) == pair {
                return Some(r);
            }
        }
        None
    }

    // The number of items of an owner by a link: that of their row. Without a row they have none. Nothing is added up here.
    pub(crate) fn total_of(&self, owner: usize, l: Link) -> u32
        requires { owner < 65536 }
        ensures { (es : List Entry) → (n : ℕ) → TotalsOf es n self.now.rows.now self.now.used → result ≡ items_up_to es owner l.0 n }
    {
        // `map_or` says the same; its proof did not close with a bare closure, and a contract on it would be longer than the match.
        match self.row_of(owner, l) {
            Some(r) => items_in(self.rows[r]),
            None => 0,
        }
    }

    // Whether an owner has at most so many items by a link. Of a link that leads to one item only an accepted specimen has one at most, so
    // that at most 1 or more needs no look.
    pub(crate) fn at_most(&self, owner: usize, l: Link, number: u16) -> bool
        requires { owner < 65536 }
        ensures { (es : List Entry) → (n : ℕ) → TotalsOf es n self.now.rows.now self.now.used → Singles es n
            → result ≡ leb (items_up_to es owner l.0 n) number }
    {
        if l.is_single() && 0 < number {
            return true;
        }
        self.total_of(owner, l) <= u32::from(number)
    }
}

// Adds the items of a group to a row, and counts that. Items are added nowhere else.
fn add_items(row: u64, e: Entry, adds: &mut u16) -> u64
    requires { (items_in row + 65536 < 4294967296) × (adds.old < 65535) }
    ensures { (result ≡ row + (e.number + 1)) × (e.number < 65536) × (adds.new ≡ adds.old + 1) }
{
    *adds += 1;
    row + (u64::from(e.number) + 1)
}

// The table as it is made, of fewer than MOST rows; LINKS is twice that.
#[derive(Drop)]
pub(crate) struct Filling<const MOST: usize, const LINKS: usize> {
    rows: [u64; MOST],
    links: [u16; LINKS],
    used: usize,
    ghost kept: { Rows MOST rows links used },
}

impl<const MOST: usize, const LINKS: usize> Filling<MOST, LINKS> {
    // A table without rows.
    #[inline(always)]
    pub(crate) fn new() -> Filling<MOST, LINKS>
        requires { (0 < MOST) × (MOST ≤ 2048) × (LINKS ≡ MOST + MOST) }
        ensures { result.used ≡ 0 }
    {
        Filling {
            rows: [0; MOST],
            links: [0; LINKS],
            used: 0,
        }
    }

    // The table as it is looked into.
    #[inline(always)]
    pub(crate) fn totals(&self) -> Totals<'_>
        ensures { (result.rows.now ≡ self.now.rows) × (result.links.now ≡ self.now.links) × (result.most ≡ MOST) × (result.used ≡ self.now.used) }
    {
        Totals {
            rows: &self.rows,
            links: &self.links,
            most: MOST,
            mask: MOST - 1,
            used: self.used,
        }
    }

    // Enters entry e, which stands after the first n: the items of a group go to the row of its owner and link, which is found or made.
    fn enter(&mut self, n: usize, e: Entry, adds: &mut u16)
        requires { Small n self.old.rows self.old.used × (n + 1 < MOST) × (adds.old ≤ n) }
        ensures { Small (n + 1) self.new.rows self.new.used
            × (adds.new ≡ adds.old + bit (eqb e.kind 7))
            × ((es : List Entry) → e ≡ nth es (n + 1) → TotalsOf es n self.old.rows self.old.used
            → TotalsOf es (n + 1) self.new.rows self.new.used) }
    {
        if e.kind != kinds::GROUP {
            return;
        }
        let owner = usize::from(e.owner);
        let link = e.link();
        match self.totals().row_of(owner, link) {
            Some(r) => self.rows[r] = add_items(self.rows[r], e, adds),
            None => {
                self.used += 1;
                let row = 4294967296 * pair_of(owner, link);
                self.rows[self.used] = add_items(row, e, adds);
                put(
                    &mut self.links,
                    MOST,
                    self.used,
                    hash(MOST, owner, kinds::GROUP, link.0),
                );
            }
        }
    }

    // Works out the table of a specimen with so many entries. Each group is added once. Owners are marked, so that groups that own nothing are
    // known.
    #[inline(always)]
    pub(crate) fn fill(&mut self, s: &[u8], total: usize, marks: &mut [bool], adds: &mut u16)
        requires { (total ≡ length (entries_of s.now)) × (total < MOST) × (self.old.used ≡ 0) × (adds.old ≡ 0) × Ordered (entries_of s.now)
            × (marks.old ≡ replicate MOST false) × Whole s.now total }
        ensures { TotalsOf (entries_of s.now) total self.new.rows self.new.used × (adds.new ≡ groups_up_to (entries_of s.now) total)
            × Marked any_entry (entries_of s.now) total MOST marks.new }
    {
        for (before, bytes) in entries_in_order(s, total).enumerate() {
            let e = Entry::from(bytes);
            marks[usize::from(e.owner)] = true;
            self.enter(before, e, adds);
        }
    }
}
