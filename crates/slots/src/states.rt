// Which entries of a second description hold: one pass over them, with the state of each 'every' in a table, and one look at the slots for
// an entry. The slots are not sorted.
ghost use Rattle.std.specs.Prelude.{◌≡◌, cond, List, ◌+◌, ◌*◌, ◌≤◌, ◌<◌, eqb, get_or, length, unwrap_or, IfSome, ◌||◌, is_some};
ghost use Rattle.blocks.specs.Entries.{entries_of};
ghost use Rattle.base.specs.Range.{bit};
ghost use Rattle.base.specs.Search.{first_from};
ghost use Rattle.logic.specs.Background.{standing};
ghost use Rattle.logic.specs.Normal.{at_most};
ghost use Rattle.pairs.specs.Pairs.{under};
ghost use Rattle.passes.specs.code.Restrict.{excluded_at};
ghost use Rattle.passes.specs.code.Slots.{Slot};
ghost use Rattle.slots.specs.code.Lent.{IndexedIn, MarkedIn};
ghost use Rattle.slots.specs.code.States.{beside_bounds, bounds_support, entry_slot, given, holds_in_state, holds_by_slots, needed, nowhere, passed, state_below};
ghost use Rattle.slots.specs.code.Tables.{Readable, high_in, high_part, low_part, no_bound, slots_in};

use crate::excluding::Marked;
use crate::slots::{NO_BOUND, Slots, entry_key, high_in, low_in};
use blocks::{Entry, Link, entries_in_order, kinds};

// Two states that are no place of the normal form: below NOWHERE nothing stands, and after PASSED, an at most 0, all holds. A slot has
// neither number. A state is looked up as a place: there is no slot at NOWHERE, which needs no test.
pub const NOWHERE: u16 = 1023;

const PASSED: u16 = 1024;

// What the support of an entry may rest on, a bit for each. The lower bound of its slot is 1 or more.
const ONE: u64 = 1;

// The upper bound is listed.
const LISTED: u64 = 2;

// The lower bound is at least the entry's number.
const ENOUGH: u64 = 4;

// The upper bound is at most the entry's number.
const FEW: u64 = 8;

// Nothing is asked.
const ALWAYS: u64 = 16;

// [C4] On which of these each kind rests. There are no other kinds than 1 to 6, and kind 6 is never supported.
#[tactic(auto, unfolding(crate::specs::code::States::needed))]
fn needed(kind: u8) -> u64
    ensures { result ≡ needed kind }
{
    match kind {
        kinds::HAS => ONE,
        kinds::LACKS => LISTED,
        kinds::AT_LEAST => ENOUGH,
        kinds::AT_MOST => FEW,
        kinds::EVERY => ALWAYS,
        _ => 0,
    }
}

// Those that the bounds of a slot give an entry of this number.
#[tactic(auto, unfolding(crate::specs::code::States::given))]
fn given(number: u16, x: u64) -> u64
    ensures { result ≡ given number (low_part x) (high_part x) }
{
    let n = u64::from(number);
    let (lo, hi) = (low_in(x), high_in(x));
    ONE * u64::from(1 <= lo)
        + LISTED * u64::from(hi < NO_BOUND)
        + ENOUGH * u64::from(n <= lo)
        + FEW * u64::from(hi <= n)
        + ALWAYS
}

// Whether a slot's bounds support an entry of this kind and number. All comparisons are made before the kind chooses among them, so that
// no jump depends on it: services come in any order of kinds, and such a jump would be guessed wrong.
#[tactic(auto, using(crate::proofs::states::BoundLaws::given_support))]
fn supported(kind: u8, number: u16, x: u64) -> bool
    ensures { result ≡ bounds_support kind number (low_part x) (high_in (high_part x)) }
{
    needed(kind) & given(number, x) != 0
}

// [S3] Whether every record has at most so many of a link: of one that leads to one item only, at most 1 or more.
fn always(link: Link, number: u16) -> bool
    ensures { result ≡ at_most number (standing.cap link.0) }
{
    link.is_single() && 1 <= number
}

// The state below an entry of this slot, if it is an 'every', whose link has at most `hi` there.
fn state_below(found: Option<usize>, hi: u64) -> u16
    requires { (unwrap_or found 0 ≤ 1008) × IfSome found (λ s. 1 ≤ s) }
    ensures { (result ≡ cond (eqb (unwrap_or found 0) 0) nowhere (cond (eqb hi 0) passed (unwrap_or found 0))) × (result ≤ passed) }
{
    found.map_or(NOWHERE, |s| if hi == 0 { PASSED } else { s as u16 })
}

impl Marked<'_> {
    // Whether an entry holds at a place that does not list it: an at most that every record keeps, or a lack that the place implies, since it
    // has a property that excludes the entry's. Few entries are asked this: it is not inlined into the loops over all of them, whose registers it
    // would take.
    #[inline(never)]
    fn holds_beside(self, place: u64, e: Entry) -> bool
        ensures { (ss : List Slot) → MarkedIn ss self.entry
            → result ≡ beside_bounds standing (excluded_at (under self.entry.exclusions.pairs.now) ss place e.name) e.kind e.name e.number }
    {
        let kind = e.kind;
        match kind {
            kinds::LACKS => self.excluded(place, e.property()),
            kinds::AT_MOST => always(e.link(), e.number),
            _ => false,
        }
    }

    // Whether an entry holds at a place, by the bounds of its slot or beside them. A part of both loops too.
    #[inline(always)]
    fn holds_at(self, place: u64, e: Entry, x: u64) -> bool
        ensures { (ss : List Slot) → MarkedIn ss self.entry → result ≡ (bounds_support e.kind e.number (low_part x) (high_in (high_part x))
            || beside_bounds standing (excluded_at (under self.entry.exclusions.pairs.now) ss place e.name) e.kind e.name e.number) }
    {
        supported(e.kind, e.number, x) || self.holds_beside(place, e)
    }
}

impl<const BUCKETS: usize, const CELLS: usize> Slots<'_, BUCKETS, CELLS> {
    // The slot of an entry at a place. A part of both loops too, inlined into each size of them.
    #[inline(always)]
    fn entry_slot(self, place: u64, e: Entry) -> Option<usize>
        requires { place < 1024 }
        ensures { (unwrap_or result 0 ≤ self.entry.used) × IfSome result (λ s. 1 ≤ s)
            × ((ss : List Slot) → IndexedIn ss self.entry → unwrap_or result 0 ≡ entry_slot ss place e) }
    {
        self.search(entry_key(place, e))
    }

    // The bounds of a slot, as a slot; none where there is no slot.
    fn bounds(self, found: Option<usize>) -> u64
        requires { (unwrap_or found 0 ≤ self.used) × IfSome found (λ s. 1 ≤ s) }
        ensures { result ≡ cond (eqb (unwrap_or found 0) 0) no_bound (get_or self.entry.table.now (unwrap_or found 0) 0) }
    {
        found.map_or(NO_BOUND, |s| self.table[s])
    }

    // Looks an entry up in a place of this state: if it holds there, the state of the place that it owns, should it be an 'every'. A part of both
    // loops over a description's entries, inlined into each, so that the tables are at hand.
    #[inline(always)]
    pub(crate) fn look(self, marked: Marked<'_>, state: u16, e: Entry) -> Option<u16>
        requires { (state ≤ passed) × MarkedIn (slots_in self.table.now self.used) marked }
        ensures { IfSome result (λ y. y ≤ passed)
            × ((ss : List Slot) → IndexedIn ss self.entry → is_some result ≡ holds_in_state (under marked.entry.exclusions.pairs.now) ss state e)
            × (e.kind ≡ 5 → (ss : List Slot) → IndexedIn ss self.entry
            → IfSome result (λ y. y ≡ state_below ss state e.name)) }
    {
        if state == PASSED {
            return Some(PASSED);
        }
        let place = u64::from(state);
        let s = self.entry_slot(place, e);
        let x = self.bounds(s);
        if !marked.holds_at(place, e, x) {
            return None;
        }
        Some(state_below(s, high_in(x)))
    }

    // The number of the first entry of a description with `total` entries that fails. What the lent states held does not count, so that one
    // table of them serves for many descriptions.
    #[inline(always)]
    pub(crate) fn first_failing_entry(
        self,
        marked: Marked<'_>,
        d: &[u8],
        total: usize,
        states: &mut [u16],
    ) -> Option<usize>
        requires { Readable d.now total × (total < length states.old) × MarkedIn (slots_in self.table.now self.used) marked }
        ensures { (unwrap_or result 0 ≤ total) × IfSome result (λ n. 1 ≤ n)
            × ((ss : List Slot) → IndexedIn ss self.entry
            → unwrap_or result 0 ≡ first_from (holds_by_slots (under marked.entry.exclusions.pairs.now) ss (entries_of d.now)) 1 total) }
    {
        states[0] = 0;
        for (before, bytes) in entries_in_order(d, total).enumerate() {
            let e = Entry::from(bytes);
            let s = states[usize::from(e.owner)];
            match self.look(marked, s, e) {
                Some(below) => states[before + 1] = below,
                None => return Some(before + 1),
            }
        }
        None
    }
}
