// For each 'every' entry of the first normal form, the second's at the same path, and whether the two places together say something.
//
// Owners stand before what they own: so the mates are found from the first entry to the last, and which of the joined places are empty is found
// from the last to the first, as a place is not empty either where an 'every' of it is not.
ghost use Rattle.std.specs.Prelude.{◌≡◌, ◌≢◌, ◌+◌, ◌≤◌, ◌<◌, length, get_or};
ghost use Rattle.narrowest.specs.code.Forms.{entries_in, kind_in};
ghost use Rattle.narrowest.specs.code.Mates.{Joinable, Mated, Settled, mate_at, says_along, says_any, says_kind, says_lack, says_link};
ghost use Rattle.narrowest.specs.code.Places.{place_in};

use crate::form::{AtomKind, Form, entry_of_row};
use crate::lacking::Sides;
use crate::lacks::note_lacks;
use crate::links::note_links;
use crate::paired::Paired;
use crate::place::PlaceIn;
use crate::rows::push_kind;
use blocks::kinds;
use pairs::Exclusions;

// Two normal forms, under a list of pairs.
#[derive(Clone, Copy)]
pub(crate) struct Joining<'a> {
    pub(crate) first: Form<'a>,
    pub(crate) second: Form<'a>,
    pub(crate) exclusions: Exclusions<'a>,
}

impl<'a> Joining<'a> {
    // A place of each, with the mates of the first's 'every' entries.
    pub(crate) fn pair(self, first: u16, second: u16, mates: &'a [u16]) -> Paired<'a>
        requires { length self.first.rows.now < length mates.now }
        ensures { (result.sides.first.form ≡ self.entry.first) × (result.sides.first.owner ≡ first) × (result.sides.second.form ≡ self.entry.second)
            × (result.sides.second.owner ≡ second) × (result.mates.now ≡ mates.now) }
    {
        Paired {
            sides: Sides {
                first: PlaceIn {
                    form: self.first,
                    owner: first,
                },
                second: PlaceIn {
                    form: self.second,
                    owner: second,
                },
            },
            mates,
        }
    }

    // The mate of the first's entry n, where it is an 'every': that of the second's at the path of its owner, with its link.
    fn mate(self, mates: &[u16], n: usize, near: &mut usize) -> u16
        requires { (1 ≤ n) × (n ≤ length self.first.rows.now) × (length self.first.rows.now < length mates.now) }
        ensures { result ≡ mate_at (entries_in self.entry.first.rows.now) (entries_in self.entry.second.rows.now) mates.now n }
    {
        let e = entry_of_row(self.first.rows[n - 1]);
        if e.kind != kinds::EVERY {
            return 0;
        }
        let mate = mates[usize::from(e.owner)];
        if e.owner != 0 && mate == 0 {
            return 0;
        }
        self.second.find(mate, kinds::EVERY, e.name, near) as u16
    }

    // Finds the mates of all 'every' entries of the first; those of others are 0.
    pub(crate) fn find_mates(self, mates: &mut [u16])
        requires { (length self.first.rows.now < length mates.old) × (get_or mates.old 0 0 ≡ 0) }
        ensures { Mated (entries_in self.entry.first.rows.now) (entries_in self.entry.second.rows.now)
            (length (entries_in self.entry.first.rows.now)) mates.new }
    {
        let mut near: usize = 0;
        for n in 0..self.first.rows.len() {
            let mate = self.mate(mates, n + 1, &mut near);
            mates[n + 1] = mate;
        }
    }

    // Whether the places of an 'every' entry and its mate together say something.
    fn says(self, n: u16, mates: &[u16]) -> bool
        requires { (n ≤ length self.first.rows.now) × (length self.first.rows.now < length mates.now) × (get_or mates.now n 0 ≢ 0) × (n ≢ 0) }
        ensures { result ≡ says_any self.entry.exclusions.pairs.now (entries_in self.entry.first.rows.now) (entries_in self.entry.second.rows.now)
            mates.now n (get_or mates.now n 0) }
    {
        let pair = self.pair(n, mates[usize::from(n)], mates);
        let own = self.first.span(n).rows;
        says_any(pair, self.exclusions, own)
    }

    // Takes the mates of those that do not away.
    pub(crate) fn drop_empty(self, mates: &mut [u16])
        requires { (length self.first.rows.now < length mates.old)
            × Joinable self.exclusions.pairs.now self.first.rows.now self.second.rows.now
            × Mated (entries_in self.first.rows.now) (entries_in self.second.rows.now) (length (entries_in self.first.rows.now)) mates.old }
        ensures { Settled self.entry.exclusions.pairs.now (entries_in self.entry.first.rows.now)
            (entries_in self.entry.second.rows.now) 0 mates.old mates.new }
    {
        let count = self.first.rows.len();
        for i in 0..count {
            let n = count - i;
            if mates[n] != 0 && !self.says(n as u16, mates) {
                mates[n] = 0;
            }
        }
    }
}

// Whether two joined places say something of a kind.
fn says_kind(kind: AtomKind, own: &[u64], second: PlaceIn<'_>, near: &mut usize) -> bool
    ensures { result ≡ says_kind (kind_in kind) (place_in second.entry) (entries_in own.now) }
{
    push_kind(kind, 0, own, second, near, &mut [], 0) != 0
}

// Whether they have a lack.
fn says_lack(sides: Sides<'_>, exclusions: Exclusions<'_>, own: &[u64]) -> bool
    ensures { result ≡ says_lack exclusions.entry.pairs.now (place_in sides.entry.first) (place_in sides.entry.second) (entries_in own.now) }
{
    let mut near = sides.second.start();
    note_lacks(sides, &mut near, exclusions, own, &mut []) != 0
}

// Whether they have an 'every'.
fn says_link(pair: Paired<'_>, own: &[u64]) -> bool
    ensures { result ≡ says_link (entries_in pair.entry.sides.first.form.rows.now) (entries_in pair.entry.sides.second.form.rows.now)
        pair.entry.mates.now pair.entry.sides.first.owner pair.entry.sides.second.owner (entries_in own.now) }
{
    note_links(pair, own, &mut []) != 0
}

// Whether they say anything, along the entries of the first.
#[tactic(auto, unfolding(crate::specs::code::Mates::says_along))]
fn says_any(pair: Paired<'_>, exclusions: Exclusions<'_>, own: &[u64]) -> bool
    ensures { result ≡ says_along exclusions.entry.pairs.now (entries_in pair.entry.sides.first.form.rows.now)
        (entries_in pair.entry.sides.second.form.rows.now)
        pair.entry.mates.now pair.entry.sides.first.owner pair.entry.sides.second.owner (entries_in own.now) }
{
    let second = pair.sides.second;
    let mut near = second.start();
    if says_kind(AtomKind::Has, own, second, &mut near) {
        return true;
    }
    if says_kind(AtomKind::AtLeast, own, second, &mut near) {
        return true;
    }
    if says_kind(AtomKind::AtMost, own, second, &mut near) {
        return true;
    }
    if says_lack(pair.sides, exclusions, own) {
        return true;
    }
    says_link(pair, own)
}
