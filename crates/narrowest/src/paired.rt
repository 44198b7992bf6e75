// A place of the result: one place of each normal form, joined, or one of them whole, where the other's number is 0.
ghost use Rattle.std.specs.Prelude.{◌≡◌, ◌<◌, ◌≤◌, ◌&&◌, ◌+◌, ◌*◌, length};
ghost use Rattle.narrowest.specs.code.Codes.{closes, code_below, first_alone, joined_code, leads, mated, second_alone};
ghost use Rattle.narrowest.specs.code.Forms.{entries_in};
ghost use Rattle.meaning.specs.Lookup.{entry_for};
ghost use Rattle.narrowest.specs.code.Places.{place_in};

use crate::form::AtomKind;
use crate::lacking::Sides;
use crate::place::PlaceIn;
use blocks::{Entry, kinds};

impl PlaceIn<'_> {
    // Whether it lists at most 0 of a link.
    fn closes(self, link: u16, near: &mut usize) -> bool
        ensures { result ≡ closes link (place_in self.entry) }
    {
        match self.listed_near(AtomKind::AtMost, link, near) {
            Some(most) => most == 0,
            None => false,
        }
    }
}

// Whether an entry leads to a place of the result: an 'every', and at most 0, below which the other side's place stands.
pub(crate) fn leads(e: Entry) -> bool
    ensures { result ≡ leads e }
{
    e.kind == kinds::EVERY || e.kind == kinds::AT_MOST && e.number == 0
}

// Where the last looks for a link ended, at most how many and 'every' on each side: the next is looked for from there.
#[derive(Clone, Copy)]
pub(crate) struct Near {
    first_most: usize,
    first_every: usize,
    second_most: usize,
    second_every: usize,
}

// The two places, and for each 'every' entry of the first form the second's at the same path: 0 where there is none, and where nothing is to be
// written below it.
#[derive(Clone, Copy)]
pub(crate) struct Paired<'a> {
    pub(crate) sides: Sides<'a>,
    pub(crate) mates: &'a [u16],
    ghost covered: { length sides.first.form.rows.now < length mates.now },
}

impl Paired<'_> {
    // Where the looks for links begin.
    pub(crate) fn near(self) -> Near {
        let first = self.sides.first.start();
        let second = self.sides.second.start();
        Near {
            first_most: first,
            first_every: first,
            second_most: second,
            second_every: second,
        }
    }

    // Whether the first's place stands whole.
    pub(crate) fn first_alone(self) -> bool
        ensures { result ≡ first_alone self.entry.sides.first.owner self.entry.sides.second.owner }
    {
        self.sides.first.owner != 0 && self.sides.second.owner == 0
    }

    // Whether the second's does.
    pub(crate) fn second_alone(self) -> bool
        ensures { result ≡ second_alone self.entry.sides.first.owner self.entry.sides.second.owner }
    {
        self.sides.first.owner == 0 && self.sides.second.owner != 0
    }

    // The code of the first's 'every' of a link, joined with its mate; 0 where it has none.
    fn mated(self, link: u16, near: &mut Near) -> u32
        ensures { result ≡ mated self.entry.mates.now
            (entry_for (entries_in self.entry.sides.first.form.rows.now) self.entry.sides.first.owner 5 link) }
    {
        let m = self.sides.first.below(link, &mut near.first_every);
        let mate = self.mates[m];
        if mate == 0 {
            return 0;
        }
        1024 * m as u32 + u32::from(mate)
    }

    // The code of the place below a link of two joined places: where one side has at most 0 of it, the other's place whole.
    #[tactic(auto, unfolding(crate::specs::code::Codes::joined_code))]
    fn joined_below(self, link: u16, near: &mut Near) -> u32
        ensures { result ≡ joined_code (entries_in self.entry.sides.first.form.rows.now) (entries_in self.entry.sides.second.form.rows.now)
            self.entry.mates.now self.entry.sides.first.owner self.entry.sides.second.owner link }
    {
        if self.sides.second.closes(link, &mut near.second_most) {
            return 1024 * self.sides.first.below(link, &mut near.first_every) as u32;
        }
        if self.sides.first.closes(link, &mut near.first_most) {
            return self.sides.second.below(link, &mut near.second_every) as u32;
        }
        self.mated(link, near)
    }

    // The code of the place below a link, 0 where nothing stands there.
    #[tactic(auto, unfolding(crate::specs::code::Codes::code_below))]
    pub(crate) fn below(self, link: u16, near: &mut Near) -> u32
        ensures { result ≡ code_below (entries_in self.entry.sides.first.form.rows.now) (entries_in self.entry.sides.second.form.rows.now)
            self.entry.mates.now self.entry.sides.first.owner self.entry.sides.second.owner link }
    {
        if self.first_alone() {
            return 1024 * self.sides.first.below(link, &mut near.first_every) as u32;
        }
        if self.second_alone() {
            return self.sides.second.below(link, &mut near.second_every) as u32;
        }
        self.joined_below(link, near)
    }
}
