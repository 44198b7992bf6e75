// What a place lacks because it has a property that excludes it: by the pairs in which it has a property, a bit for each.
ghost use Rattle.std.specs.Prelude.{◌≡◌, List, get_or};
ghost use Rattle.pairs.specs.Pairs.{under};
ghost use Rattle.pairs.specs.code.Sides.{no_sides};
ghost use Rattle.passes.specs.code.Restrict.{excluded_at};
ghost use Rattle.passes.specs.code.Slots.{Slot};

use blocks::Property;
use pairs::{Exclusions, Sides};

// A list of pairs, and for each place the pairs in which it has a property, a bit for each. So whether a place has what excludes a
// property costs one look at the place, however often and however variously the list repeats it. Where the list is empty there are no marks.
#[derive(Clone, Copy)]
pub(crate) struct Marked<'a> {
    pub exclusions: Exclusions<'a>,
    pub marks: &'a [Sides],
}

impl Marked<'_> {
    ghost use Rattle.slots.specs.code.Lent.{MarkedIn};

    // The pairs in which a place has a property: none where it is past the marks.
    fn at(self, place: u64) -> Sides
        ensures { result ≡ get_or self.entry.marks.now place no_sides }
    {
        let v = place as usize;
        if self.marks.len() <= v {
            return Sides::none();
        }
        self.marks[v]
    }

    // Whether a place has a property that excludes p. A property that no pair has costs one look at the list.
    pub(crate) fn excluded(self, place: u64, p: Property) -> bool
        ensures { (ss : List Slot) → MarkedIn ss self.entry → result ≡ excluded_at (under self.entry.exclusions.pairs.now) ss place p.0 }
    {
        self.exclusions.excluded_beside(self.at(place), p)
    }
}
