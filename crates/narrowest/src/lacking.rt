// What a place lacks under a list of pairs: what it lists so, and what some property that it has excludes.
ghost use Rattle.std.specs.Prelude.{◌≡◌, ◌&&◌, not};
ghost use Rattle.logic.specs.Normal.{excluded, find, found, supports};
ghost use Rattle.logic.specs.Place.{atom, has, lacks};
ghost use Rattle.narrow.specs.Join.{implied};
ghost use Rattle.narrowest.specs.code.Places.{place_in};
ghost use Rattle.pairs.specs.Pairs.{under};

use crate::form::AtomKind;
use crate::place::PlaceIn;
use blocks::Property;
use pairs::Exclusions;

impl PlaceIn<'_> {
    // Whether it lists a property.
    fn has(self, q: Property) -> bool
        ensures { result ≡ found (find has q.0 (place_in self.entry)) }
    {
        self.listed(AtomKind::Has, q.0).is_some()
    }

    // Whether it has a property that excludes p. A property that no pair has costs one look.
    fn excluded(self, exclusions: Exclusions<'_>, p: Property) -> bool
        ensures { result ≡ excluded (under exclusions.entry.pairs.now) p.0 (place_in self.entry) }
    {
        exclusions.excluding(p).any(
            |q: Property| -> bool
                ensures { result ≡ found (find has q.0 (place_in self.entry)) }
            { self.has(q) },
        )
    }

    // Whether it says that property p lacks.
    fn says_lack(self, exclusions: Exclusions<'_>, p: Property, near: &mut usize) -> bool
        ensures { result ≡ supports (under exclusions.entry.pairs.now) (place_in self.entry) (atom lacks p.0 0) }
    {
        self.listed_near(AtomKind::Lacks, p.0, near).is_some() || self.excluded(exclusions, p)
    }
}

// Two places that are joined.
#[derive(Clone, Copy)]
pub(crate) struct Sides<'a> {
    pub(crate) first: PlaceIn<'a>,
    pub(crate) second: PlaceIn<'a>,
}

impl Sides<'_> {
    // Whether some property that both have excludes p.
    fn implies_lack(self, exclusions: Exclusions<'_>, p: Property) -> bool
        ensures { result ≡ implied (under exclusions.entry.pairs.now) p.0 (place_in self.entry.first) (place_in self.entry.second) }
    {
        exclusions.excluding(p).any(
            |q: Property| -> bool
                ensures { result ≡ (found (find has q.0 (place_in self.entry.first)) && found (find has q.0 (place_in self.entry.second))) }
            { self.first.has(q) && self.second.has(q) },
        )
    }

    // Whether a lack that the first place says is one of the joined place: the second says it too, and no property that both have implies it.
    pub(crate) fn lists_lack(
        self,
        exclusions: Exclusions<'_>,
        p: Property,
        near: &mut usize,
    ) -> bool
        ensures { result ≡ (supports (under exclusions.entry.pairs.now) (place_in self.entry.second) (atom lacks p.0 0)
            && not (implied (under exclusions.entry.pairs.now) p.0 (place_in self.entry.first) (place_in self.entry.second))) }
    {
        self.second.says_lack(exclusions, p, near) && !self.implies_lack(exclusions, p)
    }
}
