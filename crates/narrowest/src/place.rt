// A place of a normal form, and what it lists.
ghost use Rattle.std.specs.Prelude.{◌≡◌};
ghost use Rattle.logic.specs.Normal.{find};
ghost use Rattle.meaning.specs.Lookup.{entry_for};
ghost use Rattle.narrowest.specs.code.Forms.{entries_in, kind_in, option_of};
ghost use Rattle.narrowest.specs.code.Places.{place_in};

use crate::form::{AtomKind, Form, entry_of_row};
use blocks::kinds;

// A place of a normal form: what an entry owns, or the top for 0.
#[derive(Clone, Copy)]
pub(crate) struct PlaceIn<'a> {
    pub(crate) form: Form<'a>,
    pub(crate) owner: u16,
}

impl<'a> PlaceIn<'a> {
    // The number that it lists for a kind and a name, if it does, looked for near a place of the form.
    pub(crate) fn listed_near(self, kind: AtomKind, name: u16, near: &mut usize) -> Option<u16>
        ensures { result ≡ option_of (find (kind_in kind) name (place_in self.entry)) }
    {
        let n = self.form.find(self.owner, kind.number(), name, near);
        if n == 0 {
            return None;
        }
        Some(entry_of_row(self.form.rows[n - 1]).number)
    }

    // The same, looked for from the start of the place.
    pub(crate) fn listed(self, kind: AtomKind, name: u16) -> Option<u16>
        ensures { result ≡ option_of (find (kind_in kind) name (place_in self.entry)) }
    {
        let mut near = self.start();
        self.listed_near(kind, name, &mut near)
    }

    // Where its entries may begin.
    pub(crate) fn start(self) -> usize {
        self.form.start(self.owner)
    }

    // The entry of its 'every' of a link; 0 where it has none. It is looked for near a place of the form.
    pub(crate) fn below(self, link: u16, near: &mut usize) -> usize
        ensures { result ≡ entry_for (entries_in self.entry.form.rows.now) self.entry.owner 5 link }
    {
        self.form.find(self.owner, kinds::EVERY, link, near)
    }
}
