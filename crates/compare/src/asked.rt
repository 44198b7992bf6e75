// What a place of the specimen is asked for beyond what the first description says there: on the path to the entry that fails, an item by
// the next link; at its end, what the entry denies. A target is a number: 0 asks nothing, i + 1 stands i links down the path. It is
// no Option, since `below` holds it in the codes of places, 1,024 times: there 0 adds nothing.
ghost use Rattle.std.specs.Prelude.{◌≡◌, List, ℕ, ◌+◌, ◌*◌, ◌≤◌};
ghost use Rattle.meaning.specs.Description.{atom_of};
ghost use Rattle.logic.specs.Witness.{target_links, target_properties, want};
ghost use Rattle.compare.specs.code.Codes.{target_at, target_below, up_from};
ghost use Rattle.compare.specs.code.Asked.{One, code_asked, least_asked, link_in, of_link, property_in};

use crate::items::Items;
use crate::path::Path;
use blocks::{Link, Property, kinds};

// A link is no property's number, nor is a property's number a link's.
impl Path {
    // The property that is asked for: that of a 'lacks' at the end of the path.
    pub(crate) fn asked_property(&self, target: usize) -> Option<Property>
        requires { target ≤ self.now.depth + 1 }
        ensures { One (property_in result) × (target_properties (target_at (up_from self.now.links self.now.depth) (atom_of self.now.entry) target) ≡ property_in result) }
    {
        let e = self.entry;
        // `then` says the same; the `if` has no closure to prove.
        if target == self.depth() + 1 && e.kind == kinds::LACKS {
            Some(e.property())
        } else {
            None
        }
    }

    // The items that are asked for: one by the next link of the path; at its end, one more than an 'at most' allows.
    pub(crate) fn asked_items(&self, target: usize) -> Option<Items>
        requires { target ≤ self.now.depth + 1 }
        ensures { One (link_in result) × (target_links (target_at (up_from self.now.links self.now.depth) (atom_of self.now.entry) target) ≡ link_in result)
            × ((x : ℕ) → want (target_at (up_from self.now.links self.now.depth) (atom_of self.now.entry) target) x ≡ least_asked result x)
            × ((x : ℕ) → 1024 * target_below (up_from self.now.links self.now.depth) target x ≡ code_asked result x) }
    {
        if target == 0 {
            return None;
        }
        let depth = self.depth();
        if target <= depth {
            return Some(Items {
                link: self.link(depth - target),
                count: 1,
                code: (1024 * (target + 1)) as u16,
            });
        }
        let e = self.entry;
        if e.kind != kinds::AT_MOST {
            return None;
        }
        Some(Items {
            link: e.link(),
            count: u64::from(e.number) + 1,
            code: 0,
        })
    }
}

// The items that are asked for, if they are of this link.
fn of_link(asked: Option<Items>, l: Link) -> Option<Items>
    ensures { result ≡ of_link asked l.0 }
{
    asked.filter(|items| l == items.link)
}

// How many items of a link are asked for.
pub(crate) fn least_asked(asked: Option<Items>, l: Link) -> u64
    ensures { result ≡ least_asked asked l.0 }
{
    of_link(asked, l).map_or(0, |items| items.count)
}

// The code of the target that they lead to: as `least_asked`, of a field of another type.
pub(crate) fn code_asked(asked: Option<Items>, l: Link) -> u16
    ensures { result ≡ code_asked asked l.0 }
{
    of_link(asked, l).map_or(0, |items| items.code)
}
