// The rows of one place of the specimen: the properties and groups that the first description's slots ask for there, and what its target
// asks for. The names of a place are put in order when its turn comes, so that places that the specimen does not come to are never sorted.
//
// Each look-up takes a property or a link, and goes to the run of that class itself, so that neither is taken for the other.
ghost use Rattle.std.specs.Prelude.{false, true, ◌+◌, ◌≤◌, ◌<◌, length, take};
ghost use Rattle.logic.specs.Filling.{Filled};
ghost use Rattle.logic.specs.Place.{has, least};
ghost use Rattle.compare.specs.code.Asked.{One, link_in, property_in};
ghost use Rattle.compare.specs.code.Codes.{OnPath, PlacedBy, numbers_by};
ghost use Rattle.compare.specs.code.Tags.{Gathered, Run, tag_unless};

use crate::items::Items;
use crate::path::Path;
use crate::rows::{push_groups, push_properties};
use crate::settled::Slots;
use blocks::Property;

impl<'a> Slots<'a> {
    // Adds the tag of a name, whose slot is s, to the n tags in `order`, unless that slot asks for it. Beside push_tag of crate runs: that has a slot
    // that says enough, this a name whose slot says nothing, or that has none. `order` and n are no struct, here as there: nothing is needed of them
    // afterwards but the number that is returned.
    fn add_tag(&self, s: usize, name: u16, order: &mut [u64], n: usize) -> usize
        requires { (n < length order.old) × (s < length self.now.table.now) }
        ensures { Filled (length order.old) order.old n (tag_unless self.now.table.now s name) order.new result }
    {
        if self.least_in(s) != 0 {
            return n;
        }
        order[n] = 1024 * u64::from(name) + s as u64;
        n + 1
    }

    // Gathers the tags of the properties of place v of which there is at least one item, and adds that of the one that is asked for, if any.
    fn gather_properties(&self, v: u16, asked: Option<Property>, order: &mut [u64]) -> usize
        requires { (length self.now.table.now ≤ length order.old) × One (property_in asked) }
        ensures { Gathered self.now.table.now v false (property_in asked) order.new result }
    {
        let n = runs::gather_properties(self.table, self.last, self.before, v, 1, order);
        match asked {
            None => n,
            Some(p) => {
                let s = runs::property_slot(self.table, self.last, self.before, v, p);
                self.add_tag(s, p.0, order, n)
            }
        }
    }

    // The same for its links.
    fn gather_links(&self, v: u16, asked: Option<Items>, order: &mut [u64]) -> usize
        requires { (length self.now.table.now ≤ length order.old) × One (link_in asked) }
        ensures { Gathered self.now.table.now v true (link_in asked) order.new result }
    {
        let n = runs::gather_links(self.table, self.last, self.before, v, 1, order);
        match asked {
            None => n,
            Some(items) => {
                let l = items.link;
                let s = runs::link_slot(self.table, self.last, self.before, v, l);
                self.add_tag(s, l.0, order, n)
            }
        }
    }

    // The tags of the properties, in order; returns how many there are.
    fn tag_properties(&self, v: u16, asked: Option<Property>, order: &mut [u64]) -> usize
        requires { (length self.now.table.now ≤ length order.old) × One (property_in asked) }
        ensures { (result ≤ length order.new) × Run self.now.table.now v has (property_in asked) (take result order.new) }
    {
        let n = self.gather_properties(v, asked, order);
        sorting::sort(&mut order[..n]);
        n
    }

    // The tags of the links, in order.
    fn tag_links(&self, v: u16, asked: Option<Items>, order: &mut [u64]) -> usize
        requires { (length self.now.table.now ≤ length order.old) × One (link_in asked) }
        ensures { (result ≤ length order.new) × Run self.now.table.now v least (link_in asked) (take result order.new) }
    {
        let n = self.gather_links(v, asked, order);
        sorting::sort(&mut order[..n]);
        n
    }
}

// Pushes the rows of the place of a code, of this owner: its properties, then its groups. Its tables stay parameters for the reason in rows.rt.
pub(crate) fn push_place(
    owner: u16,
    code: usize,
    slots: &Slots,
    path: &Path,
    order: &mut [u64],
    rows: &mut [u64],
    below: &mut [u16],
    count: usize,
) -> usize
    requires { (length slots.now.table.now ≤ length order.old) × (length rows.old < length below.old)
        × OnPath path.now.depth code × (count + length (numbers_by slots.now.table.now path.now.links path.now.depth path.now.entry owner code) ≤ length rows.old) }
    ensures { PlacedBy slots.now.table.now path.now.links path.now.depth path.now.entry (length rows.old) owner code rows.old count below.old rows.new result below.new }
{
    let v = (code % 1024) as u16;
    let target = code / 1024;
    let p = path.asked_property(target);
    let n = slots.tag_properties(v, p, order);
    let k = push_properties(owner, &order[..n], rows, count);
    let l = path.asked_items(target);
    let g = slots.tag_links(v, l, order);
    push_groups(owner, &order[..g], slots, l, rows, below, k)
}
