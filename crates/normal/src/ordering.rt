// The slots of one place and class in ascending order of name, as tags: a run is put in order when its place's turn comes. The place stays a number,
// as in `slots`; which class is meant is said by the function that is called, and no number says it.
ghost use Rattle.std.specs.Prelude.{◌*◌, ◌+◌, ◌<◌, ◌≤◌, length};
ghost use Rattle.normal.specs.code.ClassRuns.{InOrder};
ghost use Rattle.slots.specs.code.TablePlaces.{used_in};

use crate::settled::Slots;

impl<'a> Slots<'a> {
    // Puts the tags of the properties of place v in order, and returns how many there are.
    pub(crate) fn property_run(&self, v: u16, order: &mut [u64]) -> usize
        requires { (v < length self.now.table.now) × (used_in self.now.table.now ≤ length order.old) }
        ensures { InOrder self.now.table.now (2 * v) order.new result }
    {
        let n = runs::gather_properties(self.table, self.last, self.before, v, 0, order);
        sorting::sort(&mut order[..n]);
        n
    }

    // The same for its links.
    pub(crate) fn link_run(&self, v: u16, order: &mut [u64]) -> usize
        requires { (v < length self.now.table.now) × (used_in self.now.table.now ≤ length order.old) }
        ensures { InOrder self.now.table.now (2 * v + 1) order.new result }
    {
        let n = runs::gather_links(self.table, self.last, self.before, v, 0, order);
        sorting::sort(&mut order[..n]);
        n
    }
}
