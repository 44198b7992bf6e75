// The result, place by place: the top first, then the place of each 'every' entry in the order in which the entries stand. Each place has a code:
// 1,024 times its place of the first normal form, and that of the second.
ghost use Rattle.std.specs.Prelude.{◌≡◌, ◌≢◌, ◌+◌, ◌≤◌, ◌<◌, ◌/◌, ◌%◌, get_or, length, map, replicate};
ghost use Rattle.logic.specs.Layout.{write};
ghost use Rattle.narrowest.specs.code.Codes.{tree_by};
ghost use Rattle.narrowest.specs.code.Forms.{entries_in};
ghost use Rattle.narrowest.specs.code.Knots.{StepBelow};
ghost use Rattle.narrowest.specs.code.Mates.{Walkable};
ghost use Rattle.narrowest.specs.code.Pushes.{Counted, row_number};

use crate::mates::Joining;
use crate::placed::push_place;

impl Joining<'_> {
    // Pushes the rows of the place below row i, where row i leads to one: no row leads to the top, so that code 0 is no place.
    fn push_below(
        self,
        i: usize,
        mates: &[u16],
        order: &mut [u64],
        rows: &mut [u64],
        below: &mut [u32],
        count: usize,
    ) -> usize
        requires { (count ≤ length rows.old + 1) × (length rows.old < length below.old) × (1136 ≤ length order.old)
            × (i ≤ length rows.old) × (i < 65536) × (length self.first.rows.now < length mates.now) × (get_or below.old i 0 < 67108864) }
        ensures { StepBelow self.entry.exclusions.pairs.now (entries_in self.entry.first.rows.now) (entries_in self.entry.second.rows.now) mates.now
            (length rows.old) i rows.old count below.old rows.new result below.new }
    {
        let code = below[i];
        if code == 0 {
            return count;
        }
        let pair = self.pair((code / 1024) as u16, (code % 1024) as u16, mates);
        push_place(pair, self.exclusions, i as u16, order, rows, below, count)
    }

    // Writes the rows of all places, as far as there is room for them, and returns their number, or one more than there is room for.
    pub(crate) fn write_rows(
        self,
        mates: &[u16],
        order: &mut [u64],
        rows: &mut [u64],
        below: &mut [u32],
    ) -> usize
        requires { (below.old ≡ replicate (length rows.old + 1) 0) × (1136 ≤ length order.old) × (length rows.old ≤ 1008)
            × (length self.first.rows.now < length mates.now)
            × Walkable self.exclusions.pairs.now self.first.rows.now self.second.rows.now mates.now }
        ensures { Counted (length rows.old) rows.old 0 (map row_number (write
            (tree_by self.entry.exclusions.pairs.now
            (entries_in self.entry.first.rows.now) (entries_in self.entry.second.rows.now) 0))) rows.new result }
    {
        let pair = self.pair(0, 0, mates);
        let mut count = push_place(pair, self.exclusions, 0, order, rows, below, 0);
        // `while` and no `for`: the rows that are walked over grow in number on the way.
        let mut i: usize = 1;
        while i <= count && count <= rows.len() {
            count = self.push_below(i, mates, order, rows, below, count);
            i += 1;
        }
        count
    }
}
