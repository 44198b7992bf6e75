// The fourth pass, place by place: the top first, then the place of each 'every' entry in the order in which the entries stand.
ghost use Rattle.std.specs.Prelude.{◌≡◌, ◌≢◌, [], ◌+◌, ◌≤◌, ◌<◌, length, get_or, replicate};
ghost use Rattle.slots.specs.code.TablePlaces.{used_in};
ghost use Rattle.normal.specs.code.Emitted.{Grown, Pushed, Stepped, all_rows, cells_of, kept_by, place_rows};

use crate::emit::push_place;
use crate::settled::Slots;

// Pushes the rows of the place below row k, where row k leads to one. A slot of 0 is no place: no row leads to the top, and `below`
// is cleared so; with an Option for each row it would be twice as long. Its tables stay parameters for the reason in emit.rt.
fn push_below(
    k: usize,
    slots: &Slots,
    order: &mut [u64],
    rows: &mut [u64],
    below: &mut [u16],
    count: usize,
) -> usize
    requires { (used_in slots.now.table.now ≤ length order.old) × (length rows.old < length below.old)
        × (k < length below.old) × (k < 65536) × (get_or below.old k 0 ≤ used_in slots.now.table.now)
        × (get_or below.old k 0 ≢ 0 → count + length (place_rows (kept_by slots.now) k (cells_of slots.now (get_or below.old k 0))) ≤ length rows.old) }
    ensures { Stepped (kept_by slots.now) (cells_of slots.now) k rows.old count below.old rows.new result below.new }
{
    let s = below[k];
    if s == 0 {
        return count;
    }
    push_place(k as u16, s, slots, order, rows, below, count)
}

// Writes the rows of all places, and returns their number. The loop is of the shape of that in specimen.rt of crate compare, as is said there.
pub(crate) fn write_rows(
    slots: &Slots,
    order: &mut [u64],
    rows: &mut [u64],
    below: &mut [u16],
) -> usize
    requires { (used_in slots.now.table.now ≤ length order.old) × (length rows.old ≤ 1008) × (below.old ≡ replicate (length rows.old + 1) 0)
        × Grown slots.now.table.now slots.now.full.now × (length (all_rows slots.now.table.now) ≤ length rows.old) }
    ensures { Pushed (length rows.old) [] 0 (all_rows slots.now.table.now) rows.new result }
{
    let mut count = push_place(0, 0, slots, order, rows, below, 0);
    // `while` and no `for`: the rows that are walked over grow in number on the way.
    let mut k: usize = 1;
    while k <= count {
        count = push_below(k, slots, order, rows, below, count);
        k += 1;
    }
    count
}
