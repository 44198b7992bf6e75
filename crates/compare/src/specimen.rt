// The specimen, place by place: the top first, then the place of each group in the order in which the groups stand.
ghost use Rattle.std.specs.Prelude.{◌≡◌, ◌≢◌, map, ◌*◌, ◌+◌, ◌≤◌, ◌<◌, get_or, length, replicate, take};
ghost use Rattle.logic.specs.Layout.{write};
ghost use Rattle.slots.specs.code.TablePlaces.{Stood};
ghost use Rattle.compare.specs.code.Codes.{OnPath, Stepped, Writable, numbers_by, specimen_number, tree_by};

use crate::path::Path;
use crate::places::push_place;
use crate::settled::Slots;
use normal::Workspace;

// Pushes the rows of the place below row i, where row i leads to one. A code of 0 is no place: no row leads to
// the top, and `below` is cleared so; with an Option for each row it would be twice as long. Its tables stay parameters for the reason in rows.rt.
fn push_below(
    i: usize,
    slots: &Slots,
    path: &Path,
    order: &mut [u64],
    rows: &mut [u64],
    below: &mut [u16],
    count: usize,
) -> usize
    requires { (length slots.now.table.now ≤ length order.old) × (length rows.old < length below.old) × (i ≤ length rows.old) × (length rows.old ≤ 2016)
        × (get_or below.old i 0 ≢ 0 → OnPath path.now.depth (get_or below.old i 0)
        × (count + length (numbers_by slots.now.table.now path.now.links path.now.depth path.now.entry i (get_or below.old i 0)) ≤ length rows.old)) }
    ensures { Stepped slots.now.table.now path.now.links path.now.depth path.now.entry (length rows.old) i rows.old count below.old rows.new result below.new }
{
    let code = usize::from(below[i]);
    if code == 0 {
        return count;
    }
    push_place(i as u16, code, slots, path, order, rows, below, count)
}

// Writes the rows of the specimen that the slots give for the entry at the end of the path, and returns their number. The loop is of the shape of
// that in walk.rt of crate normal: what it pushes, what it is lent and what it promises are others, and a closure over lent tables would share less
// than it takes.
fn walk_rows(
    slots: &Slots,
    path: &Path,
    order: &mut [u64],
    rows: &mut [u64],
    below: &mut [u16],
) -> usize
    requires { Writable slots.now.table.now path.now.links path.now.depth path.now.entry (length rows.old) × (length slots.now.table.now ≤ length order.old)
        × (below.old ≡ replicate (length rows.old + 1) 0) }
    ensures { (result ≤ length rows.new) × (take result rows.new ≡ map specimen_number (write (tree_by slots.now.table.now path.now.links path.now.depth path.now.entry 1024))) }
{
    let mut count = push_place(0, 1024, slots, path, order, rows, below, 0);
    // `while` and no `for`: the rows that are walked over grow in number on the way.
    let mut i: usize = 1;
    while i <= count {
        count = push_below(i, slots, path, order, rows, below, count);
        i += 1;
    }
    count
}

// The same, where the slots are first put on the chains of their places. Each table of the workspace has a name first, as in tables.rt of crate normal.
pub(crate) fn specimen_rows(table: &[u64], path: &Path, work: &mut Workspace) -> usize
    requires { Stood table.now × Writable table.now path.now.links path.now.depth path.now.entry (length work.old.rows.now)
        × (work.old.last.now ≡ replicate (length work.old.last.now) 0) × (2 * length table.now ≤ length work.old.last.now)
        × (length table.now ≤ length work.old.before.now) × (length table.now ≤ length work.old.order.now)
        × (work.old.below.now ≡ replicate (length work.old.rows.now + 1) 0) }
    ensures { (result ≤ length work.new.rows.now) × (take result work.new.rows.now
        ≡ map specimen_number (write (tree_by table.now path.now.links path.now.depth path.now.entry 1024))) }
{
    let last = &mut *work.last;
    let before = &mut *work.before;
    let order = &mut *work.order;
    let rows = &mut *work.rows;
    let below = &mut *work.below;
    runs::chain_slots(table, (table.len() - 1) as u16, last, before);
    let slots = Slots {
        table,
        last,
        before,
    };
    walk_rows(&slots, path, order, rows, below)
}
