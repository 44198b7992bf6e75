// The last two passes over settled slots, in tables that are lent.
ghost use Rattle.std.specs.Prelude.{◌≡◌, [], ◌<◌, ◌≤◌, length};
ghost use Rattle.slots.specs.code.TablePlaces.{used_in};
ghost use Rattle.normal.specs.code.ClassRuns.{Runnable};
ghost use Rattle.normal.specs.code.Emitted.{Grown, Lent, Pushed, all_rows, table_rows};

use crate::settled::{Slots, Workspace};
use crate::walk::write_rows;
use blocks::kinds;

// Puts settled slots on the chains of their runs and writes the rows of all places; returns their number. Each table of the workspace has a name
// first: of these some are lent to be read and others to be written, at once. The rows stay where they were lent, so that who lent them finds them.
fn chained_rows(table: &[u64], full: &[u8], work: &mut Workspace) -> usize
    requires { Runnable table.now × (length table.now ≤ length full.now)
        × Lent (used_in table.now) work.old.last.now work.old.before.now work.old.order.now work.old.rows.now work.old.below.now
        × Grown table.now full.now × (length (all_rows table.now) ≤ length work.old.rows.now) }
    ensures { Pushed (length work.old.rows.now) [] 0 (all_rows table.now) work.new.rows.now result
        × (work.new.rows.ghost_name ≡ work.old.rows.ghost_name) }
{
    let last = &mut *work.last;
    let before = &mut *work.before;
    let order = &mut *work.order;
    let rows = &mut *work.rows;
    let below = &mut *work.below;
    runs::chain_slots(table, (table.len() - 1) as u16, last, before);
    let slots = Slots {
        table,
        full,
        last,
        before,
    };
    write_rows(&slots, order, rows, below)
}

// Writes the packed entries that settled slots give; returns their number. One, 'nothing fits', of the top, stands alone where the top
// is impossible; of its fields the kind alone is not 0.
pub(crate) fn normal_rows(table: &[u64], bad: &[u8], full: &[u8], work: &mut Workspace) -> usize
    requires { Runnable table.now × (0 < length bad.now) × (length table.now ≤ length full.now)
        × Lent (used_in table.now) work.old.last.now work.old.before.now work.old.order.now work.old.rows.now work.old.below.now
        × Grown table.now full.now × (length (table_rows table.now bad.now) ≤ length work.old.rows.now) }
    ensures { Pushed (length work.old.rows.now) [] 0 (table_rows table.now bad.now) work.new.rows.now result
        × (work.new.rows.ghost_name ≡ work.old.rows.ghost_name) }
{
    if bad[0] != 0 {
        work.rows[0] = u64::from(kinds::NOTHING);
        return 1;
    }
    chained_rows(table, full, work)
}
