// The chains of the runs: the last slot of each run, and for each slot the one before it in its run.
ghost use Rattle.std.specs.Prelude.{◌≡◌, get_or, set};
ghost use Rattle.runs.specs.code.Chained.{lasts_after, befores_after};

use crate::tags::run_in;

// Slot n of a table.
fn slot_at(table: &[u64], n: usize) -> u64
    ensures { result ≡ get_or table.now n 0 }
{
    table.get(n).copied().unwrap_or(0)
}

// The number at index i. As `slot_at`, of two bytes: of a generic element the 0 past the end would need a trait to say it.
pub(crate) fn link_at(links: &[u16], i: usize) -> u16
    ensures { result ≡ get_or links.now i 0 }
{
    links.get(i).copied().unwrap_or(0)
}

// Sets the number at index i, by a test and not by `get_mut`: of what that lends only the length is known afterwards.
fn set_link(links: &mut [u16], i: usize, x: u16)
    ensures { links.new ≡ set links.old i x }
{
    if i < links.len() {
        links[i] = x;
    }
}

// Puts the slots 1 to `used` on the chains of their runs, in turn. The tables are slices and no struct, as in walks.rt.
pub fn chain_slots(table: &[u64], used: u16, last: &mut [u16], before: &mut [u16])
    ensures { (last.new ≡ lasts_after table.now last.old used)
        × (before.new ≡ befores_after table.now last.old before.old used) }
{
    for n in 1..=used {
        let at = usize::from(n);
        let run = run_in(slot_at(table, at));
        set_link(before, at, link_at(last, run));
        set_link(last, run, n);
    }
}
