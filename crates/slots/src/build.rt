// The first pass: the entries of a description, first to last, entered into their slots. An 'every' entry leads to the place below its
// slot, so that entries of one owner and link merge.
ghost use Rattle.std.specs.Prelude.{◌≡◌, ◌≤◌, ◌<◌, length};
ghost use Rattle.slots.specs.code.Tables.{Built, Cleared, Readable, bounds_base, bounds_times, built_slots, high_kind, high_part, low_kind, low_part, no_bound};

use crate::slots::{enter, entry_key};
use blocks::{Entry, entries_in_order, kinds};

// What an entry's number counts for in its bounds, by its kind. Constants only, here and below, which compile to a table: entries come in
// any order of kinds, and a jump by kind would be guessed wrong.
#[tactic(auto, unfolding(crate::specs::code::Tables::bounds_times))]
fn bounds_times(kind: u8) -> u64
    ensures { (result ≡ bounds_times kind) × (result ≤ 131072) }
{
    match kind {
        kinds::AT_LEAST => 131072,
        kinds::AT_MOST => 1,
        _ => 0,
    }
}

// What stands in the bounds of an entry of this kind beside its number. As in the table of kinds [E3], each kind has
// an arm of its own, though some say the same.
#[tactic(auto, unfolding(crate::specs::code::Tables::bounds_base))]
fn bounds_base(kind: u8) -> u64
    ensures { (result ≡ bounds_base kind) × (result ≤ 196608) }
{
    match kind {
        kinds::HAS => 196608,
        kinds::LACKS => 0,
        kinds::AT_LEAST => 65536,
        kinds::AT_MOST => 0,
        kinds::EVERY => 65536,
        _ => 131072,
    }
}

// Both bounds of an entry of this kind and number, as they stand in a slot.
pub(crate) fn entry_bounds(kind: u8, number: u16) -> u64
    ensures { (low_part result ≡ low_kind kind number) × (high_part result ≡ high_kind kind number) × (high_part result ≤ no_bound) × (result < 17179869184) }
{
    bounds_times(kind) * u64::from(number) + bounds_base(kind)
}

// Enters the `total` entries of a description into its slots, and returns their number. What the table held does not count: a slot is
// written before it is read. As `enter`, it takes the parts of the table.
#[inline(always)]
pub(crate) fn build<const BUCKETS: usize, const CELLS: usize>(
    d: &[u8],
    total: usize,
    table: &mut [u64],
    cells: &mut [u16; CELLS],
    node: &mut [u16],
) -> usize
    requires { Readable d.now total × (total < length table.old) × Cleared total BUCKETS cells.old node.old }
    ensures { Built (built_slots d.now) d.now result table.old table.new BUCKETS cells.new }
{
    let mut used: usize = 0;
    for (before, bytes) in entries_in_order(d, total).enumerate() {
        let e = Entry::from(bytes);
        let place = u64::from(node[usize::from(e.owner)]);
        let s = enter::<BUCKETS, CELLS>(
            table,
            cells,
            used,
            entry_key(place, e),
            entry_bounds(e.kind, e.number),
        );
        node[before + 1] = s as u16;
        used = used.max(s);
    }
    used
}
