// The places of the slots marked with the pairs in which they have a property.
ghost use Rattle.std.specs.Prelude.{◌≡◌, ◌++◌, ◌+◌, ◌∷◌, ◌/◌, ◌<◌, ◌≤◌, [], List, length};
ghost use Rattle.passes.specs.code.Slots.{Slot};
ghost use Rattle.slots.specs.code.Marking.{MarkedBy, Unmarked, marked_slot};
ghost use Rattle.slots.specs.code.Tables.{Placed, key_in, slot_in, slots_in};

use crate::restrict::of_property;
use crate::settle::place_in;
use crate::slots::{key_in, low_in};
use blocks::Property;
use pairs::{Exclusions, Sides};

// Whether a slot is that of a property that its place has, and that some pair may have.
#[tactic(auto, unfolding(crate::specs::code::Marking::marked_slot))]
fn is_marked(exclusions: Exclusions<'_>, x: u64) -> bool
    ensures { result ≡ marked_slot exclusions.entry.index.now x }
{
    !exclusions.none_with(Property((key_in(x) % 65536) as u16)) && of_property(x) && low_in(x) != 0
}

// Marks the place of a slot by which it has a property: the pairs in which that stands.
fn mark_slot(exclusions: Exclusions<'_>, x: u64, marks: &mut [Sides])
    requires { key_in x / 131072 < length marks.old }
    ensures { (ss : List Slot) → MarkedBy exclusions.entry.pairs.now ss marks.old → MarkedBy exclusions.entry.pairs.now (ss ++ (slot_in x ∷ [])) marks.new }
{
    if !is_marked(exclusions, x) {
        return;
    }
    let v = place_in(x);
    let sides = exclusions.sides(Property((key_in(x) % 65536) as u16));
    marks[v] = marks[v].join(sides);
}

// Marks the places of the slots 1 to `used`.
pub(crate) fn mark_places(
    exclusions: Exclusions<'_>,
    table: &[u64],
    used: usize,
    marks: &mut [Sides],
)
    requires { (used < length table.now) × (used ≤ 1008) × Placed table.now used × Unmarked exclusions.pairs.now used marks.old }
    ensures { MarkedBy exclusions.entry.pairs.now (slots_in table.now used) marks.new }
{
    if exclusions.is_empty() {
        return;
    }
    for s in 1..used + 1 {
        mark_slot(exclusions, table[s], marks);
    }
}
