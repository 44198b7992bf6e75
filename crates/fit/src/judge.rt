// Fitting a place and meeting an entry, which call each other: of the levels left one fewer remains below an entry, and
// an entry's number is less than any place needs. Each pair of a group and a place is come to at most once, by the pair
// of their owners, and costs a look in a bucket for each entry of the place. All groups' looks for one entry go over
// each entry of the specimen at most once. So the time grows at most with the product of the two inputs' numbers of
// entries, 2,016 · 1,008, at some nanoseconds each, and is far less where groups are few or have places of their own.
//
// What stays as it is, of the specimen and of the description, is handed on as one reference.
ghost use Rattle.std.specs.Prelude.{◌≡◌, ◌≤◌, ◌<◌, length};
ghost use Rattle.blocks.specs.Entries.{entries_of};
ghost use Rattle.fit.specs.code.Groups.{fits_place, meets_entry};

use crate::entries::entry_at;
use crate::groups::{Known, is_group};
use blocks::kinds;

// Whether the items of group g fit the place that entry o of the description owns, followed down for `left` levels:
// whether they meet each of its entries. `meets_entry` becomes a part of the loop. That a call back is marked as seldom
// taken leaves the registers to the entries that need none. A level of depth takes one frame of the stack.
#[cycle(fits_place_meets_entry)]
#[cold]
pub(crate) fn fits_place(known: &Known, g: usize, o: usize, left: usize, adds: &mut u16) -> bool
    requires { (g < 2048) × (o < known.now.places.most) × (left ≤ 33) }
    ensures { (result ≡ fits_place left (entries_of known.now.items.bytes.now) (entries_of known.now.places.bytes.now) g o)
        × (adds.new ≡ adds.old) }
{
    for e in known.places.entries(o) {
        if !meets_entry(known, g, e, left, adds) {
            return false;
        }
    }
    true
}

// Whether the items of group g meet entry e of the description. Totals come from the table: nothing is added here. An
// 'every' is met where each of g's groups by its link fits the place that the entry owns; those that own nothing are
// judged together. One match over all kinds is one jump.
#[cycle(fits_place_meets_entry)]
pub(crate) fn meets_entry(known: &Known, g: usize, e: usize, left: usize, adds: &mut u16) -> bool
    requires { (g < 2048) × (left ≤ 33) × (1 ≤ e) × (e ≤ length (entries_of known.now.places.bytes.now)) }
    ensures { (result ≡ meets_entry left (entries_of known.now.items.bytes.now) (entries_of known.now.places.bytes.now) g e)
        × (adds.new ≡ adds.old) }
{
    if left == 0 {
        return false;
    }
    let entry = entry_at(known.places.bytes, e);
    match entry.kind {
        kinds::HAS => known.items.has_property(g, entry.property()),
        kinds::LACKS => !known.items.has_property(g, entry.property()),
        kinds::AT_LEAST => u32::from(entry.number) <= known.totals.total_of(g, entry.link()),
        kinds::AT_MOST => known.totals.at_most(g, entry.link(), entry.number),
        kinds::EVERY => {
            let link = entry.link();
            if known.places.demands(e) && known.items.has_bare(g, link) {
                return false;
            }
            for h in known.items.groups_by(g, link) {
                if is_group(entry_at(known.items.bytes, h), g, link)
                    && !fits_place(known, h, e, left - 1, adds)
                {
                    return false;
                }
            }
            true
        }
        _ => false,
    }
}
