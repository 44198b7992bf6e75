// The rows of a specimen as packed entries: properties, and groups, each with the code of the place below it.
//
// `order`, `rows`, `below` and `count` stay parameters: `order` is lent while rows are written, and with the others in a struct of `&mut` slices
// each function would have to promise that it keeps each slice, and those that write rows alone that they leave `below`, which is no plainer.
ghost use Rattle.std.specs.Prelude.{◌≡◌, [], ◌∷◌, map, ℕ, ◌+◌, ◌≤◌, ◌<◌, get_or, length};
ghost use Rattle.blocks.specs.Entries.{packed};
ghost use Rattle.logic.specs.Filling.{Filled, Joined};
ghost use Rattle.logic.specs.Tree.{leaf_row, node_row};
ghost use Rattle.logic.specs.SpecimenTree.{group};
ghost use Rattle.slots.specs.code.TablePlaces.{below_in, least_in};
ghost use Rattle.meaning.specs.SpecimenFor.{row_entry};
ghost use Rattle.compare.specs.code.Codes.{specimen_number};
ghost use Rattle.logic.specs.Laying.{codes, joint_rows, leaf_rows};
ghost use Rattle.compare.specs.code.Tags.{Tagged, group_of, tag_name, tag_slot};
ghost use Rattle.slots.specs.code.States.{nowhere};

use crate::asked::{code_asked, least_asked};
use crate::items::Items;
use crate::settled::Slots;
use blocks::{Entry, Link, Property, kinds};
use runs::{tag_name, tag_slot};
use slots::{NOWHERE, high_in, low_in};

impl<'a> Slots<'a> {
    // How many items a slot asks for; 0 for no slot, which is as many as it asks for, and no mark.
    pub(crate) fn least_in(&self, s: usize) -> u64
        requires { s < length self.now.table.now }
        ensures { (result ≡ least_in self.now.table.now s) × (result < 131072) }
    {
        if s == 0 {
            return 0;
        }
        low_in(self.table[s])
    }

    // The place below a slot: NOWHERE for no slot, and where it has at most 0. A number and no Option, since the codes of places that `below`
    // holds have it in them.
    fn below_in(&self, s: usize) -> u16
        requires { s < length self.now.table.now }
        ensures { (result ≡ below_in self.now.table.now s) × (result ≤ nowhere) }
    {
        if s == 0 || high_in(self.table[s]) == 0 {
            return NOWHERE;
        }
        s as u16
    }
}

// The entry of a property of the items of an owner.
fn property_entry(owner: u16, p: Property) -> Entry
    ensures { result ≡ row_entry (leaf_row owner p.0) }
{
    Entry {
        kind: kinds::HAS,
        reserved: 0,
        owner,
        name: p.0,
        number: 0,
    }
}

// The entry of a group of items by a link, its number one less than its count.
fn group_entry(owner: u16, l: Link, number: u16) -> Entry
    ensures { result ≡ row_entry (node_row owner (group l.0 number)) }
{
    Entry {
        kind: kinds::GROUP,
        reserved: 0,
        owner,
        name: l.0,
        number,
    }
}

// Pushes an entry, packed.
fn push_entry(e: Entry, rows: &mut [u64], count: usize) -> usize
    requires { count < length rows.old }
    ensures { Filled (length rows.old) rows.old count (packed e ∷ []) rows.new result }
{
    rows[count] = blocks::pack(e);
    count + 1
}

// Pushes the properties of these tags.
pub(crate) fn push_properties(owner: u16, tags: &[u64], rows: &mut [u64], count: usize) -> usize
    requires { ((i : ℕ) → i < length tags.now → tag_name (get_or tags.now i 0) < 65536) × (count + length tags.now ≤ length rows.old) }
    ensures { Filled (length rows.old) rows.old count (map specimen_number (leaf_rows owner (map tag_name tags.now))) rows.new result }
{
    let mut k = count;
    for x in tags {
        k = push_entry(
            property_entry(owner, Property(tag_name(*x) as u16)),
            rows,
            k,
        );
    }
    k
}

// Pushes the group of a tag's link, and notes the code of its place: as many items as its slot asks for, or as many as are asked for, if that
// is more.
fn push_tag(
    owner: u16,
    x: u64,
    slots: &Slots,
    asked: Option<Items>,
    rows: &mut [u64],
    below: &mut [u16],
    count: usize,
) -> usize
    requires { (tag_name x < 65536) × (tag_slot x < length slots.now.table.now) × (count < length rows.old) × (count + 1 < length below.old) }
    ensures { Joined (length rows.old) rows.old count (map specimen_number (joint_rows owner (group_of slots.now.table.now asked x ∷ []))) below.old (count + 1) (codes (group_of slots.now.table.now asked x ∷ [])) rows.new result below.new }
{
    let l = Link(tag_name(x) as u16);
    let s = tag_slot(x);
    let items = slots.least_in(s).max(least_asked(asked, l));
    below[count + 1] = code_asked(asked, l) + slots.below_in(s);
    push_entry(
        group_entry(owner, l, items.saturating_sub(1) as u16),
        rows,
        count,
    )
}

// Pushes the groups of these tags.
pub(crate) fn push_groups(
    owner: u16,
    tags: &[u64],
    slots: &Slots,
    asked: Option<Items>,
    rows: &mut [u64],
    below: &mut [u16],
    count: usize,
) -> usize
    requires { Tagged slots.now.table.now tags.now × (count + length tags.now ≤ length rows.old) × (length rows.old < length below.old) }
    ensures { Joined (length rows.old) rows.old count (map specimen_number (joint_rows owner (map (group_of slots.now.table.now asked) tags.now)))
        below.old (count + 1) (codes (map (group_of slots.now.table.now asked) tags.now)) rows.new result below.new }
{
    let mut k = count;
    for x in tags {
        k = push_tag(owner, *x, slots, asked, rows, below, k);
    }
    k
}
