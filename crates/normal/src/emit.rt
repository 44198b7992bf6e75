// The fourth pass: the slots of each place, in order, written as packed entries, kind by kind. The place below an 'every' is written
// when its entry's turn comes, so that entries ascend by owner.
//
// `order`, `rows`, `below` and `count` stay parameters: `order` is lent while rows are written, and with the others in a struct of `&mut` slices
// each function would have to promise that it keeps each slice, and those that write rows alone that they leave `below`, which is no plainer.
// For the same reason two clauses stand in several contracts: `order` has room for the slots in use, and `below` is longer than `rows`.
ghost use Rattle.std.specs.Prelude.{◌≡◌, true, [], ◌++◌, ◌∷◌, ◌+◌, ◌*◌, ◌/◌, ◌%◌, ◌≤◌, ◌<◌, length, get_or, map};
ghost use Rattle.logic.specs.Normal.{rank};
ghost use Rattle.passes.specs.code.Slots.{is_link, value};
ghost use Rattle.slots.specs.code.TablePlaces.{used_in};
ghost use Rattle.slots.specs.code.Tables.{high_in, low_part};
ghost use Rattle.normal.specs.code.ClassRuns.{Tagged, cell_at, kind_cell};
ghost use Rattle.normal.specs.code.Emitted.{cell_value, value_number, kind_in, cells_of, kept_by, tag_rows, kind_rows, atom_rows, property_rows, bound_rows, every_rows, every_slots, keep_cell, place_rows, Pushed, Placing, packed_of};

use crate::settled::Slots;
use blocks::{Entry, kinds};
use runs::{tag_name, tag_slot};
use slots::{high_in, low_in};

// A kind of entry that a slot lists with a number: those of a property, and those of a link. An enum beside the numbers of `blocks::kinds`: of
// these four alone `value_of` knows what is listed, and its match has no arm for others.
#[derive(Clone, Copy)]
enum AtomKind {
    Has = 1,
    Lacks = 2,
    AtLeast = 3,
    AtMost = 4,
}

impl AtomKind {
    // Its number in an entry.
    fn number(self) -> u8
        ensures { result ≡ rank (kind_in self) }
    {
        self as u8
    }
}

// The number that a slot of these bounds lists with a kind, if it lists one.
fn value_of(kind: AtomKind, lo: u64, hi: u64) -> Option<u16>
    requires { (lo < 65536) × (hi < 131072) }
    ensures { result ≡ value_number (value (kind_in kind) lo (high_in hi)) }
{
    match kind {
        AtomKind::Has => (lo != 0).then_some(0),
        AtomKind::Lacks => (hi < 65536).then_some(0),
        AtomKind::AtLeast => (lo != 0).then_some(lo as u16),
        AtomKind::AtMost => u16::try_from(hi).ok(),
    }
}

// A packed entry.
#[tactic(auto, unfolding(crate::specs::code::Emitted::packed_of))]
fn pack_row(kind: u8, owner: u16, name: u16, number: u16) -> u64
    ensures { result ≡ packed_of kind owner name number }
{
    blocks::pack(Entry {
        kind,
        reserved: 0,
        owner,
        name,
        number,
    })
}

// The number that a tag's slot lists with a kind of its class, if it lists one. Here, in `push_atom` and in `push_kind` the table comes alone: while
// rows are written, a struct that is lent would be asked for it again at each tag.
fn value_at(kind: AtomKind, x: u64, table: &[u64]) -> Option<u16>
    requires { (x % 1024 < length table.now) × (low_part (get_or table.now (x % 1024) 0) < 65536) }
    ensures { result ≡ value_number (cell_value (kind_in kind) (kind_cell table.now (kind_in kind) x)) }
{
    let y = table[tag_slot(x)];
    value_of(kind, low_in(y), high_in(y))
}

impl<'a> Slots<'a> {
    // Whether the 'every' of a tag's slot, a link's, is kept: its place is not empty, and its bound is not 0.
    fn keeps(&self, x: u64) -> bool
        requires { x % 1024 < length self.now.table.now }
        ensures { result ≡ keep_cell (kept_by self.now) (cell_at self.now.table.now true x) }
    {
        let s = tag_slot(x);
        self.full[s] != 0 && high_in(self.table[s]) != 0
    }
}

// Pushes the row of a kind of a tag's slot, where it lists one. The row is stored either way, where there is room for one, and counts where it is
// listed: slots come in any order of kinds, and a jump would be guessed wrong.
fn push_atom(
    kind: AtomKind,
    owner: u16,
    x: u64,
    table: &[u64],
    rows: &mut [u64],
    count: usize,
) -> usize
    requires { (x % 1024 < length table.now) × (low_part (get_or table.now (x % 1024) 0) < 65536) × (x / 1024 < 65536)
        × (count + length (tag_rows table.now (kind_in kind) owner x) ≤ length rows.old) }
    ensures { Pushed (length rows.old) rows.old count (tag_rows table.now (kind_in kind) owner x) rows.new result }
{
    if rows.len() <= count {
        return count;
    }
    let value = value_at(kind, x, table);
    let number = value.unwrap_or(0);
    rows[count] = pack_row(kind.number(), owner, tag_name(x) as u16, number);
    count + usize::from(value.is_some())
}

// Pushes the rows of a kind of the slots of these tags, which are of its class.
fn push_kind(
    kind: AtomKind,
    owner: u16,
    tags: &[u64],
    table: &[u64],
    rows: &mut [u64],
    count: usize,
) -> usize
    requires { Tagged table.now tags.now
        × (count + length (kind_rows (kind_in kind) owner (map (cell_at table.now (is_link (kind_in kind))) tags.now)) ≤ length rows.old) }
    ensures { Pushed (length rows.old) rows.old count (kind_rows (kind_in kind) owner (map (cell_at table.now (is_link (kind_in kind))) tags.now)) rows.new result }
{
    let mut k = count;
    for x in tags {
        k = push_atom(kind, owner, *x, table, rows, k);
    }
    k
}

// Pushes the 'every' of a tag's slot, a link's, where it is kept, and notes the slot that it leads to.
fn push_link(
    owner: u16,
    x: u64,
    slots: &Slots,
    rows: &mut [u64],
    below: &mut [u16],
    count: usize,
) -> usize
    requires { (x % 1024 < length slots.now.table.now) × (x / 1024 < 65536) × (length rows.old < length below.old)
        × (count + length (every_rows (kept_by slots.now) owner (cell_at slots.now.table.now true x ∷ [])) ≤ length rows.old) }
    ensures { Placing (length rows.old) rows.old count (every_rows (kept_by slots.now) owner (cell_at slots.now.table.now true x ∷ []))
        below.old (count + 1) (every_slots (kept_by slots.now) (cell_at slots.now.table.now true x ∷ [])) rows.new result below.new }
{
    if !slots.keeps(x) {
        return count;
    }
    rows[count] = pack_row(kinds::EVERY, owner, tag_name(x) as u16, 0);
    below[count + 1] = tag_slot(x) as u16;
    count + 1
}

// Pushes the 'every' entries of the slots of these tags, links, that are kept, and notes the slots that they lead to.
fn push_every(
    owner: u16,
    tags: &[u64],
    slots: &Slots,
    rows: &mut [u64],
    below: &mut [u16],
    count: usize,
) -> usize
    requires { Tagged slots.now.table.now tags.now × (length rows.old < length below.old)
        × (count + length (every_rows (kept_by slots.now) owner (map (cell_at slots.now.table.now true) tags.now)) ≤ length rows.old) }
    ensures { Placing (length rows.old) rows.old count (every_rows (kept_by slots.now) owner (map (cell_at slots.now.table.now true) tags.now))
        below.old (count + 1) (every_slots (kept_by slots.now) (map (cell_at slots.now.table.now true) tags.now)) rows.new result below.new }
{
    let mut k = count;
    for x in tags {
        k = push_link(owner, *x, slots, rows, below, k);
    }
    k
}

// Pushes the entries of the properties of place v, kind by kind.
fn push_properties(
    owner: u16,
    v: u16,
    slots: &Slots,
    order: &mut [u64],
    rows: &mut [u64],
    count: usize,
) -> usize
    requires { (v < length slots.now.table.now) × (used_in slots.now.table.now ≤ length order.old)
        × (count + length (property_rows owner (cells_of slots.now v)) ≤ length rows.old) }
    ensures { Pushed (length rows.old) rows.old count (property_rows owner (cells_of slots.now v)) rows.new result }
{
    let n = slots.property_run(v, order);
    let run = &order[..n];
    let k = push_kind(AtomKind::Has, owner, run, slots.table, rows, count);
    push_kind(AtomKind::Lacks, owner, run, slots.table, rows, k)
}

// Pushes those of its links, and notes the slots that the 'every' entries lead to.
fn push_links(
    owner: u16,
    v: u16,
    slots: &Slots,
    order: &mut [u64],
    rows: &mut [u64],
    below: &mut [u16],
    count: usize,
) -> usize
    requires { (v < length slots.now.table.now) × (used_in slots.now.table.now ≤ length order.old) × (length rows.old < length below.old)
        × (count + length (bound_rows owner (cells_of slots.now v) ++ every_rows (kept_by slots.now) owner (cells_of slots.now v)) ≤ length rows.old) }
    ensures { Placing (length rows.old) rows.old count
        (bound_rows owner (cells_of slots.now v) ++ every_rows (kept_by slots.now) owner (cells_of slots.now v))
        below.old (count + length (bound_rows owner (cells_of slots.now v)) + 1)
        (every_slots (kept_by slots.now) (cells_of slots.now v)) rows.new result below.new }
{
    let n = slots.link_run(v, order);
    let run = &order[..n];
    let k = push_kind(AtomKind::AtLeast, owner, run, slots.table, rows, count);
    let m = push_kind(AtomKind::AtMost, owner, run, slots.table, rows, k);
    push_every(owner, run, slots, rows, below, m)
}

// Pushes all entries of place v, kind by kind.
pub(crate) fn push_place(
    owner: u16,
    v: u16,
    slots: &Slots,
    order: &mut [u64],
    rows: &mut [u64],
    below: &mut [u16],
    count: usize,
) -> usize
    requires { (v < length slots.now.table.now) × (used_in slots.now.table.now ≤ length order.old) × (length rows.old < length below.old)
        × (count + length (place_rows (kept_by slots.now) owner (cells_of slots.now v)) ≤ length rows.old) }
    ensures { Placing (length rows.old) rows.old count (place_rows (kept_by slots.now) owner (cells_of slots.now v))
        below.old (count + length (atom_rows owner (cells_of slots.now v)) + 1)
        (every_slots (kept_by slots.now) (cells_of slots.now v)) rows.new result below.new }
{
    let k = push_properties(owner, v, slots, order, rows, count);
    push_links(owner, v, slots, order, rows, below, k)
}
