// Number 9 of a delivered record: a second item by a link that leads to one item only. The keys of such links, an owner and a link as one number, stand
// in a table, and beside each the item that it was first seen to lead to.
ghost use Rattle.std.specs.Prelude.{◌≡◌, ◌+◌, ◌*◌, ◌<◌, ◌≤◌, ℕ, List, None, length, false};
ghost use Rattle.blocks.specs.Entries.{nth};
ghost use Rattle.blocks.specs.code.SingleTable.{key_of};
ghost use Rattle.blocks.specs.declared.Entry.{Entry};
ghost use Rattle.delivered.specs.Reading.{another, single_link};
ghost use Rattle.delivered.specs.code.Noted.{Noted, delivered_refusal};
ghost use Rattle.firsts.specs.code.Held.{room_of};

use crate::entries::{LINKED, form_ok, items_ok};
use blocks::{Cause, Entry};
use firsts::Firsts;

// The items that the links met lead to, in the order in which their keys were entered.
#[derive(Drop)]
pub(crate) struct Leads<const KEYS: usize> {
    pub(crate) items: [u16; KEYS],
    pub(crate) used: usize,
}

// Whether an entry links by a link that leads to one item only. One comparison tells, which is guessed right.
fn single_link(e: Entry) -> bool
    ensures { result ≡ single_link e }
{
    256 * u32::from(e.link().is_single()) + u32::from(e.kind) == 256 + u32::from(LINKED)
}

// An owner and a link as one number.
fn key_of(e: Entry) -> u32
    ensures { (result ≡ key_of e) × (e.name < 65536) }
{
    65536 * u32::from(e.owner) + u32::from(e.name)
}

// Whether entry e leads to a second item, where the tables have the single links among the entries before it. If it does not, they then have it too.
fn leads_on<const MOST: usize, const CELLS: usize, const KEYS: usize>(
    firsts: &mut Firsts<MOST, CELLS, KEYS>,
    leads: &mut Leads<KEYS>,
    e: Entry,
) -> bool
    requires { (length firsts.old < room_of MOST CELLS KEYS) × (length firsts.old < KEYS) × (leads.old.used ≡ length firsts.old) × (KEYS ≤ 2048) }
    ensures noted { (es : List Entry) (before : ℕ) → e ≡ nth es (before + 1) → Noted es firsts.old leads.old.items before
        → (result ≡ another es (before + 1)) × (result ≡ false → Noted es firsts.new leads.new.items (before + 1)) }
    ensures used { leads.new.used ≡ length firsts.new }
{
    if !single_link(e) {
        return false;
    }
    match firsts.enter(key_of(e)) {
        Some(k) => leads.items[k - 1] != e.number,
        None => {
            leads.items[leads.used] = e.number;
            leads.used += 1;
            false
        }
    }
}

// Why entry e, the next one, is refused, if it is: 4 before 10 before 9.
pub(crate) fn entry_fault<const MOST: usize, const CELLS: usize, const KEYS: usize>(
    firsts: &mut Firsts<MOST, CELLS, KEYS>,
    leads: &mut Leads<KEYS>,
    total: usize,
    e: Entry,
) -> Option<Cause>
    requires { (length firsts.old < room_of MOST CELLS KEYS) × (length firsts.old < KEYS) × (leads.old.used ≡ length firsts.old) × (KEYS ≤ 2048) }
    ensures noted { (es : List Entry) (before : ℕ) → e ≡ nth es (before + 1) → Noted es firsts.old leads.old.items before
        → (result ≡ delivered_refusal total es (before + 1)) × (result ≡ None → Noted es firsts.new leads.new.items (before + 1)) }
    ensures used { leads.new.used ≡ length firsts.new }
{
    if !form_ok(e) {
        return Some(Cause::Form);
    }
    if !items_ok(total, e) {
        return Some(Cause::Item);
    }
    if leads_on(firsts, leads, e) {
        return Some(Cause::Double);
    }
    None
}
