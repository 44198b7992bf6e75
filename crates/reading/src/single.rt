// Links that lead to one item only: number 9 of the table of refusals, looked for in specimens, among the entries before the first that breaks
// number 4, 5 or 6. An entry breaks it where it is a group by such a link and brings its owner above one item: where it has two items or
// more, or where an earlier group of its owner and link is there.
ghost use Rattle.std.specs.Prelude.{◌≡◌, false, not, List, ◌+◌, ◌-◌, ◌/◌, ◌*◌, ◌≤◌, ◌<◌, ℕ, length, get_or};
ghost use Rattle.base.specs.Search.{first_from};
ghost use Rattle.blocks.specs.Entries.{entries_of, nth};
ghost use Rattle.blocks.specs.Faults.{Finding, entry_faults, first};
ghost use Rattle.blocks.specs.Reading.{answer};
ghost use Rattle.blocks.specs.Single.{single_group, single_ok};
ghost use Rattle.blocks.specs.code.Blockwise.{Whole};
ghost use Rattle.blocks.specs.code.SingleSteps.{place, stand_before};
ghost use Rattle.blocks.specs.code.SingleTable.{Kept, key_of};
ghost use Rattle.firsts.specs.code.Held.{room_of};
ghost use Rattle.blocks.specs.declared.Entry.{Entry};
ghost use Rattle.blocks.specs.declared.Schema.{Schema};

use crate::rules::first_rule_fault;
use blocks::{Cause, Entry, Refusal, Schema, entries_in_order, kinds};
use firsts::Firsts;

// Whether an entry is a group by a link that leads to one item only. The link's bit and the kind make one number, so that
// one comparison tells, which is guessed right: the compiler would test the kind first, and entries come in any order of
// kinds.
fn single_group(e: Entry) -> bool
    ensures { result ≡ single_group e }
{
    256 * u32::from(e.link().is_single()) + u32::from(e.kind) == 256 + u32::from(kinds::GROUP)
}

// An owner and a link as one number, the key of a group.
fn key_of(e: Entry) -> u32
    ensures { (result ≡ key_of e) × (e.name < 65536) }
{
    65536 * u32::from(e.owner) + u32::from(e.name)
}

// Whether entry e breaks number 9, where the table has the keys of the groups among the entries before it. If it does not, the
// table then has its key too.
fn brings_second<const MOST: usize, const CELLS: usize, const KEYS: usize>(
    firsts: &mut Firsts<MOST, CELLS, KEYS>,
    e: Entry,
) -> bool
    requires { length firsts.old < room_of MOST CELLS KEYS }
    ensures { (es : List Entry) (before : ℕ) → e ≡ nth es (before + 1) → Kept es firsts.old before
        → (result ≡ not (single_ok es (before + 1))) × (result ≡ false → Kept es firsts.new (before + 1)) }
{
    if !single_group(e) {
        return false;
    }
    0 < e.number || firsts.enter(key_of(e)).is_some()
}

// The lowest of the first n entries that breaks number 9, with a table of its own, which has room for the keys of n groups: of
// fixed size, since there is no heap. It is not inlined, so that its loop has the registers.
#[inline(never)]
fn double_in_table<const MOST: usize, const CELLS: usize, const KEYS: usize>(
    s: &[u8],
    n: usize,
) -> Option<usize>
    requires { (n ≤ length (entries_of s.now)) × (n ≤ 2016) × Whole s.now n × (n ≤ room_of MOST CELLS KEYS)
        × (CELLS ≤ 8192) × (KEYS ≤ 2048) }
    ensures { result ≡ place (first_from (single_ok (entries_of s.now)) 1 n) }
{
    let mut firsts = Firsts::<MOST, CELLS, KEYS>::new();
    for (before, bytes) in entries_in_order(s, n).enumerate() {
        if brings_second(&mut firsts, Entry::from(bytes)) {
            return Some(before + 1);
        }
    }
    None
}

// The lowest of the first n entries that breaks number 9. Most specimens have no group by such a link at all, and then no table is needed. Few
// entries take a small one, which is sooner cleared.
fn first_double(s: &[u8], n: usize) -> Option<usize>
    requires { (n ≤ length (entries_of s.now)) × (n ≤ 2016) × Whole s.now n }
    ensures { result ≡ place (first_from (single_ok (entries_of s.now)) 1 n) }
{
    if !entries_in_order(s, n).any(|bytes| single_group(Entry::from(bytes))) {
        return None;
    }
    if n < 64 {
        return double_in_table::<64, 194, 64>(s, n);
    }
    double_in_table::<4096, 8130, 2016>(s, n)
}

// How many of `total` entries stand before the one that is refused, if one is.
fn stand_before(total: usize, found: Result<(), Refusal>) -> usize
    ensures { (input : ℕ) (f : Finding) → found ≡ answer input tt f → result ≡ stand_before total f }
{
    match found {
        Err(refusal) => usize::from(refusal.place).saturating_sub(1),
        Ok(()) => total,
    }
}

// Refuses a specimen by the lowest of its entries that breaks number 4, 5, 6 or 9.
fn specimen_fault(s: &[u8], total: usize, input: u16) -> Result<(), Refusal>
    requires { (total ≡ length (entries_of s.now)) × (total ≤ 2016) × Whole s.now total }
    ensures { result ≡ answer input tt (first (entry_faults Schema.Specimen (entries_of s.now) 1 total)) }
{
    let found = first_rule_fault(s, Schema::Specimen, total, input);
    match first_double(s, stand_before(total, found)) {
        Some(d) => Err(Refusal {
            cause: Cause::Double,
            input,
            place: d as u16,
        }),
        None => found,
    }
}

// Refuses input `input` by the lowest of its `total` entries that breaks a number of its schema's table.
pub(crate) fn check_entries(
    s: &[u8],
    schema: Schema,
    total: usize,
    input: u16,
) -> Result<(), Refusal>
    requires { (total ≡ length (entries_of s.now)) × (total ≤ 2016) × Whole s.now total }
    ensures { result ≡ answer input tt (first (entry_faults schema (entries_of s.now) 1 total)) }
{
    match schema {
        Schema::Specimen => specimen_fault(s, total, input),
        Schema::Description | Schema::Named(_) => first_rule_fault(s, schema, total, input),
    }
}
