// A service read and judged by the slots of another description: its blocks first, and then its entries, each checked and judged in one pass. Two
// chains run along the owners, of levels and of states; in one pass neither waits for the other.
ghost use Rattle.std.specs.Prelude.{◌≡◌, List, ◌+◌, ◌≤◌, ◌<◌, ℕ, false, length, true};
ghost use Rattle.std.specs.Iterator.Adapters.{enumerate_count};
ghost use Rattle.base.specs.Range.{bit};
ghost use Rattle.blocks.specs.Entries.{entries_of, nth};
ghost use Rattle.blocks.specs.Faults.{entry_faults, first};
ghost use Rattle.blocks.specs.Reading.{answer, reading_of};
ghost use Rattle.blocks.specs.code.Blockwise.{Whole};
ghost use Rattle.blocks.specs.code.ReadingSteps.{Levels};
ghost use Rattle.blocks.specs.declared.Schema.{Schema};
ghost use Rattle.pairs.specs.Pairs.{under};
ghost use Rattle.slots.specs.code.Judging.{plain_judged, unless_told};
ghost use Rattle.slots.specs.code.Lent.{AllPassedIn, HeldIn};
ghost use Rattle.slots.specs.code.Pass.{EntryChecked, Left, RestChecked, left_in};

use crate::failing::Supplier;
use blocks::{Entry, InOrder, Refusal, Schema, entries_in_order};
use reading::{entry_refusal, level_under, owner_level, read_blocks};
use std::iter::Enumerate;

// Checks entry n of a service by the levels of the entries before it, and notes its own. A part of both loops below, inlined into each. It
// says what a turn of `fault_by_levels` of crate reading says, of one schema: there the whole pass is one function, here an entry is also judged.
#[inline(always)]
fn check_entry(e: Entry, n: usize, level: &mut [u8], input: u16) -> Result<(), Refusal>
    requires { (n < length level.old) × (n ≤ 1008) }
    ensures { (es : List Entry) → Levels (Schema.Named 0) es level.old n → 1 ≤ n → n ≤ length es → e ≡ nth es n
        → EntryChecked es n input result level.new }
{
    let l = owner_level(&level[..n], e.owner);
    if let Some(cause) = entry_refusal(Schema::Named(0), e, l) {
        return Err(Refusal {
            cause,
            input,
            place: n as u16,
        });
    }
    level[n] = level_under(Schema::Named(0), e.kind, l);
    Ok(())
}

// Checks the entries that are left of a service, of which one has failed: none is judged any more.
fn check_rest(rest: Enumerate<InOrder<'_>>, level: &mut [u8], input: u16) -> Result<(), Refusal>
    requires { (enumerate_count rest + length (left_in rest) < length level.old) × (enumerate_count rest + length (left_in rest) ≤ 1008) }
    ensures { (d : List ℕ) → (total : ℕ) → Left d total rest.entry → Levels (Schema.Named 0) (entries_of d) level.old (enumerate_count rest.entry + 1)
        → RestChecked d (enumerate_count rest.entry) total input result }
{
    for (before, bytes) in rest {
        check_entry(Entry::from(bytes), before + 1, level, input)?;
    }
    Ok(())
}

// Goes over the `total` entries of a service, with tables that have a number for each: checks and judges each until one fails, and only checks
// the rest. What the tables held does not count. It is not inlined: what its callers keep would take the registers of its loop.
#[inline(never)]
fn pass_entries(
    supplier: Supplier<'_, 4093, 6111>,
    d: &[u8],
    total: usize,
    states: &mut [u16; 1009],
    level: &mut [u8; 1009],
    input: u16,
) -> Result<Option<usize>, Refusal>
    requires { (total ≡ length (entries_of d.now)) × (total ≤ 1008) × Whole d.now total }
    ensures { AllPassedIn (under supplier.entry.marked.exclusions.pairs.now) d.now supplier.entry.slots total input result }
{
    states[0] = 0;
    level[0] = 1;
    let mut rest = entries_in_order(d, total).enumerate();
    // `while let` and no `for`: what is left is handed on where an entry fails.
    while let Some((before, bytes)) = rest.next() {
        let e = Entry::from(bytes);
        let n = before + 1;
        check_entry(e, n, level, input)?;
        let s = states[usize::from(e.owner)];
        match supplier.slots.look(supplier.marked, s, e) {
            Some(below) => states[n] = below,
            None => {
                check_rest(rest, level, input)?;
                return Ok(Some(n));
            }
        }
    }
    Ok(None)
}

// Reads a service that is contained if it is accepted: nothing fits the other description.
fn judge_broken(d: &[u8], input: u16) -> Result<bool, Refusal>
    ensures { result ≡ unless_told (reading_of (Schema.Named 0) input d.now) true }
{
    reading::read(d, Schema::Named(0), input)?;
    Ok(true)
}

// Judges a service whose blocks are sound and have `total` entries.
fn judge_entries(
    supplier: Supplier<'_, 4093, 6111>,
    d: &[u8],
    total: u16,
    input: u16,
    states: &mut [u16; 1009],
    level: &mut [u8; 1009],
) -> Result<bool, Refusal>
    requires { (supplier.impossible ≡ false)
        × (reading_of (Schema.Named 0) input d.now ≡ answer input total (first (entry_faults (Schema.Named 0) (entries_of d.now) 1 total)))
        × (total ≡ length (entries_of d.now)) × (total ≤ 1008) × Whole d.now total }
    ensures { (c : List ℕ) → HeldIn (under supplier.entry.marked.exclusions.pairs.now) c supplier.entry
        → result ≡ plain_judged supplier.entry.marked.exclusions.pairs.now c input d.now }
{
    let failing = pass_entries(supplier, d, usize::from(total), states, level, input)?;
    Ok(failing.is_none())
}

// Reads a service with no names, an input of any number, and judges it. What the tables held does not count.
pub(crate) fn judge_plain(
    supplier: Supplier<'_, 4093, 6111>,
    d: &[u8],
    input: u16,
    states: &mut [u16; 1009],
    level: &mut [u8; 1009],
) -> Result<bool, Refusal>
    ensures { (c : List ℕ) → HeldIn (under supplier.entry.marked.exclusions.pairs.now) c supplier.entry
        → result ≡ plain_judged supplier.entry.marked.exclusions.pairs.now c input d.now }
{
    if supplier.impossible {
        return judge_broken(d, input);
    }
    let total = read_blocks(d, Schema::Named(0), input)?;
    judge_entries(supplier, d, total, input, states, level)
}
