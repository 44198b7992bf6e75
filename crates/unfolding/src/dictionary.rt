// Reading: a description that may name those of a dictionary, and a dictionary, description by description.
ghost use Rattle.std.specs.Prelude.{◌≡◌, List, [], ◌+◌, ◌-◌, ◌≤◌, ◌<◌, ℕ, get_or, length, replicate, IfErr, IfOk, Ok};
ghost use Rattle.blocks.specs.Entries.{entries_of};
ghost use Rattle.blocks.specs.Faults.{entry_faults, first};
ghost use Rattle.blocks.specs.Reading.{answer, reading_of};
ghost use Rattle.blocks.specs.code.Blockwise.{Whole};
ghost use Rattle.blocks.specs.declared.Entry.{Entry};
ghost use Rattle.blocks.specs.declared.Schema.{Schema};
ghost use Rattle.lists.specs.Parts.{parts_of};
ghost use Rattle.names.specs.NamedReading.{dictionary_of, dictionary_reading, parts_reading};
ghost use Rattle.std.proofs.Props.{props};
ghost use Rattle.unfolding.specs.code.Known.{Known, MeasuredBy, Ready, Ready-prop, blank};

use crate::Measured;
use crate::measure::check;
use crate::tables::{Described, Tables};
use blocks::sizes::BLOCK;
use blocks::{Cause, Refusal, Schema};
use lists::{Parts, part_length, parts_in};
use reading::read_blocks;

// A dictionary that is read and accepted: its bytes, and what is kept of its descriptions. It borrows the tables that a caller lends, so that it is
// read once for as many descriptions as there are.
#[derive(Clone, Copy)]
pub struct Dictionary<'a> {
    pub(crate) bytes: &'a [u8],
    pub(crate) tables: &'a Tables,
    ghost ready: { Ready bytes.now tables.now } by { Ready-prop bytes.now tables.now },
    ghost accepted: { dictionary_reading bytes.now ≡ Ok tables.now.count } by { Prim.hlevel props },
}

impl<'a> Dictionary<'a> {
    // Reads a dictionary into lent tables. What they held before does not count.
    pub fn read(bytes: &'a [u8], tables: &'a mut Tables) -> Result<Self, Refusal>
        ensures refused { IfErr result (λ x. dictionary_reading bytes.now ≡ Err x) }
        ensures accepted { IfOk result (λ d. d.bytes.now ≡ bytes.now) }
    {
        *tables = Tables::new();
        read_dictionary(bytes, tables)?;
        Ok(Dictionary { bytes, tables })
    }

    // The bytes of description n.
    pub(crate) fn description(self, n: u16) -> &'a [u8]
        requires { (1 ≤ n) × (n ≤ length (dictionary_of self.bytes.now)) }
        ensures { result.now ≡ get_or (parts_of self.entry.bytes.now) (n - 1) [] }
    {
        let at = self.tables.start(n);
        let rest = &self.bytes[at..];
        &rest[..part_length(rest)]
    }
}

// The answer for a description whose blocks are sound, with `total` entries: the refusal of the first that breaks a rule, else 14, or what it
// comes to.
fn take_entries(s: &[u8], total: u16, input: u16, tables: &Tables) -> Result<Measured, Refusal>
    requires { (total ≡ length (entries_of s.now)) × (total ≤ 1008) × Whole s.now total
        × (reading_of (Schema.Named tables.now.count) input s.now ≡ answer input total (first (entry_faults (Schema.Named tables.now.count) (entries_of s.now) 1 total))) }
    ensures { (K : List (List Entry)) → Known K tables.now → MeasuredBy K input s.now result }
{
    let x = check(s, usize::from(total), tables, input)?;
    if 1008 < x.size {
        return Err(Refusal {
            cause: Cause::Size,
            input,
            place: 0,
        });
    }
    if 33 < x.levels {
        return Err(Refusal {
            cause: Cause::Size,
            input,
            place: 0,
        });
    }
    Ok(Measured {
        total,
        size: x.size as u16,
        levels: x.levels as u8,
    })
}

// Reads a description that may name those of a dictionary that are read.
pub(crate) fn read_named(s: &[u8], input: u16, tables: &Tables) -> Result<Measured, Refusal>
    ensures { (K : List (List Entry)) → Known K tables.now → MeasuredBy K input s.now result }
{
    let total = read_blocks(s, Schema::Named(tables.count), input)?;
    take_entries(s, total, input, tables)
}

// Reads the descriptions of a dictionary in turn: each may name the earlier ones.
fn read_parts(bytes: &[u8], tables: &mut Tables) -> Result<u16, Refusal>
    requires { (length (parts_of bytes.now) ≤ 64) × (tables.old.of ≡ replicate 65 blank) × (tables.old.count ≡ 0) }
    ensures { (result ≡ parts_reading [] (parts_of bytes.now))
        × ((n : ℕ) → result ≡ Ok n → (n ≡ tables.new.count) × Ready bytes.now tables.new) }
{
    let mut at: usize = 0;
    for part in Parts::of(bytes) {
        let m = read_named(part, 101 + tables.count, tables)?;
        tables.add(Described {
            start: at,
            size: m.size,
            levels: m.levels,
        });
        at += part.len();
    }
    Ok(tables.count)
}

// Reads a dictionary: how many descriptions it has, or the refusal. What is kept of each is left in tables that are blank before.
fn read_dictionary(bytes: &[u8], tables: &mut Tables) -> Result<u16, Refusal>
    requires { (tables.old.of ≡ replicate 65 blank) × (tables.old.count ≡ 0) }
    ensures { (result ≡ dictionary_reading bytes.now)
        × ((n : ℕ) → result ≡ Ok n → (n ≡ tables.new.count) × Ready bytes.now tables.new) }
{
    if bytes.len() % BLOCK != 0 {
        return Err(Refusal {
            cause: Cause::Length,
            input: 100,
            place: 0,
        });
    }
    if 64 < parts_in(bytes) {
        return Err(Refusal {
            cause: Cause::Count,
            input: 100,
            place: 0,
        });
    }
    read_parts(bytes, tables)
}
