// The rules of single entries: the table of kinds, names, owners and depths, numbers 4, 13, 5 and 6 of the table of refusals.
ghost use Rattle.std.specs.Prelude.{◌≡◌, ◌||◌, false, not, true, ◌+◌, ◌*◌, ◌/◌, ◌≤◌, ◌<◌, eqb, length, min, slice_index};
ghost use Rattle.base.specs.Range.{bit};
ghost use Rattle.blocks.specs.Entries.{kind_ok, name_given, name_ok, names_ok, number_ok, form_ok, owning_kind, entries_of};
ghost use Rattle.blocks.specs.Faults.{first};
ghost use Rattle.blocks.specs.Reading.{answer};
ghost use Rattle.blocks.specs.code.Blockwise.{Whole};
ghost use Rattle.blocks.specs.code.ReadingSteps.{entry_refusal, level_under, rule_faults};
ghost use Rattle.blocks.specs.declared.Schema.{Schema};

use blocks::{Cause, Entry, Refusal, Schema, entries_in_order, kinds};

// Whether a kind is one of a description that may name others.
fn named_kind(kind: u8) -> bool
    ensures { result ≡ kind_ok (Schema.Named 0) kind }
{
    if kind <= kinds::NOTHING {
        return 0 < kind;
    }
    kind == kinds::NAME
}

// Whether a kind stands in the schema's table.
fn kind_ok(schema: Schema, kind: u8) -> bool
    ensures { result ≡ kind_ok schema kind }
{
    match schema {
        Schema::Description => 0 < kind && kind <= kinds::NOTHING, // the kinds from 1 on
        Schema::Specimen => kind == kinds::HAS || kind == kinds::GROUP,
        Schema::Named(_) => named_kind(kind),
    }
}

// The kind of entry that may own others.
fn owning_kind(schema: Schema) -> u8
    ensures { result ≡ owning_kind schema }
{
    match schema {
        Schema::Description | Schema::Named(_) => kinds::EVERY,
        Schema::Specimen => kinds::GROUP,
    }
}

// Whether the table allows the name for the kind. Most entries have a name, so that this is asked first and guessed right.
fn name_ok(kind: u8, name: u16) -> bool
    ensures { result ≡ name_ok kind name }
{
    if 0 < name {
        return kind != kinds::NOTHING;
    }
    kind == kinds::NOTHING || kind == kinds::NAME
}

// 0 where the table allows any number for a kind, else 1. Kinds end at 9, and 8 and 9 are like 0 and 1 here; so all that is asked of a kind
// is a look into a table of eight, without a jump: entries come in any order of kinds, and a jump would be guessed wrong.
fn pinned(kind: u8) -> u32
    requires { kind ≤ 9 }
    ensures { result ≡ bit (not (eqb kind 3 || (eqb kind 4 || eqb kind 7))) }
{
    let low = kind % 8; // of two kinds each: no kind's name
    // Arm by arm, as the table of kinds has them.
    match low {
        0 => 1,
        1 => 1,
        2 => 1,
        3 => 0,
        4 => 0,
        5 => 1,
        6 => 1,
        7 => 0,
        _ => 2,
    }
}

// Whether the table allows the number for the kind.
fn number_ok(kind: u8, number: u16) -> bool
    requires { kind ≤ 9 }
    ensures { result ≡ number_ok kind number }
{
    pinned(kind) * u32::from(number) == 0
}

// Whether an entry by itself is as the table has it: the contrary of number 4.
fn form_ok(schema: Schema, e: Entry) -> bool
    ensures { result ≡ form_ok schema e }
{
    if !kind_ok(schema, e.kind) {
        return false;
    }
    if e.reserved != 0 {
        return false;
    }
    if !name_ok(e.kind, e.name) {
        return false;
    }
    number_ok(e.kind, e.number)
}

// Whether an entry, if it is a name, is one from 1 to `most`.
fn name_given(most: u16, e: Entry) -> bool
    ensures { result ≡ name_given most e }
{
    if e.kind != kinds::NAME {
        return true;
    }
    0 < e.name && e.name <= most
}

// Whether the schema allows the name of an entry that is one: the contrary of number 13.
fn names_ok(schema: Schema, e: Entry) -> bool
    ensures { result ≡ names_ok schema e }
{
    match schema {
        Schema::Description | Schema::Specimen => true,
        Schema::Named(most) => name_given(most, e),
    }
}

// The level of an owner, from a table of the levels of the entries passed: 0 where it may own nothing or is not passed.
// That is no Option: levels stand in a table of a byte each, of fixed size, which Options would double.
pub fn owner_level(passed: &[u8], owner: u16) -> u8
    ensures { result ≡ slice_index passed.now owner }
{
    passed.get(usize::from(owner)).copied().unwrap_or(0)
}

// What the number of a description's entry, counted from 1, is multiplied by to see its form at a look: the product is at most 1 where the
// number is right. 0 for kinds that take any number, 1 for those that take 0 only. Kind 6, names and what is no kind are 2: those are
// tested number by number. All are constants, so that this is a look into a table: a jump by kind would be guessed wrong.
fn described_weight(kind: u8) -> u32
    ensures { (result ≤ 2) × (result ≤ 1 → (kind_ok Schema.Description kind ≡ true) × (kind < 6)) × (result ≡ 0 → (eqb kind 3 || (eqb kind 4 || eqb kind 7)) ≡ true) }
{
    // Arm by arm, as the table of kinds has them.
    match kind {
        kinds::HAS => 1,
        kinds::LACKS => 1,
        kinds::AT_LEAST => 0,
        kinds::AT_MOST => 0,
        kinds::EVERY => 1,
        _ => 2,
    }
}

// The same of a specimen's entry.
fn grouped_weight(kind: u8) -> u32
    ensures { (result ≤ 2) × (result ≤ 1 → (kind_ok Schema.Specimen kind ≡ true) × (kind < 8)) × (result ≡ 0 → (eqb kind 3 || (eqb kind 4 || eqb kind 7)) ≡ true) }
{
    match kind {
        kinds::HAS => 1,
        kinds::GROUP => 0,
        _ => 2,
    }
}

// The same by the schema.
fn weight_of(schema: Schema, kind: u8) -> u32
    ensures { (result ≤ 2) × (result ≤ 1 → (kind_ok schema kind ≡ true) × (eqb kind 6 ≡ false) × (eqb kind 9 ≡ false)) × (result ≡ 0 → (eqb kind 3 || (eqb kind 4 || eqb kind 7)) ≡ true) }
{
    match schema {
        Schema::Description | Schema::Named(_) => described_weight(kind),
        Schema::Specimen => grouped_weight(kind),
    }
}

// Whether a look shows that an entry whose owner has level l is right. Of entries that are, most are told here.
fn plainly_right(schema: Schema, e: Entry, l: u8) -> bool
    ensures { result ≡ true → entry_refusal schema e l ≡ None }
{
    if e.reserved != 0 {
        return false;
    }
    if e.name == 0 {
        return false;
    }
    if 34 <= l {
        return false;
    }
    if l == 0 {
        return false;
    }
    weight_of(schema, e.kind) * (u32::from(e.number) + 1) <= 1
}

// Why an entry is refused whose owner has level l, if it is, test by test: 4 before 13 before 5 before 6.
fn first_refusal(schema: Schema, e: Entry, l: u8) -> Option<Cause>
    ensures { result ≡ entry_refusal schema e l }
{
    if !form_ok(schema, e) {
        return Some(Cause::Form);
    }
    if !names_ok(schema, e) {
        return Some(Cause::Name);
    }
    if l == 0 {
        return Some(Cause::Owner);
    }
    if 33 < l {
        return Some(Cause::Depth);
    }
    None
}

// Why an entry is refused whose owner has level l, if it is: 4 before 13 before 5 before 6. Inlined, since a call for each entry costs as much as
// the rest of reading does.
#[inline(always)]
pub fn entry_refusal(schema: Schema, e: Entry, l: u8) -> Option<Cause>
    ensures { result ≡ entry_refusal schema e l }
{
    if plainly_right(schema, e, l) {
        return None;
    }
    first_refusal(schema, e, l)
}

// The level of an entry of this kind whose owner has level l: 0, as above, for one that may own nothing. A level that a byte does not hold is 255; where
// the entry is not refused, its owner's is at most 33.
pub fn level_under(schema: Schema, kind: u8, l: u8) -> u8
    ensures { result ≡ min (level_under schema kind l) 255 }
{
    if kind == owning_kind(schema) {
        l.saturating_add(1)
    } else {
        0
    }
}

// The lowest of `total` entries that breaks number 4, 13, 5 or 6, with a table that has room for the level of each. Each entry is decoded once, and
// the table holds the level of each entry before it, so that neither its owner nor its chain of owners is looked up again.
#[inline(always)]
fn fault_by_levels(
    s: &[u8],
    schema: Schema,
    total: usize,
    level: &mut [u8],
    input: u16,
) -> Result<(), Refusal>
    requires { (total ≡ length (entries_of s.now)) × (total ≤ 2016) × Whole s.now total × (total < length level.old) }
    ensures { result ≡ answer input tt (first (rule_faults schema (entries_of s.now) 1 total)) }
{
    level[0] = 1;
    for (before, bytes) in entries_in_order(s, total).enumerate() {
        let e = Entry::from(bytes);
        let n = before + 1;
        let l = owner_level(&level[..n], e.owner);
        if let Some(cause) = entry_refusal(schema, e, l) {
            return Err(Refusal {
                cause,
                input,
                place: n as u16,
            });
        }
        level[n] = level_under(schema, e.kind, l);
    }
    Ok(())
}

// The same with a table of its own, of N numbers: of fixed size, since there is no heap.
#[inline(always)]
fn fault_in_table<const N: usize>(
    s: &[u8],
    schema: Schema,
    total: usize,
    input: u16,
) -> Result<(), Refusal>
    requires { (total ≡ length (entries_of s.now)) × (total < N) × (N ≤ 2017) × Whole s.now total }
    ensures { result ≡ answer input tt (first (rule_faults schema (entries_of s.now) 1 total)) }
{
    let mut level = [0u8; N];
    fault_by_levels(s, schema, total, &mut level, input)
}

// The lowest of `total` entries that breaks number 4, 13, 5 or 6. Few entries take a small table, which is sooner cleared.
#[inline(always)]
pub(crate) fn first_rule_fault(
    s: &[u8],
    schema: Schema,
    total: usize,
    input: u16,
) -> Result<(), Refusal>
    requires { (total ≡ length (entries_of s.now)) × (total ≤ 2016) × Whole s.now total }
    ensures { result ≡ answer input tt (first (rule_faults schema (entries_of s.now) 1 total)) }
{
    if total < 64 {
        return fault_in_table::<64>(s, schema, total, input);
    }
    fault_in_table::<2017>(s, schema, total, input)
}
