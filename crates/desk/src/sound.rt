// Whether counters and memory are a desk's, and a table of levels that then serves adding.
ghost use Rattle.std.specs.Prelude.{◌≡◌, ◌+◌, ◌*◌, ◌≤◌, ◌<◌, [], length, map, true, get_or};
ghost use Rattle.base.specs.Range.{all};
ghost use Rattle.blocks.specs.Entries.{entry_from, form_ok};
ghost use Rattle.blocks.specs.code.ReadingSteps.{Levels};
ghost use Rattle.blocks.specs.declared.Schema.{Schema};
ghost use Rattle.drafts.specs.Memory.{area, entries_at};
ghost use Rattle.drafts.specs.Sound.{areas_ok, counters_ok, drafted, is_new, sound, stand_ok};

use crate::forms::forms_ok;
use blocks::sizes::ENTRY;
use blocks::{Entry, Schema};
use drafts::Desk;
use reading::{level_under, owner_level};

// The most entries that a desk holds, the bytes of an area, and those of all five.
pub(crate) const MOST: u16 = 1008;

pub(crate) const AREA: usize = 8064;

pub(crate) const SIZE: usize = 40320;

// Whether no stand before number j has its number.
fn is_new(names: &[u16; 4], j: usize) -> bool
    requires { j < 4 }
    ensures { result ≡ is_new names.now j }
{
    for i in 0..j {
        if names[i] == names[j] {
            return false;
        }
    }
    true
}

// Whether the counters of stand j are those of a desk.
fn stand_ok(desk: Desk, j: usize) -> bool
    requires { j < 4 }
    ensures { result ≡ stand_ok desk j }
{
    if j < usize::from(desk.stands) {
        return desk.names[j] != 0 && (desk.counts[j] <= MOST && is_new(&desk.names, j));
    }
    desk.names[j] == 0 && desk.counts[j] == 0
}

// Whether those of all stands are.
fn stands_ok(desk: Desk) -> bool
    ensures { result ≡ all (stand_ok desk) 0 4 }
{
    for j in 0..4 {
        if !stand_ok(desk, j) {
            return false;
        }
    }
    true
}

// Whether the counters are those of a desk.
#[tactic(auto, unfolding(drafts::specs::Sound::counters_ok))]
fn counters_ok(desk: Desk) -> bool
    ensures { result ≡ counters_ok desk }
{
    desk.count <= MOST && (desk.stands <= 4 && stands_ok(desk))
}

// Whether entries of right forms break neither 5 nor 6; if so, the table then has the level of each.
fn owners_ok(rows: &[[u8; 8]], level: &mut [u8; 1009]) -> bool
    requires { (length rows.now ≤ 1008) × (all (λ k. form_ok Schema.Description (entry_from (get_or rows.now k []) 0)) 0 (length rows.now) ≡ true) }
    ensures tells { result ≡ drafted (map (λ b. entry_from b 0) rows.now) }
    ensures levels { result ≡ true → Levels Schema.Description (map (λ b. entry_from b 0) rows.now) level.new (length rows.now + 1) }
{
    level[0] = 1;
    for (before, bytes) in rows.iter().enumerate() {
        let e = Entry::from(bytes);
        let l = owner_level(&level[..before + 1], e.owner);
        if l == 0 {
            return false;
        }
        if 33 < l {
            return false;
        }
        level[before + 1] = level_under(Schema::Description, e.kind, l);
    }
    true
}

// Whether entries break none of 4, 5 and 6; if so, the table then has the level of each. Forms are looked at apart from
// owners: they are told of eight entries at a step, and owners of one after the other, since each may be owned by the
// one before.
fn rows_drafted(rows: &[[u8; 8]], level: &mut [u8; 1009]) -> bool
    requires { length rows.now ≤ 1008 }
    ensures tells { result ≡ drafted (map (λ b. entry_from b 0) rows.now) }
    ensures levels { result ≡ true → Levels Schema.Description (map (λ b. entry_from b 0) rows.now) level.new (length rows.now + 1) }
{
    if !forms_ok(rows) {
        return false;
    }
    owners_ok(rows, level)
}

// The same of so many entries that stand in memory from a byte on.
fn area_drafted(memory: &[u8], at: usize, count: u16, level: &mut [u8; 1009]) -> bool
    requires { (at + 8 * count ≤ length memory.now) × (count ≤ 1008) }
    ensures tells { result ≡ drafted (entries_at memory.now at count) }
    ensures levels { result ≡ true → Levels Schema.Description (entries_at memory.now at count) level.new (count + 1) }
{
    let rows = &memory[at..at + ENTRY * usize::from(count)];
    rows_drafted(rows.as_chunks::<8>().0, level)
}

// Whether the entries of each stand break none of these.
fn stands_drafted(desk: Desk, memory: &[u8], level: &mut [u8; 1009]) -> bool
    requires { (SIZE ≤ length memory.now) × (counters_ok desk ≡ true) }
    ensures { result ≡ all (λ j. drafted (entries_at memory.now (area j) (get_or desk.counts j 0))) 0 desk.stands }
{
    for j in 0..usize::from(desk.stands) {
        if !area_drafted(memory, AREA * (j + 1), desk.counts[j], level) {
            return false;
        }
    }
    true
}

// Whether counters and memory are a desk's; if so, the table then has the levels of the description's entries, whose area comes last.
#[tactic(auto, unfolding(drafts::specs::Sound::sound))]
pub(crate) fn is_sound(desk: Desk, memory: &[u8], level: &mut [u8; 1009]) -> bool
    ensures tells { result ≡ sound desk memory.now }
    ensures levels { result ≡ true → Levels Schema.Description (entries_at memory.now 0 desk.count) level.new (desk.count + 1) }
{
    if memory.len() < SIZE {
        return false;
    }
    if !counters_ok(desk) {
        return false;
    }
    if !stands_drafted(desk, memory, level) {
        return false;
    }
    area_drafted(memory, 0, desk.count, level)
}

// The same for a call that adds nothing.
pub(crate) fn is_desk(desk: Desk, memory: &[u8]) -> bool
    ensures { result ≡ sound desk memory.now }
{
    let mut level = [0u8; 1009];
    is_sound(desk, memory, &mut level)
}
