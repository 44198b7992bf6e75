// The calls, by value: each takes the counters as they are, and hands out those that are left.
ghost use Rattle.std.specs.Prelude.{◌≡◌, ◌+◌, ◌<◌, ◌≤◌, true, MatchOption, Ok};
ghost use Rattle.blocks.specs.Refusals.{refused};
ghost use Rattle.blocks.specs.code.ReadingSteps.{Levels};
ghost use Rattle.blocks.specs.declared.Schema.{Schema};
ghost use Rattle.drafts.specs.declared.Call.{Call};
ghost use Rattle.drafts.specs.Answer.{place_in};
ghost use Rattle.drafts.specs.Memory.{entries_at};
ghost use Rattle.drafts.specs.Sound.{sound};
ghost use Rattle.drafts.specs.code.Does.{Does};

use crate::sound::{AREA, MOST, SIZE, is_sound};
use crate::stores::put_entry;
use blocks::sizes::ENTRY;
use blocks::{Cause, Entry, Refusal, Schema};
use drafts::{Call, Desk};
use reading::{entry_refusal, owner_level};

// The counters that are left, and the answer.
#[derive(Clone, Copy)]
pub(crate) struct Stepped {
    pub desk: Desk,
    pub answer: Result<u16, Refusal>,
}

// A call that is refused leaves the counters as they are.
fn refused(desk: Desk, cause: Cause, place: u16) -> Stepped
    ensures { (result.desk ≡ desk) × (result.answer ≡ refused cause 1 place) }
{
    Stepped {
        desk,
        answer: Err(Refusal {
            cause,
            input: 1,
            place,
        }),
    }
}

// A call that leaves these counters answers how many entries are left.
fn left(desk: Desk) -> Stepped
    ensures { (result.desk ≡ desk) × (result.answer ≡ Ok desk.count) }
{
    Stepped {
        desk,
        answer: Ok(desk.count),
    }
}

// The place of a number among the stands; where none has it, the place behind them.
fn place_in(desk: Desk, s: u16) -> usize
    requires { desk.stands ≤ 4 }
    ensures { (result ≡ place_in desk s) × (result ≤ desk.stands) }
{
    for i in 0..usize::from(desk.stands) {
        if s == desk.names[i] {
            return i;
        }
    }
    usize::from(desk.stands)
}

// The place of a number that is known.
fn known_place(desk: Desk, s: u16) -> Option<usize>
    requires { desk.stands ≤ 4 }
    ensures { MatchOption result (place_in desk s ≡ desk.stands) (λ i. (i ≡ place_in desk s) × (i < desk.stands) × (i < 4)) }
{
    let i = place_in(desk, s);
    if i == usize::from(desk.stands) {
        return None;
    }
    Some(i)
}

// Adds an entry at the end, by the table of levels of those that are there.
fn add(desk: Desk, memory: &mut [u8], level: &[u8; 1009], e: Entry) -> Stepped
    requires { (sound desk memory.old ≡ true) × Levels Schema.Description (entries_at memory.old 0 desk.count) level.now (desk.count + 1) }
    ensures { Does desk memory.old (Call.Add e) result.desk result.answer memory.new }
{
    if desk.count == MOST {
        return refused(desk, Cause::Full, 0);
    }
    let n = usize::from(desk.count);
    let l = owner_level(&level[..n + 1], e.owner);
    if let Some(cause) = entry_refusal(Schema::Description, e, l) {
        return refused(desk, cause, desk.count + 1);
    }
    put_entry(memory, ENTRY * n, e);
    left(Desk {
        count: desk.count + 1,
        ..desk
    })
}

// Takes off the last entry.
fn take_off(desk: Desk, memory: &[u8]) -> Stepped
    requires { sound desk memory.now ≡ true }
    ensures { Does desk memory.now Call.TakeOff result.desk result.answer memory.now }
{
    if desk.count == 0 {
        return refused(desk, Cause::Empty, 0);
    }
    left(Desk {
        count: desk.count - 1,
        ..desk
    })
}

// Keeps the description under a number, in the area of its place.
fn name(desk: Desk, memory: &mut [u8], s: u16) -> Stepped
    requires { sound desk memory.old ≡ true }
    ensures { Does desk memory.old (Call.Name s) result.desk result.answer memory.new }
{
    if s == 0 {
        return refused(desk, Cause::Stand, 0);
    }
    let i = place_in(desk, s);
    if i == 4 {
        return refused(desk, Cause::Stand, 0);
    }
    memory.copy_within(0..ENTRY * usize::from(desk.count), AREA * (i + 1));
    let mut names = desk.names;
    let mut counts = desk.counts;
    names[i] = s;
    counts[i] = desk.count;
    left(Desk {
        count: desk.count,
        stands: desk.stands.max(i as u16 + 1),
        names,
        counts,
    })
}

// Goes back to the stand of a number.
fn go_back(desk: Desk, memory: &mut [u8], s: u16) -> Stepped
    requires { sound desk memory.old ≡ true }
    ensures { Does desk memory.old (Call.GoBack s) result.desk result.answer memory.new }
{
    let Some(i) = known_place(desk, s) else {
        return refused(desk, Cause::Stand, 0);
    };
    let count = desk.counts[i];
    let at = AREA * (i + 1);
    memory.copy_within(at..at + ENTRY * usize::from(count), 0);
    left(Desk { count, ..desk })
}

// Drops the stand of a number: those behind it move down by one.
fn forget(desk: Desk, memory: &mut [u8], s: u16) -> Stepped
    requires { sound desk memory.old ≡ true }
    ensures { Does desk memory.old (Call.Drop s) result.desk result.answer memory.new }
{
    let Some(i) = known_place(desk, s) else {
        return refused(desk, Cause::Stand, 0);
    };
    memory.copy_within(AREA * (i + 2)..SIZE, AREA * (i + 1));
    let mut names = desk.names;
    let mut counts = desk.counts;
    names.copy_within(i + 1..4, i);
    names[3] = 0;
    counts.copy_within(i + 1..4, i);
    counts[3] = 0;
    left(Desk {
        count: desk.count,
        stands: desk.stands - 1,
        names,
        counts,
    })
}

// Does what is asked of a desk, where it is one.
pub(crate) fn act(desk: Desk, memory: &mut [u8], call: Call) -> Stepped
    ensures { Does desk memory.old call result.desk result.answer memory.new }
{
    let mut level = [0u8; 1009];
    if !is_sound(desk, memory, &mut level) {
        return refused(desk, Cause::Desk, 0);
    }
    match call {
        Call::Add(e) => add(desk, memory, &level, e),
        Call::TakeOff => take_off(desk, memory),
        Call::Name(s) => name(desk, memory, s),
        Call::GoBack(s) => go_back(desk, memory, s),
        Call::Drop(s) => forget(desk, memory, s),
    }
}
