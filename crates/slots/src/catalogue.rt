// A list of descriptions judged by one: the slots of the one are built and settled once, and each of the list is judged by them as soon as it
// is read, while its bytes are warm. No specimen is written.
ghost use Rattle.std.specs.Prelude.{◌≡◌, ◌≢◌, List, ◌<◌, ◌≤◌, ℕ, length, IfSome};
ghost use Rattle.std.proofs.Props.{props};
ghost use Rattle.blocks.specs.Reading.{reading_of};
ghost use Rattle.blocks.specs.declared.Schema.{Schema};
ghost use Rattle.lists.specs.Parts.{parts_of};
ghost use Rattle.logic.specs.Background.{Ruled};
ghost use Rattle.pairs.specs.Pairs.{pair_count, under};
ghost use Rattle.slots.specs.Catalogue.{answers_after, cut_reading, list_reading};
ghost use Rattle.slots.specs.code.Lent.{HeldIn};
ghost use Rattle.slots.specs.code.Judging.{JudgesAll, JudgesListed, JudgesSupplied, bytes_read, service_judged};

use crate::accepted::Accepted;
use crate::excluding::Marked;
use crate::failing::Supplier;
use crate::filling::chained_slots;
use crate::service::judge_plain;
use crate::slots::Slots;
use crate::workspace::Workspace;
use blocks::sizes::BLOCK;
use blocks::{Cause, Refusal, Schema};
use lists::{Parts, parts_in};
use pairs::{Exclusions, INDEX_BYTES, Sides};
use unfolding::{Dictionary, Tables};
use writing::bytes_for;

// What descriptions may name: those of a dictionary that is read, once for all inputs, or nothing where it has length 0, for which nothing is read or
// copied.
#[derive(Clone, Copy)]
struct Names<'a> {
    read: Option<Dictionary<'a>>,
    ghost some: { IfSome read (λ d. 0 < length d.bytes.now) } by { Prim.hlevel props },
}

// What is needed for one service at a time: what stands there before does not count, and so it is cleared once for all of a list.
#[derive(Drop)]
struct Scratch {
    buffer: [u8; 8192],
    states: [u16; 1009],
    level: [u8; 1009],
}

// Reads a service, an input of any number, and judges it: as it is sent where nothing may be named, else by the plain description that it stands
// for, which is written to a buffer that has room for every description.
fn judge_service(
    supplier: Supplier<'_, 4093, 6111>,
    names: Names<'_>,
    d: &[u8],
    input: u16,
    scratch: &mut Scratch,
) -> Result<bool, Refusal>
    ensures { (c : List ℕ) → HeldIn (under supplier.entry.marked.exclusions.pairs.now) c supplier.entry
        → result ≡ service_judged supplier.entry.marked.exclusions.pairs.now (bytes_read names.entry.read) c input d.now }
{
    let Some(dictionary) = names.read else {
        return judge_plain(supplier, d, input, &mut scratch.states, &mut scratch.level);
    };
    let m = dictionary.unfold_into(d, input, &mut scratch.buffer)?;
    let end = bytes_for(m);
    let service = Accepted {
        bytes: &scratch.buffer[..end],
        total: usize::from(m),
    };
    let failing = supplier.judge(service, &mut scratch.states);
    Ok(failing.is_none())
}

// Judges the services of a list in turn, as inputs 2, 3 and so on, and stores a byte for each: how many there are, or the first refusal.
fn judge_parts(
    supplier: Supplier<'_, 4093, 6111>,
    names: Names<'_>,
    list: &[u8],
    scratch: &mut Scratch,
    answers: &mut [u8; 64],
) -> Result<u16, Refusal>
    requires { length (parts_of list.now) ≤ 64 }
    ensures { (c : List ℕ) → HeldIn (under supplier.entry.marked.exclusions.pairs.now) c supplier.entry
        → JudgesAll supplier.entry.marked.exclusions.pairs.now (bytes_read names.entry.read) c list.now answers.old result answers.new }
{
    // Counted by hand: the answer is how many there are, which `enumerate` does not tell at the end.
    let mut n: usize = 0;
    for part in Parts::of(list) {
        let contained = judge_service(supplier, names, part, 2 + n as u16, scratch)?;
        answers[n] = u8::from(contained);
        n += 1;
    }
    Ok(n as u16)
}

// Slots and settles the supplier's description and judges a list of at most 64 services by its slots, with tables of its own: MARKS places are marked.
fn judge_all<const MARKS: usize>(
    exclusions: Exclusions<'_>,
    names: Names<'_>,
    c: Accepted<'_>,
    list: &[u8],
    answers: &mut [u8; 64],
) -> Result<u16, Refusal>
    requires { Ruled (under exclusions.pairs.now) × (length (parts_of list.now) ≤ 64) × (MARKS ≤ 1009)
        × (pair_count exclusions.pairs.now ≢ 0 → c.total < MARKS) }
    ensures { JudgesAll exclusions.entry.pairs.now (bytes_read names.entry.read) c.entry.bytes.now list.now
        answers.old result answers.new }
{
    let mut table = [0u64; 1009];
    let mut cells = [0u16; 6111];
    let mut node = [0u16; 1009];
    let mut bad = [0u8; 1009];
    let mut full = [0u8; 1009];
    let mut marks = [Sides::none(); MARKS];
    let cells = &mut cells;
    let marks: &mut [Sides] = &mut marks;
    let mut work = Workspace {
        cells: &mut *cells,
        node: &mut node,
        marks: &mut *marks,
        bad: &mut bad,
        full: &mut full,
    };
    let used = chained_slots::<4093, 6111>(exclusions, c, &mut table, &mut work);
    let top = work.bad[0];
    let slots = Slots::<4093, 6111>::of(&table, cells, used);
    let supplier = Supplier::new(Marked { exclusions, marks }, slots, top);
    let mut scratch = Scratch {
        buffer: [0; 8192],
        states: [0; 1009],
        level: [0; 1009],
    };
    judge_parts(supplier, names, list, &mut scratch, answers)
}

// How many services a list has, which is cut before any is checked; or the refusal, of input 2.
#[tactic(auto, unfolding(crate::specs::Catalogue::cut_reading))]
pub(crate) fn count_services(list: &[u8]) -> Result<u16, Refusal>
    ensures { result ≡ cut_reading list.now }
{
    if list.is_empty() || list.len() % BLOCK != 0 {
        return Err(Refusal {
            cause: Cause::Length,
            input: 2,
            place: 0,
        });
    }
    let n = parts_in(list);
    if 64 < n {
        return Err(Refusal {
            cause: Cause::Count,
            input: 2,
            place: 0,
        });
    }
    Ok(n as u16)
}

// The same for any list. Where there is no pair nothing is marked.
fn judge_cut(
    exclusions: Exclusions<'_>,
    names: Names<'_>,
    c: Accepted<'_>,
    list: &[u8],
    answers: &mut [u8; 64],
) -> Result<u16, Refusal>
    requires { Ruled (under exclusions.pairs.now) }
    ensures { JudgesListed exclusions.entry.pairs.now (bytes_read names.entry.read) c.entry.bytes.now list.now
        answers.old result answers.new }
{
    count_services(list)?;
    if exclusions.is_empty() {
        return judge_all::<0>(exclusions, names, c, list, answers);
    }
    judge_all::<1009>(exclusions, names, c, list, answers)
}

// Reads the supplier's description, under a list of pairs that is accepted and indexed.
fn judge_supplied(
    exclusions: Exclusions<'_>,
    names: Names<'_>,
    c: &[u8],
    list: &[u8],
    answers: &mut [u8; 64],
) -> Result<u16, Refusal>
    requires { Ruled (under exclusions.pairs.now) }
    ensures { JudgesSupplied exclusions.entry.pairs.now (bytes_read names.entry.read) c.now list.now answers.old result answers.new }
{
    let Some(dictionary) = names.read else {
        let n = reading::read(c, Schema::Named(0), 1)?;
        let sent = Accepted {
            bytes: c,
            total: usize::from(n),
        };
        return judge_cut(exclusions, names, sent, list, answers);
    };
    let mut buffer = [0u8; 8192];
    let n = dictionary.unfold_into(c, 1, &mut buffer)?;
    let end = bytes_for(n);
    let unfolded = Accepted {
        bytes: &buffer[..end],
        total: usize::from(n),
    };
    judge_cut(exclusions, names, unfolded, list, answers)
}

// Reads a list of pairs, a dictionary, the supplier's description and a list of services, and stores a byte for each service, from the front
// of a table on: 1 where the supplier's description is contained in it, else 0. Returns how many there are, or the refusal; then the table
// has the bytes of the services before the one that is refused. All other bytes stay.
pub fn judge_list(
    pairs: &[u8],
    dictionary: &[u8],
    c: &[u8],
    list: &[u8],
    answers: &mut [u8; 64],
) -> Result<u16, Refusal>
    ensures { (result ≡ list_reading pairs.now dictionary.now c.now list.now)
        × (answers.new ≡ answers_after pairs.now dictionary.now c.now list.now answers.old) }
{
    pairs::read_pairs(pairs)?;
    let mut index = [0u8; INDEX_BYTES];
    let exclusions = Exclusions::new(pairs, &mut index);
    if dictionary.is_empty() {
        return judge_supplied(exclusions, Names { read: None }, c, list, answers);
    }
    let mut tables = Tables::new();
    let read = Dictionary::read(dictionary, &mut tables)?;
    judge_supplied(exclusions, Names { read: Some(read) }, c, list, answers)
}
