// Leaving out entries of one description beside another, whose entries all stay, while both together are contained in a service.
ghost use Rattle.std.proofs.Props.{props};
ghost use Rattle.std.specs.Prelude.{◌≡◌, ◌≤◌, ◌+◌, ◌<◌, ℕ, get_or, length, map};
ghost use Rattle.blocks.specs.Entries.{entries_of};
ghost use Rattle.blocks.specs.Promise.{Legal};
ghost use Rattle.blocks.specs.declared.Entry.{Entry};
ghost use Rattle.blocks.specs.declared.Schema.{Schema};
ghost use Rattle.earning.specs.Answer.{marked_bytes};
ghost use Rattle.earning.specs.Leaving.{left_of, leaving_of, stays_in, together};
ghost use Rattle.earning.specs.code.Tried.{Listed, Packed};
ghost use Rattle.narrow.specs.Missing.{shifted};

use crate::marks::{mark_owners, put_marks};
use crate::tried::Tried;
use crate::trying::{Service, Trial};
use blocks::{Cause, Entry, Refusal, nth_entry, pack};
use pairs::INDEX_BYTES;

/// A description that no rule refuses, and how many entries it has. Here an empty slice is one too, of none.
#[derive(Clone, Copy)]
pub struct Part<'a> {
    /// Its bytes.
    pub bytes: &'a [u8],
    /// How many entries it has.
    pub total: usize,
    ghost counted: { total ≡ length (entries_of bytes.now) },
    ghost legal: { Legal Schema.Description (entries_of bytes.now) } by { Prim.hlevel props },
}

/// What is asked: of the entries of one part, which are tried, beside those of another, which all stay, the fewest for which both together are
/// contained in a service.
#[derive(Clone, Copy)]
pub struct Attempt<'a> {
    /// The entries that all stay.
    pub stays: Part<'a>,
    /// The entries that are tried.
    pub tried: Part<'a>,
    /// The service.
    pub service: Service<'a>,
    ghost few: { stays.total + tried.total ≤ 1008 },
}

// An entry that stands behind so many others: its owner is so many further on.
fn behind(e: Entry, others: usize) -> Entry
    requires { (others ≤ 1008) × (e.owner ≤ 1008) }
    ensures { result ≡ shifted others e }
{
    if e.owner == 0 {
        return e;
    }
    Entry {
        kind: e.kind,
        reserved: e.reserved,
        owner: others as u16 + e.owner,
        name: e.name,
        number: e.number,
    }
}

// Packs the entries of a description behind so many others.
fn load(part: Part<'_>, others: usize, entries: &mut [u64; 1008])
    requires { others + part.total ≤ 1008 }
    ensures loaded { Packed (map (shifted others) (entries_of part.entry.bytes.now)) entries.new others }
    ensures before { (i : ℕ) → i < others → get_or entries.new i 0 ≡ get_or entries.old i 0 }
{
    for i in 0..part.total {
        entries[others + i] = pack(behind(nth_entry(part.bytes, part.total, i + 1), others));
    }
}

impl Attempt<'_> {
    // Packs all entries: those that stay, and behind them those that are tried.
    fn load(self, entries: &mut [u64; 1008])
        ensures { Listed (entries_of self.entry.stays.bytes.now) (map (shifted self.entry.stays.total) (entries_of self.entry.tried.bytes.now)) entries.new
            self.entry.stays.total self.entry.tried.total }
    {
        load(self.stays, 0, entries);
        load(self.tried, self.stays.total, entries);
    }
}

/// Tells whether all entries of both parts together are contained in the service.
pub fn together(attempt: Attempt<'_>) -> bool
    ensures { result ≡ together attempt.entry.service.pairs.now attempt.entry.stays.bytes.now attempt.entry.tried.bytes.now attempt.entry.service.d.now }
{
    let mut entries = [0u64; 1008];
    attempt.load(&mut entries);
    let tried = Tried {
        entries: &entries,
        before: attempt.stays.total,
        count: attempt.tried.total,
    };
    let mut index = [0u8; INDEX_BYTES];
    let service = attempt.service.ask(&mut index);
    Trial::new().passes(service, tried, &[true; 1009])
}

// The bytes of the part that is tried, of which those that are left are 1.
fn mark(attempt: Attempt<'_>, out: &mut [u8]) -> bool
    requires { attempt.tried.total ≤ length out.old }
    ensures { (result ≡ together attempt.entry.service.pairs.now attempt.entry.stays.bytes.now attempt.entry.tried.bytes.now attempt.entry.service.d.now)
        × (out.new ≡ marked_bytes (stays_in attempt.entry.service.pairs.now attempt.entry.stays.bytes.now attempt.entry.tried.bytes.now attempt.entry.service.d.now)
        (length (entries_of attempt.entry.tried.bytes.now)) out.old) }
{
    let mut entries = [0u64; 1008];
    attempt.load(&mut entries);
    let total = attempt.tried.total;
    let tried = Tried {
        entries: &entries,
        before: attempt.stays.total,
        count: total,
    };
    let mut kept = [true; 1009];
    tried.put_back(&mut kept, 0, total);
    let mut index = [0u8; INDEX_BYTES];
    let service = attempt.service.ask(&mut index);
    let mut trial = Trial::new();
    if !trial.passes(service, tried, &kept) {
        put_marks(&[false; 1009], total, out);
        return false;
    }
    trial.fold(service, tried, &mut kept);
    mark_owners(attempt.tried.bytes, total, &mut kept);
    put_marks(&kept, total, out);
    true
}

/// Tells whether all entries of both parts together are contained in the service, and which of those that are tried are left, where each of a kind
/// other than 5 is left out in turn, from the last to the first, if what is left still is. For n entries that are tried it writes n bytes from the
/// start of the output: 1 for each that is left, and for its owners, else 0. Where they are not contained, all are 0. Later bytes stay.
///
/// Refused where the output has fewer than n bytes; nothing is written then.
pub fn mark_left(attempt: Attempt<'_>, out: &mut [u8]) -> Result<bool, Refusal>
    ensures { (result ≡ leaving_of attempt.entry.service.pairs.now attempt.entry.stays.bytes.now attempt.entry.tried.bytes.now attempt.entry.service.d.now out.old)
        × (out.new ≡ left_of attempt.entry.service.pairs.now attempt.entry.stays.bytes.now attempt.entry.tried.bytes.now attempt.entry.service.d.now out.old) }
{
    let total = attempt.tried.total;
    if out.len() < total {
        return Err(Refusal {
            cause: Cause::Room,
            input: 0,
            place: 0,
        });
    }
    Ok(mark(attempt, out))
}
