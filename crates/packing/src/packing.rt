// The number of 64 bits that stands for an answer.
ghost use Rattle.std.specs.Prelude.{◌≡◌};
ghost use Rattle.packing.specs.Packing.{pack_adds, pack_comparison, pack_counted, pack_fit, pack_lack, pack_reading, pack_refusal, packed};

use blocks::Refusal;
use compare::NotContained;
use fit::Counted;
use missing::Lack;

// Four fields as one number: bits 0 to 7, 8 to 15, 16 to 31, and those from 32 up. What is answered and refused is told
// by numbers here alone, since C reads them.
fn pack(answer: u8, number: u8, first: u16, second: u16) -> u64
    ensures { result ≡ packed answer number first second }
{
    u64::from(answer)
        + 256 * u64::from(number)
        + 65536 * u64::from(first)
        + 4294967296 * u64::from(second)
}

// A refusal: its number in the table of refusals, the input and the place.
fn pack_refusal(refusal: Refusal) -> u64
    ensures { result ≡ pack_refusal refusal }
{
    pack(0, refusal.cause.number(), refusal.input, refusal.place)
}

// What reading, unfolding, normalising and the call on a catalogue answer: the entries read, the entries written, or the bytes filled; or
// the refusal.
pub fn pack_reading(answer: Result<u16, Refusal>) -> u64
    ensures { result ≡ pack_reading answer }
{
    match answer {
        Ok(count) => pack(1, 0, 0, count),
        Err(refusal) => pack_refusal(refusal),
    }
}

// A fit answer with its counts of additions, in the walk and in making the table; or the refusal.
fn pack_adds(answer: Result<bool, Refusal>, walk: u16, table: u16) -> u64
    ensures { result ≡ pack_adds answer walk table }
{
    match answer {
        Ok(true) => pack(1, 0, walk, table),
        Ok(false) => pack(2, 0, walk, table),
        Err(refusal) => pack_refusal(refusal),
    }
}

// The fit answer: yes, no, or the refusal.
pub fn pack_fit(answer: Result<bool, Refusal>) -> u64
    ensures { result ≡ pack_fit answer }
{
    pack_adds(answer, 0, 0)
}

// The fit answer with its counts: yes or no, with the additions; or the refusal.
pub fn pack_counted(counted: Counted) -> u64
    ensures { result ≡ pack_counted counted }
{
    pack_adds(counted.answer, counted.walk, counted.table)
}

// What comparing answers: contained; not contained, with the entry that fails and the entries of the specimen; or the refusal.
pub fn pack_comparison(answer: Result<Option<NotContained>, Refusal>) -> u64
    ensures { result ≡ pack_comparison answer }
{
    match answer {
        Ok(None) => pack(1, 0, 0, 0),
        Ok(Some(shown)) => pack(2, 0, shown.entry, shown.entries),
        Err(refusal) => pack_refusal(refusal),
    }
}

// What a description lacks: nothing, what is to be added, or that no item fits both; or the refusal.
pub fn pack_lack(answer: Result<Lack, Refusal>) -> u64
    ensures { result ≡ pack_lack answer }
{
    match answer {
        Ok(Lack::Nothing) => pack(1, 0, 0, 0),
        Ok(Lack::Addable) => pack(2, 0, 0, 0),
        Ok(Lack::Against) => pack(3, 0, 0, 0),
        Err(refusal) => pack_refusal(refusal),
    }
}
