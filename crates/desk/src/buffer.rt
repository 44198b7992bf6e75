// A desk in one buffer: its counters, as words, and then its memory.
ghost use Rattle.std.specs.Prelude.{◌≡◌, ◌*◌, ◌≤◌, length, map};
ghost use Rattle.base.specs.Stores.{stored};
ghost use Rattle.blocks.specs.Encoding.{joined};
ghost use Rattle.blocks.specs.Words.{word_bytes};
ghost use Rattle.drafts.specs.declared.Call.{Call};
ghost use Rattle.drafts.specs.Buffer.{after_at, answer_at, counter_bytes, counters_in, entry_numbered, output_at, write_at};

use crate::stores::put_word;
use blocks::{Cause, Entry, Refusal, word};
use drafts::{Call, Desk};

/// The bytes of a desk in one buffer: ten words, the number of entries, the number of stands, the numbers of four stands and the entries of each, and
/// then five areas of 1,008 entries. All zero is the empty desk.
pub const DESK_BYTES: usize = 40340;

// The bytes of the counters.
const COUNTERS: usize = 20;

// The counters of a desk in a buffer.
#[tactic(auto, unfolding(drafts::specs::Buffer::counters_in))]
fn counters_in(buffer: &[u8]) -> Desk
    ensures { result ≡ counters_in buffer.now }
{
    Desk {
        count: word(buffer, 0),
        stands: word(buffer, 2),
        names: [
            word(buffer, 4),
            word(buffer, 6),
            word(buffer, 8),
            word(buffer, 10),
        ],
        counts: [
            word(buffer, 12),
            word(buffer, 14),
            word(buffer, 16),
            word(buffer, 18),
        ],
    }
}

// Stores words one after the other, low byte first.
fn put_words(buffer: &mut [u8], words: &[u16])
    requires { 2 * length words.now ≤ length buffer.old }
    ensures { buffer.new ≡ stored buffer.old 0 (joined (map word_bytes words.now)) }
{
    for (j, x) in words.iter().enumerate() {
        put_word(buffer, 2 * j, *x);
    }
}

// Stores the counters at the start of a buffer.
#[tactic(auto, unfolding(drafts::specs::Buffer::counter_bytes))]
fn put_counters(desk: Desk, buffer: &mut [u8])
    requires { COUNTERS ≤ length buffer.old }
    ensures { buffer.new ≡ stored buffer.old 0 (counter_bytes desk) }
{
    let (names, counts) = (desk.names, desk.counts);
    let words = [
        desk.count,
        desk.stands,
        names[0],
        names[1],
        names[2],
        names[3],
        counts[0],
        counts[1],
        counts[2],
        counts[3],
    ];
    put_words(buffer, &words);
}

/// Does what is asked of the desk in a buffer, and returns how many entries are left. Refused as `act` on counters and memory is; a refusal alters no byte, and
/// bytes past the desk stay.
pub fn act(buffer: &mut [u8], call: Call) -> Result<u16, Refusal>
    ensures { (result ≡ answer_at buffer.old call) × (buffer.new ≡ after_at buffer.old call) }
{
    if buffer.len() < COUNTERS {
        return Err(Refusal {
            cause: Cause::Desk,
            input: 1,
            place: 0,
        });
    }
    let mut desk = counters_in(buffer);
    let left = crate::act(&mut desk, &mut buffer[COUNTERS..], call)?;
    put_counters(desk, buffer);
    Ok(left)
}

/// Writes the description of the desk in a buffer out, as the call on counters and memory does.
pub fn write_out(buffer: &[u8], out: &mut [u8]) -> Result<u16, Refusal>
    ensures { (result ≡ write_at buffer.now out.old) × (out.new ≡ output_at buffer.now out.old) }
{
    if buffer.len() < COUNTERS {
        return Err(Refusal {
            cause: Cause::Desk,
            input: 1,
            place: 0,
        });
    }
    crate::write_out(&counters_in(buffer), &buffer[COUNTERS..], out)
}

/// The entry of a number of 64 bits, which is its 8 bytes, low byte first.
pub fn entry_numbered(row: u64) -> Entry
    ensures { result ≡ entry_numbered row }
{
    Entry::from(&row.to_le_bytes())
}
