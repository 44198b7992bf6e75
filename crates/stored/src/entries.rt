// Entries of the stored form by number, straight from the lent blocks, and as numbers.
ghost use Rattle.std.specs.Prelude.{◌≡◌, ◌+◌, ◌≤◌, length};
ghost use Rattle.blocks.specs.Frame.{stored_frame, entry_pos};
ghost use Rattle.stored.specs.Stored.{owned_entry, stored_at, stored_packed};

use crate::StoredEntry;
use blocks::Entry;
use blocks::sizes::{BLOCK, STORED_ENTRIES, STORED_ENTRY};

// Entry n of an input, counted from 1, whose bytes are all there.
#[tactic(auto, unfolding(blocks::specs::Frame::entry_pos, blocks::specs::Words::word_at, crate::specs::Stored::stored_at, crate::specs::Stored::stored_from))]
pub(crate) fn stored_entry(s: &[u8], n: usize) -> StoredEntry
    requires { (1 ≤ n) × (n ≤ 1008) × (entry_pos stored_frame n + 6 ≤ length s.now) }
    ensures { result ≡ stored_at s.now n }
{
    let at = BLOCK * ((n - 1) / STORED_ENTRIES) + 4 + STORED_ENTRY * ((n - 1) % STORED_ENTRIES);
    let bytes = &s[at..at + STORED_ENTRY];
    StoredEntry {
        kind: bytes[0],
        depth: bytes[1],
        name: u16::from_le_bytes([bytes[2], bytes[3]]),
        number: u16::from_le_bytes([bytes[4], bytes[5]]),
    }
}

// It as one number: its 6 bytes, low byte first.
#[tactic(auto, unfolding(crate::specs::Stored::stored_packed))]
pub(crate) fn pack_stored(x: StoredEntry) -> u64
    ensures { result ≡ stored_packed x }
{
    u64::from(x.kind)
        + 256 * u64::from(x.depth)
        + 65536 * u64::from(x.name)
        + 4294967296 * u64::from(x.number)
}

// The entry of a description that it is, where entry `owner` owns it.
pub(crate) fn owned_entry(x: StoredEntry, owner: u16) -> Entry
    ensures { result ≡ owned_entry owner x }
{
    Entry {
        kind: x.kind,
        reserved: 0,
        owner,
        name: x.name,
        number: x.number,
    }
}
