// Entries read by number straight from the lent blocks.
ghost use Rattle.std.specs.Prelude.{◌≡◌, ◌+◌, ◌-◌, ◌*◌, ◌/◌, ◌^◌, ◌<◌, ◌≤◌, length, take, drop, MatchOption};
ghost use Rattle.base.specs.Links.{is_single};
ghost use Rattle.blocks.specs.Frame.{plain, entry_pos};
ghost use Rattle.blocks.specs.Entries.{entry_from, entry_of, packed};

use crate::sizes::{BLOCK, ENTRIES, ENTRY, FIRST_SINGLE};
use crate::words::{byte, word};
use crate::{Entry, Link, Property};

impl Entry {
    // The name of an entry of kind 1 or 2, as a property.
    pub fn property(self) -> Property
        ensures { result.0 ≡ self.name }
    {
        Property(self.name)
    }

    // The name of an entry of kind 3, 4, 5 or 7, as a link.
    pub fn link(self) -> Link
        ensures { result.0 ≡ self.name }
    {
        Link(self.name)
    }
}

impl Link {
    // Whether it leads to one item only.
    #[inline(always)]
    pub fn is_single(self) -> bool
        ensures { result ≡ is_single self.0 }
    {
        FIRST_SINGLE <= self.0
    }
}

// The index of the first byte of entry n, counted from 1, which lies in the block of that entry.
#[tactic(auto, unfolding(crate::specs::Frame::entry_pos))]
fn entry_pos(n: usize) -> usize
    requires { (1 ≤ n) × (n ≤ 2 ^ 60 + 1) }
    ensures { (result ≡ entry_pos plain n) × (result + 12 ≤ BLOCK * ((n + ENTRIES - 1) / ENTRIES)) }
{
    BLOCK * ((n - 1) / ENTRIES) + 4 + ENTRY * ((n - 1) % ENTRIES)
}

// The bytes of an entry that start at an index, if all are there.
fn bytes_at(s: &[u8], at: usize) -> Option<&[u8; 8]>
    ensures { MatchOption result (length s.now < at + 8) (λ bytes. bytes.now ≡ take 8 (drop at s.now)) }
{
    s.get(at..)?.first_chunk::<8>()
}

// The entry whose bytes start at an index, where some may lie past the end and read 0. Field by field: an array of its bytes for `Entry::from`,
// listed or made by `from_fn`, says no more.
fn entry_near_end(s: &[u8], at: usize) -> Entry
    requires { at + 8 ≤ 2 ^ 64 }
    ensures { result ≡ entry_from s.now at }
{
    Entry {
        kind: byte(s, at),
        reserved: byte(s, at + 1),
        owner: word(s, at + 2),
        name: word(s, at + 4),
        number: word(s, at + 6),
    }
}

// Entry n of blocks that have `total` entries: the zero entry where n is 0 or above the total. A byte past the end reads 0.
pub fn nth_entry(s: &[u8], total: usize, n: usize) -> Entry
    ensures { result ≡ entry_of s.now total n }
{
    if n == 0 || total < n || s.len() / 8 + 1 < n {
        return Entry::default();
    }
    let at = entry_pos(n);
    match bytes_at(s, at) {
        Some(bytes) => Entry::from(bytes),
        None => entry_near_end(s, at),
    }
}

// An entry as one number: its 8 bytes, low byte first. No `From`: it is public, and what it promises is its name in contracts.
#[tactic(auto, unfolding(crate::specs::Entries::packed))]
pub fn pack(e: Entry) -> u64
    ensures { result ≡ packed e }
{
    u64::from(e.kind)
        + 256 * u64::from(e.reserved)
        + 65536 * u64::from(e.owner)
        + 4294967296 * u64::from(e.name)
        + 281474976710656 * u64::from(e.number)
}
