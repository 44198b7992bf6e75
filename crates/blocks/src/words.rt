// Bytes and words of a slice, and the two sums that check a block.
ghost use Rattle.std.specs.Prelude.{◌≡◌, ◌+◌, ◌*◌, ◌%◌, ◌<◌, ◌≤◌, length, take, drop, slice_index};
ghost use Rattle.base.specs.Range.{sum};
ghost use Rattle.blocks.specs.Words.{check_of, second_of, word_at};
ghost use Rattle.blocks.specs.code.WordPairs.{pair, weighted_pair};

use crate::sizes::BLOCK;

// The byte at an index; 0 past the end.
pub fn byte(s: &[u8], at: usize) -> u8
    ensures { result ≡ slice_index s.now at }
{
    s.get(at).copied().unwrap_or(0)
}

// The word of two bytes at an index, low byte first; bytes past the end read 0.
#[tactic(auto, unfolding(crate::specs::Words::word_at))]
pub fn word(s: &[u8], at: usize) -> u16
    ensures { result ≡ word_at s.now at }
{
    if s.len() <= at {
        return 0;
    }
    word_of_bytes(byte(s, at), byte(s, at + 1))
}

// The word of two bytes, low byte first. One line of std, which is public and so stays: pairs reads its numbers by it.
pub fn word_of_bytes(low: u8, high: u8) -> u16
    ensures { result ≡ low + 256 * high }
{
    u16::from_le_bytes([low, high])
}

// The bytes from an index on, at most so many, of those that are there.
fn part(s: &[u8], at: usize, most: usize) -> &[u8]
    ensures bytes { result.now ≡ take most (drop at s.now) }
    ensures few { length result.now ≤ most }
{
    let rest = &s[at.min(s.len())..];
    &rest[..most.min(rest.len())]
}

// Words added: [B7] the sum wraps.
#[tactic(auto, unfolding(base::specs::Range::sum))]
fn sum_words(words: &[[u8; 2]]) -> u16
    ensures { result ≡ sum (pair words.now) (length words.now) % 65536 }
{
    let mut acc: u16 = 0;
    for bytes in words {
        acc = acc.wrapping_add(u16::from_le_bytes(*bytes));
    }
    acc
}

// The words of some bytes added, at most 255. The half word after them, if there is one, is a word whose second byte is 0.
#[inline(always)]
fn sum_bytes(bytes: &[u8]) -> u16
    requires { length bytes.now ≤ 510 }
    ensures { result ≡ check_of bytes.now 0 }
{
    let (words, half) = bytes.as_chunks::<2>();
    sum_words(words).wrapping_add(u16::from(byte(half, 0)))
}

// The check of block i, counted from 0: its first 255 words added, wrapping at 65,536. Bytes past the end count as 0. Where all are there the
// sum is compiled for their number.
pub fn block_check(s: &[u8], i: u16) -> u16
    ensures { result ≡ check_of s.now (BLOCK * i) }
{
    let at = BLOCK * usize::from(i);
    match s.get(at..at + 510) {
        Some(whole) => sum_bytes(whole),
        None => sum_bytes(part(s, at, 510)),
    }
}

// Words, each times its number, counted from 1, and added.
#[tactic(auto, unfolding(base::specs::Range::sum))]
fn weigh_words(words: &[[u8; 2]]) -> u16
    requires { length words.now ≤ 254 }
    ensures { result ≡ sum (weighted_pair words.now) (length words.now) % 65536 }
{
    let mut acc: u16 = 0;
    for (k, bytes) in words.iter().enumerate() {
        acc = acc.wrapping_add((k as u16 + 1).wrapping_mul(u16::from_le_bytes(*bytes)));
    }
    acc
}

// The words of some bytes, at most 254, each times its number, and added, with the half word as above.
#[inline(always)]
fn weigh_bytes(bytes: &[u8]) -> u16
    requires { length bytes.now ≤ 508 }
    ensures { result ≡ second_of bytes.now 0 }
{
    let (words, half) = bytes.as_chunks::<2>();
    let number = words.len() as u16 + 1;
    weigh_words(words).wrapping_add(number.wrapping_mul(u16::from(byte(half, 0))))
}

// The second sum of block i, counted from 0: its first 254 words, each times its number. Bytes past the end count as 0, as above. One function for
// both would be handed the sum and the number of bytes, which is all that is here.
pub fn block_second(s: &[u8], i: u16) -> u16
    ensures { result ≡ second_of s.now (BLOCK * i) }
{
    let at = BLOCK * usize::from(i);
    match s.get(at..at + 508) {
        Some(whole) => weigh_bytes(whole),
        None => weigh_bytes(part(s, at, 508)),
    }
}
