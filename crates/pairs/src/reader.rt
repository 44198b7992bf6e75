// Reading a list of pairs: number 11 by its length, then pair by pair.
ghost use Rattle.std.specs.Prelude.{◌≡◌, ◌<◌, ◌≤◌};
ghost use Rattle.blocks.specs.Refusals.{refusal};
ghost use Rattle.pairs.specs.Pairs.{pair_count, pair_wrong, pairs_reading};
ghost use Rattle.pairs.specs.code.Search.{Finds, pair_right};

use crate::list::named_at;
use blocks::{Cause, Refusal};

// Whether pair i has a 0 or two equal numbers.
fn pair_wrong(pairs: &[u8], i: usize) -> bool
    requires { (1 ≤ i) × (i ≤ pair_count pairs.now) × (i ≤ 64) }
    ensures { result ≡ pair_wrong pairs.now i }
{
    let a = named_at(pairs, 2 * i - 1).0;
    let b = named_at(pairs, 2 * i).0;
    a == 0 || b == 0 || a == b
}

// The lowest of n pairs that is wrong.
fn first_wrong(pairs: &[u8], n: usize) -> Option<usize>
    requires { (n ≤ pair_count pairs.now) × (n ≤ 64) }
    ensures { Finds (pair_right pairs.now) n result }
{
    (1..n + 1).find(|i| pair_wrong(pairs, *i))
}

// The refusal by number 11, whose input is 0, at a place.
fn wrong_at(place: u16) -> Refusal
    ensures { result ≡ refusal Cause.Pairs 0 place }
{
    Refusal {
        cause: Cause::Pairs,
        input: 0,
        place,
    }
}

// Reads a list of pairs: how many there are, or the refusal by number 11, whose input is 0.
pub fn read_pairs(pairs: &[u8]) -> Result<u16, Refusal>
    ensures { result ≡ pairs_reading pairs.now }
{
    let n = pairs.len() / 4;
    if pairs.len() % 4 != 0 {
        return Err(wrong_at(0));
    }
    if 64 < n {
        return Err(wrong_at(0));
    }
    match first_wrong(pairs, n) {
        Some(i) => Err(wrong_at(i as u16)),
        None => Ok(n as u16),
    }
}
