// The parts of a list: the length of the first, and each in turn.
ghost use Rattle.std.specs.Prelude.{◌≡◌, ◌≤◌, ℕ, List, length};
ghost use Rattle.std.specs.Iterator.{item_count, YieldsFirstRef};
ghost use Rattle.lists.specs.Parts.{first_length, parts_of};

use blocks::sizes::BLOCK;
use std::marker::Model;

// The length of the first description: the offset of the first later whole block with number 1, which begins the second one; with no
// such block, the whole length. Later means not the block at offset 0, whole that all its bytes are there.
pub fn part_length(s: &[u8]) -> usize
    ensures { (result ≡ first_length s.now) × (result ≤ length s.now) }
{
    let n = s.len() / BLOCK;
    (1..n)
        .find(|i| blocks::word(s, BLOCK * *i) == 1)
        .map_or(s.len(), |i| BLOCK * i)
}

// The descriptions of a list that are left, each as its bytes.
#[derive(Drop)]
pub struct Parts<'a> {
    rest: &'a [u8],
}

impl<'a> Model for Parts<'a> {
    ghost Value = { List (List ℕ) };

    ghost view = { λ p. parts_of p.rest.now };
}

impl<'a> Iterator for Parts<'a> {
    type Item = &'a [u8];

    ghost next_gives = { YieldsFirstRef (λ parts. parts) };

    ghost remaining = { item_count (λ parts. parts) };

    // The first of what is left, which is then left no more.
    fn next(&mut self) -> Option<&'a [u8]> {
        let rest = self.rest;
        if rest.is_empty() {
            return None;
        }
        let n = part_length(rest);
        self.rest = &rest[n..];
        Some(&rest[..n])
    }
}

impl<'a> Parts<'a> {
    // The descriptions of a list, in turn.
    pub fn of(list: &'a [u8]) -> Parts<'a>
        ensures { result ≡ parts_of list.now }
    {
        Parts { rest: list }
    }
}

// How many descriptions there are: each offset passed on the way to the end begins one. Of no bytes, none.
pub fn parts_in(s: &[u8]) -> usize
    ensures { result ≡ length (parts_of s.now) }
{
    Parts::of(s).count()
}
