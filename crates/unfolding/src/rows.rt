// Entries in a lent table, each as one number of its 8 bytes, as they are packed for writing.
ghost use Rattle.std.specs.Prelude.{◌≡◌, ◌++◌, ◌∷◌, [], ◌≤◌, ◌<◌, List, drop, get_or, length, map, take};
ghost use Rattle.std.specs.List.{list_any};
ghost use Rattle.blocks.specs.Entries.{is_named, zero_entry};
ghost use Rattle.blocks.specs.declared.Entry.{Entry};
ghost use Rattle.unfolding.specs.code.Rows.{entries_in, entry_of_row};

use blocks::{Entry, kinds, pack};
use std::marker::Model;

// A table of at most 1,136 entries, which a contract sees as their list: 1,008 for what is written, and as many as are opened at once. It is no
// ArrayVec of the kit, since its model is the entries that the numbers stand for, of which the contracts speak.
#[derive(Drop)]
pub(crate) struct Rows {
    pub(crate) numbers: [u64; 1136],
    pub(crate) len: usize,
}

impl Model for Rows {
    ghost Value = { List Entry };

    ghost view = { λ r. entries_in r.numbers r.len };

    ghost invariant = { λ r. r.len ≤ 1136 };
}

impl Rows {
    // A table of no entries.
    pub(crate) fn new() -> Rows
        ensures { result ≡ [] }
    {
        Rows {
            numbers: [0; 1136],
            len: 0,
        }
    }

    // How many entries it has.
    pub(crate) fn len(&self) -> usize
        ensures { (result ≡ length self.now) × (result ≤ 1136) }
    {
        self.len
    }

    // Its entries, each as a number.
    pub(crate) fn numbers(&self) -> &[u64]
        ensures { (map entry_of_row result.now ≡ self.now) × (length result.now ≤ 1136) }
    {
        &self.numbers[..self.len]
    }

    // Entry i, counted from 0.
    pub(crate) fn at(&self, i: usize) -> Entry
        requires { i < length self.now }
        ensures { result ≡ get_or self.now i zero_entry }
    {
        entry_of_row(self.numbers()[i])
    }

    // Whether a name stands after the first m entries.
    pub(crate) fn has_names_after(&self, m: usize) -> bool
        requires { m ≤ length self.now }
        ensures { result ≡ list_any is_named (drop m self.now) }
    {
        self.numbers()[m..]
            .iter()
            .any(|x| entry_of_row(*x).kind == kinds::NAME)
    }

    // Leaves the first m entries.
    pub(crate) fn truncate(&mut self, m: usize)
        requires { m ≤ length self.old }
        ensures { self.new ≡ take m self.old }
    {
        self.len = m;
    }

    // Puts in one entry more.
    pub(crate) fn push(&mut self, e: Entry)
        requires { length self.old < 1136 }
        ensures { self.new ≡ self.old ++ e ∷ [] }
    {
        self.numbers[self.len] = pack(e);
        self.len += 1;
    }
}

// The entry of a number. No `From<u64>`: Entry is a type of `blocks`, and only a row here is a number whose bytes are an entry's.
pub fn entry_of_row(x: u64) -> Entry
    ensures { result ≡ entry_of_row x }
{
    Entry::from(&x.to_le_bytes())
}
