// Keys entered one after another, which numbers them from 1 on, and found again by at most 33 looks, whatever keys were chosen.
ghost use Rattle.std.specs.Prelude.{◌≡◌, ◌≤◌, ◌<◌, ℕ, List, [], length, take};
ghost use Rattle.base.specs.Keys.{number_in, numbered, with_key};
ghost use Rattle.base.specs.Ways.{Ends, by_product};
ghost use Rattle.firsts.specs.code.Held.{Held, Sound, room_of};

use std::marker::Model;

// How many keys there is room for.
#[tactic(auto, unfolding(crate::specs::code::Held::room_of))]
fn room<const MOST: usize, const CELLS: usize, const KEYS: usize>() -> usize
    ensures { result ≡ room_of MOST CELLS KEYS }
{
    if MOST == 0 || 65536 < CELLS {
        return 0;
    }
    KEYS.min(CELLS.saturating_sub(MOST).saturating_sub(2) / 2)
}

// The cell where the search for a key begins. Keys come in rows, which the product scatters.
fn start_of<const MOST: usize>(key: u32) -> usize
    requires { 0 < MOST }
    ensures { result ≡ (by_product MOST).start key }
{
    ((2654435769 * u64::from(key) / 1048576) as usize) & (MOST - 1)
}

// The cell where the search for a key ends, among so many keys: that of its number, or the free one where this is to stand. Two
// keys part at the first bit in which they differ. After all bits there is no look: a number that is met there has the same ones,
// which is the same key. The table comes in its parts: a struct whose contracts speak of a list has
// no fields in a clause.
fn cell_for<const MOST: usize, const CELLS: usize>(
    cells: &[u16; CELLS],
    keys: &[u32],
    used: usize,
    key: u32,
) -> usize
    requires { Sound keys.now cells.now MOST used }
    ensures { Ends (numbered (take used keys.now)) cells.now (by_product MOST) 32 key result × (result < length cells.now) }
{
    let mut c = start_of::<MOST>(key);
    for bit in 0..u32::BITS {
        let n = usize::from(cells[c]);
        if n == 0 || keys[n - 1] == key {
            return c;
        }
        c = MOST + 2 * n + (key >> bit) as usize % 2;
    }
    c
}

/// A table of keys, no two alike, seen as their list: the first one entered has number 1. `MOST` is the number of cells where
/// searches begin, best a power of two up to 4,096, as many as keys are expected or more. There is room for `KEYS` keys where `CELLS` is
/// `MOST + 2 * KEYS + 2` or more and at most 65,536; for fewer or none where it is not.
#[derive(Drop)]
pub struct Firsts<const MOST: usize, const CELLS: usize, const KEYS: usize> {
    cells: [u16; CELLS],
    keys: [u32; KEYS],
    used: usize,
}

impl<const MOST: usize, const CELLS: usize, const KEYS: usize> Model for Firsts<MOST, CELLS, KEYS> {
    ghost use Rattle.std.specs.Prelude.{ℕ, List, take};
    ghost use Rattle.firsts.specs.code.Held.{Held, room_of};

    ghost Value = { List ℕ };

    ghost view = { λ f. take f.used f.keys };

    ghost invariant = { λ f. Held f.keys f.cells MOST (room_of MOST CELLS KEYS) f.used };
}

impl<const MOST: usize, const CELLS: usize, const KEYS: usize> Firsts<MOST, CELLS, KEYS> {
    /// A table with no keys.
    pub fn new() -> Self
        ensures { result ≡ [] }
    {
        Firsts {
            cells: [0; CELLS],
            keys: [0; KEYS],
            used: 0,
        }
    }

    /// The number of a key, if it is there.
    pub fn search(&self, key: u32) -> Option<usize>
        ensures { result ≡ number_in self.now key }
    {
        let used = self.used;
        if room::<MOST, CELLS, KEYS>() == 0 {
            return None;
        }
        let c = cell_for::<MOST, CELLS>(&self.cells, &self.keys, used, key);
        let n = usize::from(self.cells[c]);
        (n != 0).then_some(n)
    }

    /// The number of a key, if it is there. If it is not, it is entered behind the others; but a table that is full stays as it is.
    pub fn enter(&mut self, key: u32) -> Option<usize>
        ensures { (result ≡ number_in self.old key) × (self.new ≡ with_key (room_of MOST CELLS KEYS) self.old key) }
    {
        let used = self.used;
        let room = room::<MOST, CELLS, KEYS>();
        if room == 0 {
            return None;
        }
        let c = cell_for::<MOST, CELLS>(&self.cells, &self.keys, used, key);
        let n = usize::from(self.cells[c]);
        if n != 0 {
            return Some(n);
        }
        if used < room {
            self.keys[used] = key;
            self.used = used + 1;
            self.cells[c] = (used + 1) as u16;
        }
        None
    }
}
