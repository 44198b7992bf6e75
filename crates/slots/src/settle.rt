// The second pass: the slots, last to first. A place is impossible where one of its slots is; a link to an impossible place has at most 0;
// and a place is not empty where one of its slots asks something. All slots of a place stand after it, so one pass is enough.
ghost use Rattle.std.specs.Prelude.{◌≡◌, not, cond, ◌&&◌, ◌||◌, ◌/◌, ◌%◌, ◌≤◌, ◌<◌, ℕ, eqb, length, get_or, set};
ghost use Rattle.logic.specs.Normal.{found};
ghost use Rattle.passes.specs.code.Slots.{broken};
ghost use Rattle.slots.specs.code.Tables.{key_in, high_in, Blank, Placed, Settling, Slotted};

use crate::slots::{NO_BOUND, high_in, key_in, low_in, make_slot};

// The place where a slot stands.
pub(crate) fn place_in(x: u64) -> usize
    ensures { result ≡ key_in x / 131072 }
{
    (key_in(x) / 131072) as usize
}

// Whether a slot's name is a link's.
pub(crate) fn link_in(x: u64) -> bool
    ensures { result ≡ eqb (key_in x / 65536 % 2) 1 }
{
    key_in(x) / 65536 % 2 == 1
}

// The upper bound of a slot: closed, at most 0, where it is a link's and the place below it is impossible.
fn closed(link: bool, bad: u8, hi: u64) -> u64
    ensures { (result ≡ cond (link && not (eqb bad 0)) 0 hi) × (result ≤ hi) }
{
    if link && bad != 0 { 0 } else { hi }
}

// Whether nothing meets a slot of these bounds. Here and in `asks` no jump is taken, by `&` and `|`: slots come in any order of classes and bounds, and
// a jump would be guessed wrong.
fn is_broken(link: bool, lo: u64, hi: u64) -> bool
    ensures { result ≡ broken link lo (high_in hi) }
{
    let below = if link { hi < lo } else { lo != 0 };
    (hi < NO_BOUND) & below
}

// Whether a slot of these bounds asks something, by itself or by a place below it that is not empty.
fn asks(link: bool, lo: u64, hi: u64, full: u8) -> bool
    ensures { result ≡ not (eqb lo 0) || (found (high_in hi) || (link && not (eqb full 0))) }
{
    (lo != 0) | ((hi < NO_BOUND) | (link & (full != 0)))
}

// Marks place v where the test holds. The mark is stored either way, for the same reason. A mark is a byte, 1 or 0.
fn mark(marks: &mut [u8], v: usize, test: bool)
    requires { (v < length marks.old) × (get_or marks.old v 0 ≤ 1) }
    ensures { marks.new ≡ cond test (set marks.old v 1) marks.old }
{
    marks[v] |= u8::from(test);
}

// Settles slot s, where the slots above it are settled.
fn settle_slot(table: &mut [u64], bad: &mut [u8], full: &mut [u8], s: usize)
    requires { (s < length table.old) × (s < length bad.old) × (s < length full.old) × (key_in (get_or table.old s 0) / 131072 < s)
        × ((v : ℕ) → get_or bad.old v 0 ≤ 1) × ((v : ℕ) → get_or full.old v 0 ≤ 1) }
    ensures { Slotted table.old bad.old full.old s table.new bad.new full.new }
{
    let x = table[s];
    let v = place_in(x);
    let link = link_in(x);
    let lo = low_in(x);
    let was_bad = bad[s];
    let was_full = full[s];
    let hi = closed(link, was_bad, high_in(x));
    table[s] = make_slot(key_in(x), lo, hi);
    mark(bad, v, is_broken(link, lo, hi));
    mark(full, v, asks(link, lo, hi, was_full));
}

// Settles all slots. The tables come apart, since each is lent for itself.
pub(crate) fn settle(table: &mut [u64], bad: &mut [u8], full: &mut [u8], used: usize)
    requires { (used < length table.old) × Placed table.old used × Blank used bad.old × Blank used full.old }
    ensures { Settling table.old used 0 table.new bad.new full.new }
{
    for s in (1..used + 1).rev() {
        settle_slot(table, bad, full, s);
    }
}
