// The frames of blocks whose entries have WIDTH bytes, ROOM of them to a block: which of them breaks number 2 or number 3 of the table.
ghost use Rattle.std.specs.Prelude.{◌≡◌, ◌+◌, ◌-◌, ◌*◌, ◌≤◌, ◌<◌, length};
ghost use Rattle.base.specs.Range.{all};
ghost use Rattle.blocks.specs.Frame.{framed, check_wrong, zero_at, used_ok, frame_wrong};
ghost use Rattle.blocks.specs.Faults.{block_faults, first};
ghost use Rattle.blocks.specs.Reading.{answer};
ghost use Rattle.blocks.specs.code.ReadingSteps.{block_refusal};

use blocks::sizes::BLOCK;
use blocks::{Cause, Refusal, block_check, block_second, word};

// Whether the bytes from one index up to another are zero. All of them are looked at, as in a block that is right
// anyhow, and `|=` takes no jump, so that the loop goes over many bytes at a step: with `all` it took ten times as long.
fn all_zero(s: &[u8], from: usize, to: usize) -> bool
    requires { (from ≤ to) × (to ≤ length s.now) }
    ensures { result ≡ all (zero_at s.now) from (to - from) }
{
    let mut found = false;
    for b in &s[from..to] {
        found |= *b != 0;
    }
    !found
}

// Whether block i of n, counted from 0, may use this many entries: all of its room, or fewer in the last, and none in the only one.
fn used_ok<const WIDTH: usize, const ROOM: usize>(n: usize, i: usize, used: usize) -> bool
    requires { i < n }
    ensures { result ≡ used_ok (framed WIDTH ROOM) n i used }
{
    if i + 1 < n {
        used == ROOM
    } else {
        used <= ROOM && (0 < used || n == 1)
    }
}

// Whether block i, counted from 0, breaks number 2: its check or its second sum is wrong.
fn check_wrong(s: &[u8], i: usize) -> bool
    requires { i ≤ 31 }
    ensures { result ≡ check_wrong s.now i }
{
    let at = BLOCK * i;
    if word(s, at + 510) != block_check(s, i as u16) {
        return true;
    }
    word(s, at + 508) != block_second(s, i as u16)
}

// Whether block i of n breaks number 3: its number, its used count, or a byte due to be zero is wrong.
fn frame_wrong<const WIDTH: usize, const ROOM: usize>(s: &[u8], n: usize, i: usize) -> bool
    requires { (WIDTH * ROOM ≡ 504) × (i < n) × (n ≤ 32) × (BLOCK * n ≤ length s.now) }
    ensures { result ≡ frame_wrong (framed WIDTH ROOM) s.now n i }
{
    let at = BLOCK * i;
    if usize::from(word(s, at)) != i + 1 {
        return true;
    }
    let used = usize::from(word(s, at + 2));
    if !used_ok::<WIDTH, ROOM>(n, i, used) {
        return true;
    }
    !all_zero(s, at + 4 + WIDTH * used, at + 508)
}

// Why block i of n is refused, 2 before 3, if it is.
fn block_refusal<const WIDTH: usize, const ROOM: usize>(
    s: &[u8],
    n: usize,
    i: usize,
) -> Option<Cause>
    requires { (WIDTH * ROOM ≡ 504) × (i < n) × (n ≤ 32) × (BLOCK * n ≤ length s.now) }
    ensures { result ≡ block_refusal (framed WIDTH ROOM) s.now n i }
{
    if check_wrong(s, i) {
        return Some(Cause::Check);
    }
    if frame_wrong::<WIDTH, ROOM>(s, n, i) {
        return Some(Cause::Framing);
    }
    None
}

// Refuses input `input` by the lowest of its n blocks that breaks number 2 or 3. It stands in each function that calls it: reading 1,008 entries takes a
// tenth less.
#[inline(always)]
pub(crate) fn check_frames<const WIDTH: usize, const ROOM: usize>(
    s: &[u8],
    n: usize,
    input: u16,
) -> Result<(), Refusal>
    requires { (WIDTH * ROOM ≡ 504) × (BLOCK * n ≤ length s.now) × (n ≤ 32) }
    ensures { result ≡ answer input tt (first (block_faults (framed WIDTH ROOM) s.now n 0 n)) }
{
    let mut i: usize = 0;
    loop {
        if n <= i {
            break Ok(());
        }
        if let Some(cause) = block_refusal::<WIDTH, ROOM>(s, n, i) {
            break Err(Refusal {
                cause,
                input,
                place: (i + 1) as u16,
            });
        }
        i += 1;
    }
}
