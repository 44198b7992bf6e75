// The run and the name of a slot, and its tag, which holds the name above the slot's own number.
ghost use Rattle.std.specs.Prelude.{◌≡◌, ◌/◌, ◌%◌, ◌<◌};
ghost use Rattle.runs.specs.code.Chained.{run_in, slot_name};
ghost use Rattle.runs.specs.code.Tagged.{tag_of};

use slots::key_in;

// The run of a slot.
pub(crate) fn run_in(x: u64) -> usize
    ensures { result ≡ run_in x }
{
    (key_in(x) / 65536) as usize
}

// The name of a slot.
pub(crate) fn name_in(x: u64) -> u64
    ensures { (result ≡ slot_name x) × (result < 65536) }
{
    key_in(x) % 65536
}

// The tag of slot s, which is the number x.
pub(crate) fn tag_of(x: u64, s: u16) -> u64
    ensures { result ≡ tag_of x s }
{
    1024 * name_in(x) + u64::from(s)
}

// The name that a tag holds.
pub fn tag_name(x: u64) -> u64
    ensures { result ≡ x / 1024 }
{
    x / 1024
}

// The slot that it holds.
pub fn tag_slot(x: u64) -> usize
    ensures { (result ≡ x % 1024) × (result < 1024) }
{
    (x % 1024) as usize
}
