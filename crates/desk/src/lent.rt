// The calls on counters and memory: thin ones, which lend the counters and the memory to a core that takes the counters by value.
ghost use Rattle.std.specs.Prelude.{◌≡◌};
ghost use Rattle.drafts.specs.Answer.{counters_after, desk_answer, memory_after, output_after, write_answer};

use crate::calls;
use blocks::Refusal;
use drafts::{Call, Desk};

/// Does what is asked of a desk, and returns how many entries are left: the counters that the core hands out are kept.
///
/// Refused as input 1, by the first that applies: counters and memory that no list of calls gives, or a memory below 40,320 bytes; then what
/// the call is refused for: adding to 1,008 entries, or an entry that a description may not have, at the place that it would have; taking off
/// where there is none; naming 0 or a fifth stand; going back to one that is not known, or dropping it. A refusal alters no counter and no byte.
pub fn act(desk: &mut Desk, memory: &mut [u8], call: Call) -> Result<u16, Refusal>
    ensures answer { result ≡ desk_answer desk.old memory.old call }
    ensures counters { desk.new ≡ counters_after desk.old memory.old call }
    ensures bytes { memory.new ≡ memory_after desk.old memory.old call }
{
    let left = calls::act(*desk, memory, call);
    *desk = left.desk;
    left.answer
}

/// Writes the description of a desk as blocks from the start of an output; later bytes stay. Returns how many entries these are. Refused, after
/// what is refused of any call, where the output is too short, and then nothing is written.
pub fn write_out(desk: &Desk, memory: &[u8], out: &mut [u8]) -> Result<u16, Refusal>
    ensures { (result ≡ write_answer desk.now memory.now out.old) × (out.new ≡ output_after desk.now memory.now out.old) }
{
    crate::writing_out::write_out(*desk, memory, out)
}
