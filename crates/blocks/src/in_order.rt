// The entries of an input, one after the other, for a pass over them: block by block and 8 bytes at a time, so that no entry costs a division, nor a
// test of whether its bytes are there.
ghost use Rattle.std.specs.Prelude.{◌≡◌, [], length};
ghost use Rattle.blocks.specs.Entries.{entry_from};
ghost use Rattle.blocks.specs.code.Blockwise.{entries_left, entries_there};

use crate::Entry;
use crate::sizes::{BLOCK, ENTRIES, ENTRY};

impl<'a> From<&'a [u8; 8]> for Entry {
    ghost from_gives = { λ bytes e. e ≡ entry_from bytes.now 0 };

    #[tactic(auto, unfolding(crate::specs::Entries::entry_from, crate::specs::Words::word_at))]
    fn from(bytes: &'a [u8; 8]) -> Entry {
        let [kind, reserved, o0, o1, n0, n1, m0, m1] = bytes;
        Entry {
            kind: *kind,
            reserved: *reserved,
            owner: u16::from_le_bytes([*o0, *o1]),
            name: u16::from_le_bytes([*n0, *n1]),
            number: u16::from_le_bytes([*m0, *m1]),
        }
    }
}

// The bytes of the entries left: those of the block begun, and then the first `left` of later blocks. It gives bytes and not entries, since an entry
// in an `Option` is put together before its fields are asked for, which costs a tenth of a pass that reads.
#[derive(Clone, Drop)]
pub struct InOrder<'a> {
    here: &'a [[u8; 8]],
    later: &'a [u8],
    left: usize,
}

// The first `total` entries of an input, in order. Those of a block that is not there whole are left out. Input and total are no struct that says
// what is known of both: that differs from caller to caller, all its entries, those before the one refused, or those of an input whose frames
// alone are read.
pub fn entries_in_order<'a>(s: &'a [u8], total: usize) -> InOrder<'a>
    ensures items { entries_left result.here.now result.later.now result.left ≡ entries_there s.now total }
    ensures none { length result.here.now ≡ 0 → entries_there s.now total ≡ [] }
{
    let Some((block, later)) = s.split_first_chunk::<BLOCK>() else {
        let (none, _) = s.split_at(0);
        return InOrder {
            here: none.as_chunks::<8>().0,
            later: s,
            left: 0,
        };
    };
    let count = total.min(ENTRIES);
    InOrder {
        here: block[4..4 + ENTRY * count].as_chunks::<8>().0,
        later,
        left: total - count,
    }
}

impl<'a> Iterator for InOrder<'a> {
    ghost use Rattle.std.specs.Iterator.{YieldsFirstBy, item_count};
    ghost use Rattle.blocks.specs.Entries.{entry_from};

    type Item = &'a [u8; 8];

    ghost next_gives = { YieldsFirstBy (λ b. entry_from b.now 0) (λ s. entries_left s.here.now s.later.now s.left) };

    ghost remaining = { item_count (λ s. entries_left s.here.now s.later.now s.left) };

    fn next(&mut self) -> Option<&'a [u8; 8]> {
        if self.here.is_empty() {
            *self = entries_in_order(self.later, self.left);
        }
        let (bytes, here) = self.here.split_first()?;
        self.here = here;
        Some(bytes)
    }
}
