// An input whose blocks are sound and whose entries are not judged yet: what a caller needs that has rules of its own for them.
ghost use Rattle.std.specs.Prelude.{◌≡◌, ◌≤◌, length, take, IfOk, IfErr};
ghost use Rattle.blocks.specs.Entries.{entries_of};
ghost use Rattle.blocks.specs.Faults.{first, frame_faults};
ghost use Rattle.blocks.specs.Frame.{plain, total_in};
ghost use Rattle.blocks.specs.Reading.{answer};
ghost use Rattle.blocks.specs.code.Blockwise.{Whole};
ghost use Rattle.clashes.specs.Promise.{apart_below};
ghost use Rattle.pairs.specs.code.Search.{Finds};

use crate::clash::clash_of_items;
use blocks::{Refusal, Schema};
use reading::read_blocks;

/// An input of 1 to 32 blocks, none of which is refused. It borrows the bytes, so that it can be handed on as it is.
#[derive(Clone, Copy)]
pub struct SoundBlocks<'a> {
    bytes: &'a [u8],
    total: usize,
    ghost counted: { total ≡ length (entries_of bytes.now) },
    ghost few: { total ≤ 2016 },
    ghost whole: { Whole bytes.now total },
}

impl<'a> SoundBlocks<'a> {
    /// Reads the blocks of an input as input number `input`, by numbers 1, 2 and 3.
    pub fn read(s: &'a [u8], input: u16) -> Result<Self, Refusal>
        ensures refused { IfErr result (λ x. answer input (total_in plain s.now) (first (frame_faults plain 32 s.now)) ≡ Err x) }
        ensures accepted { IfOk result (λ b. (answer input (total_in plain s.now) (first (frame_faults plain 32 s.now)) ≡ Ok b.total) × (b.bytes.now ≡ s.now)) }
    {
        let total = usize::from(read_blocks(s, Schema::Specimen, input)?);
        Ok(SoundBlocks { bytes: s, total })
    }

    /// The bytes that hold them.
    pub fn bytes(self) -> &'a [u8]
        ensures { result.now ≡ self.entry.bytes.now }
    {
        self.bytes
    }

    /// How many entries they have.
    pub fn total(self) -> usize
        ensures { result ≡ length (entries_of self.entry.bytes.now) }
    {
        self.total
    }

    /// The lowest entry that completes one of the first 64 pairs of a list, of the entries whose owners are up to 256, as items are.
    pub fn first_clash(self, pairs: &[u8]) -> Option<usize>
        ensures { Finds (apart_below 257 (take 259 pairs.now) (entries_of self.entry.bytes.now)) (length (entries_of self.entry.bytes.now)) result }
    {
        clash_of_items(pairs, self.bytes, self.total)
    }
}
