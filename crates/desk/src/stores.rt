// Stores in lent memory.
ghost use Rattle.std.specs.Prelude.{◌≡◌, ◌+◌, ◌≤◌, length};
ghost use Rattle.base.specs.Stores.{stored};
ghost use Rattle.blocks.specs.Entries.{entry_bytes};
ghost use Rattle.blocks.specs.Words.{word_bytes};

use blocks::Entry;

// Stores bytes from an index on.
fn put(memory: &mut [u8], at: usize, bytes: &[u8])
    requires { at + length bytes.now ≤ length memory.old }
    ensures { memory.new ≡ stored memory.old at bytes.now }
{
    memory[at..at + bytes.len()].copy_from_slice(bytes);
}

// Stores a word, low byte first.
pub(crate) fn put_word(memory: &mut [u8], at: usize, x: u16)
    requires { at + 2 ≤ length memory.old }
    ensures { memory.new ≡ stored memory.old at (word_bytes x) }
{
    put(memory, at, &x.to_le_bytes());
}

// Stores an entry.
pub(crate) fn put_entry(memory: &mut [u8], at: usize, e: Entry)
    requires { at + 8 ≤ length memory.old }
    ensures { memory.new ≡ stored memory.old at (entry_bytes e) }
{
    put(memory, at, &[e.kind, e.reserved]);
    put_word(memory, at + 2, e.owner);
    put_word(memory, at + 4, e.name);
    put_word(memory, at + 6, e.number);
}
