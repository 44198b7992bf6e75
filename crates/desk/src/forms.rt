// The forms of entries that stand one after the other, number 4 of the table of refusals, all of them together.
ghost use Rattle.std.specs.Prelude.{◌≡◌, [], get_or, length};
ghost use Rattle.base.specs.Range.{all};
ghost use Rattle.blocks.specs.Entries.{entry_from, form_ok};
ghost use Rattle.blocks.specs.declared.Schema.{Schema};

// What the words of kind and zero byte, and of the name, are multiplied by where they stand.
const ABOVE: u32 = 65536;

// Whether 8 bytes are an entry of a form that the table of kinds has, by halves of 4 bytes: kind and zero byte are one
// word, and so is the name, each moved above 16 zero bits, so that what stood above it goes. By `&` and `|` no jump is
// taken, and the loop over entries is compiled to one over eight at a step; by words or bytes it gathers them one by one.
#[inline(always)]
fn form_ok(bytes: &[u8; 8]) -> bool
    ensures { result ≡ form_ok Schema.Description (entry_from bytes.now 0) }
{
    let halves = bytes.as_chunks::<4>().0;
    let head = u32::from_le_bytes(halves[0]);
    let tail = u32::from_le_bytes(halves[1]);
    let sort = head.wrapping_mul(ABOVE);
    let name = tail.wrapping_mul(ABOVE);
    let named = ((sort != 6 * ABOVE) | (name == 0)) & ((sort == 6 * ABOVE) | (name != 0));
    let numbered = (sort == 3 * ABOVE) | ((sort == 4 * ABOVE) | (tail < ABOVE));
    ((0 < sort) & (sort <= 6 * ABOVE)) & (named & numbered)
}

// Whether all entries have such forms. All are looked at, as in a desk that is right anyhow.
pub(crate) fn forms_ok(rows: &[[u8; 8]]) -> bool
    ensures { result ≡ all (λ k. form_ok Schema.Description (entry_from (get_or rows.now k []) 0)) 0 (length rows.now) }
{
    let mut wrong = false;
    for bytes in rows {
        wrong |= !form_ok(bytes);
    }
    !wrong
}
