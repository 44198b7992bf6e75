// Sets of items as marks, one for each of the 256 that a record may have, and what the entries of a description leave of them.
ghost use Rattle.std.specs.Prelude.{◌≡◌, ◌/◌, ◌%◌, ◌&&◌, ◌<◌, ℕ, ◌≤◌, eqb, false, get_or, leb, length, not};
ghost use Rattle.base.specs.Range.{bit};
ghost use Rattle.items.specs.code.Facts.{Alike, degree_in, has_in, linked_in, leads_out};

// The item that a fact is about.
fn item_of(fact: u64) -> u8
    ensures { result ≡ fact / 256 % 256 }
{
    (fact / 256 % 256) as u8
}

// The item that a fact links to.
fn target_of(fact: u64) -> u8
    ensures { result ≡ fact % 256 }
{
    (fact % 256) as u8
}

// Leaves the items that some fact is about.
pub(crate) fn keep_having(facts: &[u64], marks: &mut [bool; 256])
    ensures { (x : ℕ) → x < 256 → get_or marks.new x false ≡ (get_or marks.old x false && has_in facts.now x) }
{
    let mut having = [false; 256];
    for fact in facts {
        having[usize::from(item_of(*fact))] = true;
    }
    for x in 0..256 {
        marks[x] = marks[x] & having[x];
    }
}

// Leaves the items that no fact is about.
pub(crate) fn keep_lacking(facts: &[u64], marks: &mut [bool; 256])
    ensures { (x : ℕ) → x < 256 → get_or marks.new x false ≡ (get_or marks.old x false && not (has_in facts.now x)) }
{
    for fact in facts {
        marks[usize::from(item_of(*fact))] = false;
    }
}

// 1 where a fact is not the one before it, else 0.
fn is_other(fact: u64, last: u64) -> u16
    ensures { (result ≡ bit (not (eqb fact last))) × (result ≤ 1) }
{
    u16::from(fact != last)
}

// How many different items each item is linked to.
pub(crate) fn count_targets(facts: &[u64], degrees: &mut [u16; 256])
    requires { Alike facts.now × ((x : ℕ) → x < 256 → get_or degrees.old x 0 ≡ 0) }
    ensures { (x : ℕ) → x < 256 → get_or degrees.new x 0 ≡ degree_in facts.now x }
{
    let mut last = u64::MAX;
    for fact in facts {
        degrees[usize::from(item_of(*fact))] += is_other(*fact, last);
        last = *fact;
    }
}

// Leaves the items of which each item that they are linked to is in a set.
pub(crate) fn keep_every(facts: &[u64], below: &[bool; 256], marks: &mut [bool; 256])
    ensures { (x : ℕ) → x < 256 → get_or marks.new x false ≡ (get_or marks.old x false && not (leads_out facts.now below.now x)) }
{
    for fact in facts {
        let x = usize::from(item_of(*fact));
        marks[x] = marks[x] & below[usize::from(target_of(*fact))];
    }
}
