// Pairs as bits: of some properties, the pairs whose first is one of them, and those whose second is. A pair that a list repeats is one
// bit more and no further look, and whether one of them excludes a property is told by two words.
ghost use Rattle.std.specs.Prelude.{◌≡◌, ◌+◌, ◌*◌, ◌≤◌, Bool, List, ℕ, eqb};
ghost use Rattle.std.specs.Int.{bit_at};
ghost use Rattle.base.specs.Range.{bit};
ghost use Rattle.pairs.specs.code.Index.{beside_at, named_count};
ghost use Rattle.pairs.specs.code.Sides.{Marks, excluding, joined, no_sides};

/// Of at most 64 pairs, those whose first property is one of some, and those whose second is: bit i − 1 of each word for pair i.
#[derive(Clone, Copy)]
pub struct Sides {
    first: u64,
    second: u64,
}

impl Sides {
    /// Those of no property.
    pub fn none() -> Self
        ensures { result ≡ no_sides }
    {
        Sides {
            first: 0,
            second: 0,
        }
    }

    /// Those of the properties of both.
    pub fn join(self, other: Sides) -> Self
        ensures { result ≡ joined self other }
    {
        Sides {
            first: self.first | other.first,
            second: self.second | other.second,
        }
    }

    /// Whether some pair has one of these on one side, and one of the others on the other.
    #[tactic(auto, unfolding(crate::specs::code::Sides::excluding))]
    pub fn excludes(self, other: Sides) -> bool
        ensures { result ≡ excluding self other }
    {
        (self.first & other.second) | (self.second & other.first) != 0
    }

    // Whether a pair has the property of number k on one side, and on the other one of these. The first of a pair is the odd one.
    pub(crate) fn has_beside(self, k: u8) -> bool
        requires { (1 ≤ k) × (k ≤ 128) }
        ensures { (P : List ℕ) → (has : ℕ → Bool) → Marks P has self → k ≤ named_count P → result ≡ has (beside_at P k) }
    {
        let side = if k % 2 == 1 { self.second } else { self.first };
        (side >> ((k - 1) / 2)) % 2 == 1
    }

    // The property of number k alone. The first of a pair is the odd one.
    pub(crate) fn of_number(k: u8) -> Self
        requires { (1 ≤ k) × (k ≤ 128) }
        ensures first { (i : ℕ) → bit_at result.first i ≡ bit (eqb (2 * i + 1) k) }
        ensures second { (i : ℕ) → bit_at result.second i ≡ bit (eqb (2 * i + 2) k) }
    {
        let pair = (k - 1) / 2;
        Sides {
            first: u64::from(k % 2) << pair,
            second: u64::from((k + 1) % 2) << pair,
        }
    }
}
