// The numbers of the table of refusals, what they are called, and the words of a refusal.
ghost use Rattle.std.specs.Prelude.{◌≡◌, Some};
ghost use Rattle.blocks.specs.Refusals.{number_of, refused_text};

use crate::{Cause, Refusal};
use std::fmt;

impl Cause {
    // Its number in the table. Arm by arm, as a reader compares it with the table.
    pub fn number(self) -> u8
        ensures { result ≡ number_of self }
    {
        match self {
            Cause::Length => 1,
            Cause::Check => 2,
            Cause::Framing => 3,
            Cause::Form => 4,
            Cause::Owner => 5,
            Cause::Depth => 6,
            Cause::Room => 7,
            Cause::Count => 8,
            Cause::Double => 9,
            Cause::Item => 10,
            Cause::Pairs => 11,
            Cause::Clash => 12,
            Cause::Name => 13,
            Cause::Size => 14,
            Cause::Walking => 15,
            Cause::Full => 16,
            Cause::Empty => 17,
            Cause::Stand => 18,
            Cause::Profile => 19,
            Cause::Desk => 20,
        }
    }
}

// `refused N input I place P`, with its number in the table.
impl fmt::Display for Refusal {
    ghost output = { λ e. Some (refused_text e) };

    fn fmt<W: fmt::Write>(&self, f: &mut fmt::Formatter<W>) -> fmt::Result {
        let number = self.cause.number();
        write!(
            f,
            "refused {} input {} place {}",
            number, self.input, self.place
        )
    }
}
