// The program's input: how much is read of it, and the comparison of its two descriptions.
ghost use Rattle.std.specs.Prelude.{◌≡◌, [], length, replicate};
ghost use Rattle.lists.specs.Parts.{first_part, second_part};
ghost use Rattle.named.specs.Answer.{compare_named, output_named};
ghost use Rattle.report.specs.Text.{input_bytes};

use blocks::Refusal;
use compare::NotContained;

// Zeros, as many as the program reads bytes at most. As many are room for every specimen.
pub fn input_buffer() -> [u8; 16385]
    ensures many { length result ≡ input_bytes }
    ensures zeros { result ≡ replicate input_bytes 0 }
{
    [0; 16385]
}

// Compares the first description of an input with the second, with no pairs and no dictionary, and writes the specimen from the start of
// the output.
pub fn compare_parts(s: &[u8], out: &mut [u8]) -> Result<Option<NotContained>, Refusal>
    ensures { (result ≡ compare_named [] [] (first_part s.now) (second_part s.now) out.old)
        × (out.new ≡ output_named [] [] (first_part s.now) (second_part s.now) out.old) }
{
    let (first, second) = s.split_at(lists::part_length(s));
    named::compare_sent(&[], first, second, out)
}
