// The program's input and output: how much is read, where the input divides into two descriptions, what each printed line says, and its
// bytes. The program itself only reads, calls and writes.
//
// The contracts cite specs/Lines and specs/Text, and the parts of crate lists. What these mean is proved in proofs/:
// that two accepted descriptions, joined, divide into just these two, that the lines after the first are those of the
// specimen's entries, that what is written are the bytes of these lines, one after the other, and what is printed for
// the third case.
#![tactic(auto)]

mod input;
mod lines;
mod text;

use blocks::{Link, Property, Refusal};
pub use input::{compare_parts, input_buffer};
pub use lines::specimen_lines;
pub use text::{LINE_BYTES, line_text};

// What a printed line says: `contained`; `not contained` with the entry that fails; `refused` with its number, input and place; `has`
// with its entry number, owner and property; or `group` with its entry number, owner, link and count, which is the number of items. It is no
// Option or Result, since there are five kinds of line.
#[derive(Clone, Copy)]
pub enum Line {
    Contained,
    NotContained(u16),
    Refused(Refusal),
    Has(u16, u16, Property),
    Group(u16, u16, Link, u32),
}
