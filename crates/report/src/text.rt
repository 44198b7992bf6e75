// The text of the lines that the program prints.
//
// `Line` has no `impl Display`, tried: a `fmt` promises its text only where it returns `Ok`, and `line_text` has to give the text always.
ghost use Rattle.std.specs.Prelude.{◌≡◌, ◌++◌, ◌+◌, ◌≤◌, ◌<◌, drop, length};
ghost use Rattle.arrayvec.specs.ArrayString.{array_string_len};
ghost use Rattle.report.specs.declared.text.TheConstants.{LINE_BYTES};
ghost use Rattle.report.specs.Text.{line_of, line_text, line_words};

use crate::Line;
use crate::lines::{answer_line, specimen_line, specimen_lines};
use arrayvec::ArrayString;
use blocks::Refusal;
use compare::NotContained;
use itoa::{Buffer, Integer};

// Room for the longest line.
pub const LINE_BYTES: usize = 64;

// Puts a word and a number.
fn put_field<N: Integer>(text: &mut ArrayString<LINE_BYTES>, word: &str, number: N)
    requires { array_string_len text.old + length word.now + N.MAX_STR_LEN ≤ LINE_BYTES }
    ensures bytes { text.new.bytes ≡ text.old.bytes ++ (word.now ++ N.text number) }
    ensures len { array_string_len text.new ≤ array_string_len text.old + length word.now + N.MAX_STR_LEN }
{
    text.push_str(word);
    text.push_str(Buffer::new().format(number));
}

// The words of a line.
#[tactic(auto, using(crate::proofs::Decimals::decimal_written), unfolding(crate::specs::Text::line_words))]
fn words(line: Line) -> ArrayString<LINE_BYTES>
    ensures bytes { result.bytes ≡ line_words line }
    ensures len { array_string_len result < LINE_BYTES }
{
    let mut text = ArrayString::new();
    match line {
        Line::Contained => text.push_str("contained"),
        Line::NotContained(entry) => put_field(&mut text, "not contained ", entry),
        Line::Refused(refusal) => {
            put_field(&mut text, "refused ", refusal.cause.number());
            put_field(&mut text, " input ", refusal.input);
            put_field(&mut text, " place ", refusal.place);
        }
        Line::Has(n, owner, p) => {
            put_field(&mut text, "has ", n);
            put_field(&mut text, " owner ", owner);
            put_field(&mut text, " property ", p.0);
        }
        Line::Group(n, owner, l, count) => {
            put_field(&mut text, "group ", n);
            put_field(&mut text, " owner ", owner);
            put_field(&mut text, " link ", l.0);
            put_field(&mut text, " count ", count);
        }
    }
    text
}

// Line n of an answer whose specimen stands in `blocks`: line 0 is the answer's, and line n that of specimen entry n.
#[tactic(auto, unfolding(crate::specs::Text::line_of))]
fn nth_line(answer: Result<Option<NotContained>, Refusal>, blocks: &[u8], n: u16) -> Line
    ensures { result ≡ line_of answer blocks.now n }
{
    if n == 0 {
        return answer_line(answer);
    }
    specimen_line(blocks, usize::from(specimen_lines(answer)), n)
}

// Puts the text of line n of an answer at the start of the buffer, and returns its length; later bytes stay. Line 0 is the answer's; for
// `not contained`, line n is that of entry n of the specimen in `blocks`. Entries above the specimen's read as the zero entry.
#[tactic(auto, unfolding(crate::specs::Text::line_text))]
pub fn line_text(
    answer: Result<Option<NotContained>, Refusal>,
    blocks: &[u8],
    n: u16,
    buffer: &mut [u8; LINE_BYTES],
) -> usize
    ensures { (result ≡ length (line_text (line_of answer blocks.now n))) × (result ≤ length buffer.new)
        × (buffer.new ≡ line_text (line_of answer blocks.now n) ++ drop result buffer.old) }
{
    let mut text = words(nth_line(answer, blocks, n));
    text.push_str("\n");
    let length = text.len();
    buffer[..length].copy_from_slice(text.as_bytes());
    length
}
