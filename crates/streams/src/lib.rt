// Reading a stream into a buffer, as the programs read their standard input.
#![tactic(auto)]

ghost use Rattle.std.specs.Prelude.{◌<◌, ◌≤◌, length, take, IfOk};
ghost use Rattle.std.specs.Io.KnownBytes.{Consumes, IsAtEnd};

use std::io;
use std::io::Read;

/// Reads until the buffer is full, the input ends or a read fails. Answers how many bytes it put at the start of the buffer, those that the
/// reader gave, and the failure if there was one: without one the buffer is full, or the reader has no byte left.
// A `while` and no `for`: each read says how far the next one begins. A pair and no Result alone: a caller may want the count where a read
// fails too.
pub fn read_until_failure<R: Read>(reader: &mut R, buffer: &mut [u8]) -> (usize, io::Result<()>)
    ensures within { result.0 ≤ length buffer.new }
    ensures bytes { Consumes (R.remaining reader.old) (R.remaining reader.new) (take result.0 buffer.new) }
    ensures end { IfOk result.1 (λ _. result.0 < length buffer.new → IsAtEnd (R.remaining reader.new)) }
{
    let mut done: usize = 0;
    while done < buffer.len() {
        match reader.read(&mut buffer[done..]) {
            Ok(0) => return (done, Ok(())),
            Ok(n) => done += n,
            Err(e) => return (done, Err(e)),
        }
    }
    (done, Ok(()))
}

/// Reads until the buffer is full or the input ends, and answers how many bytes it put at the start of the buffer, or the failure.
pub fn read_full<R: Read>(reader: &mut R, buffer: &mut [u8]) -> io::Result<usize>
    ensures within { IfOk result (λ n. n ≤ length buffer.new) }
    ensures bytes { IfOk result (λ n. Consumes (R.remaining reader.old) (R.remaining reader.new) (take n buffer.new)) }
    ensures end { IfOk result (λ n. n < length buffer.new → IsAtEnd (R.remaining reader.new)) }
{
    let (length, outcome) = read_until_failure(reader, buffer);
    outcome?;
    Ok(length)
}
