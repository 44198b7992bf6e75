// Reads standard input up to a limit, compares the two descriptions that it holds, one after the other, and prints
// the answer, line by line. A read error counts as the end of the input [Q1]; a write error ends the program [Q7].
// How much is read, where the input divides, what is compared and the bytes of each line are the library's: this
// program only reads, calls and writes.
#![tactic(auto)]

use report::LINE_BYTES;
use std::io;

fn main(rt: HostRuntime) -> io::Result<()> {
    let mut input = report::input_buffer();
    let mut blocks = report::input_buffer();
    // That a read failed is told here, and let go.
    let (length, _) = streams::read_until_failure(&mut rt.reader(), &mut input);
    let answer = report::compare_parts(&input[..length], &mut blocks);
    let mut line = [0u8; LINE_BYTES];
    for n in 0..=report::specimen_lines(answer) {
        let length = report::line_text(answer, &blocks, n, &mut line);
        rt.write_all(&line[..length])?;
    }
    Ok(())
}
