// Reads a description from standard input and says what the reader says of it: `accepted N`, its number of entries, or
// `refused N input I place P`.
#![tactic(auto)]

use std::io;

fn main(rt: HostRuntime) -> io::Result<()> {
    let mut input = [0u8; 16385];
    let length = streams::read_full(&mut rt.reader(), &mut input)?;
    match reading::read_description(&input[..length]) {
        Ok(entries) => println!(rt; "accepted {entries}"),
        Err(refusal) => println!(rt; "{refusal}"),
    }
}
