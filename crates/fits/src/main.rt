// Reads a specimen of 32 blocks and then a description from standard input, and says whether the specimen's top item fits the
// description: `yes`, `no`, or `refused N input I place P`.
#![tactic(auto)]

use std::io;

fn main(rt: HostRuntime) -> io::Result<()> {
    let mut specimen = [0u8; 16384];
    let mut description = [0u8; 8193];
    let n = streams::read_full(&mut rt.reader(), &mut specimen)?;
    let m = streams::read_full(&mut rt.reader(), &mut description)?;
    match fit::fit(&[], &specimen[..n], &description[..m]) {
        Ok(true) => println!(rt; "yes"),
        Ok(false) => println!(rt; "no"),
        Err(refusal) => println!(rt; "{refusal}"),
    }
}
