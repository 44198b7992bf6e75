// Reads up to eight descriptions of one block each from standard input and prints the normal form of each: `normal form of N entries`,
// then a line `kind owner name number` for each entry; or `refused N input I place P`.
#![tactic(auto)]

use blocks::Entry;
use blocks::sizes::BLOCK;
use std::io;

// Prints what normalising a description answers, and the entries that it wrote, a line each. No `Display` is plainer: the answer has only their
// number, and they stand in the output beside it.
fn print_normal(rt: &impl Print, description: &[u8]) -> io::Result<()> {
    let mut out = [0u8; BLOCK];
    match normal::normalise(&[], description, &mut out) {
        Ok(entries) => {
            println!(rt; "normal form of {entries} entries")?;
            for bytes in blocks::entries_in_order(&out, usize::from(entries)) {
                let e = Entry::from(bytes);
                println!(rt; "{} {} {} {}", e.kind, e.owner, e.name, e.number)?;
            }
            Ok(())
        }
        Err(refusal) => println!(rt; "{refusal}"),
    }
}

fn main(rt: HostRuntime) -> io::Result<()> {
    let mut block = [0u8; BLOCK];
    for _ in 0..8 {
        if streams::read_full(&mut rt.reader(), &mut block)? == BLOCK {
            print_normal(&rt, &block)?;
        }
    }
    Ok(())
}
