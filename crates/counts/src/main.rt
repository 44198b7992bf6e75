// Judges specimens of groups and prints how many additions of items each took: `G groups: table T, walk W`, or `G groups: refused N`. The
// table of totals adds each group once, and the walk over entries none.
#![tactic(auto)]

use blocks::sizes::{BLOCK, ENTRIES};
use blocks::{Entry, kinds};
use std::io;

// The groups of a specimen: what each of them stands below, and by which link.
#[derive(Clone, Copy)]
enum Groups {
    // At the top, all by link 1.
    Alike,
    // At the top, each by a link of its own.
    ByOwnLinks,
    // In chains by link 1, 32 deep.
    InChains,
    // At the top, all by one link that leads to one item only.
    ToOneItem,
}

// An entry as one number.
fn row(kind: u8, owner: u16, name: u16) -> u64 {
    blocks::pack(Entry {
        kind,
        reserved: 0,
        owner,
        name,
        number: 0,
    })
}

// The group after the first n.
fn group(groups: Groups, n: u16) -> u64 {
    match groups {
        Groups::Alike => row(kinds::GROUP, 0, 1),
        Groups::ByOwnLinks => row(kinds::GROUP, 0, n % 2016 + 1),
        Groups::InChains => row(kinds::GROUP, if n % 33 == 0 { 0 } else { n }, 1),
        Groups::ToOneItem => row(kinds::GROUP, 0, 40000),
    }
}

// Judges the first `count` groups by a description of one 'every', by link 1, that asks for at most none, and prints the counts.
#[tactic(auto, unfolding(blocks::specs::Encoding::bytes_written))]
fn show(rt: &impl Print, groups: Groups, count: usize) -> io::Result<()> {
    let mut rows = [0u64; 2016];
    for (n, row) in (0..2016).zip(rows.iter_mut()) {
        *row = group(groups, n);
    }
    let mut specimen = [0u8; 16384];
    let n = writing::write_entries(&mut specimen, &rows, count);
    let mut description = [0u8; BLOCK];
    let m = writing::write_entries(
        &mut description,
        &[row(kinds::EVERY, 0, 1), row(kinds::AT_MOST, 1, 1)],
        2,
    );
    let counted = fit::fit_counted(&specimen[..n], &description[..m]);
    match counted.answer {
        Ok(_) => println!(rt;
            "{count} groups: table {}, walk {}",
            counted.table, counted.walk
        ),
        Err(refusal) => println!(rt; "{count} groups: refused {}", refusal.cause.number()),
    }
}

fn main(rt: HostRuntime) -> io::Result<()> {
    show(&rt, Groups::Alike, 0)?;
    show(&rt, Groups::Alike, 1)?;
    show(&rt, Groups::Alike, ENTRIES)?;
    show(&rt, Groups::Alike, ENTRIES + 1)?;
    show(&rt, Groups::Alike, 255)?;
    show(&rt, Groups::Alike, 256)?;
    show(&rt, Groups::Alike, 2016)?;
    show(&rt, Groups::ByOwnLinks, 2016)?;
    show(&rt, Groups::InChains, 33)?;
    show(&rt, Groups::InChains, 2016)?;
    show(&rt, Groups::ToOneItem, 2)
}
