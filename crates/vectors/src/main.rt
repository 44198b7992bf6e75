// Reads vectors from standard input, at most 3,000, makes the call of each, and prints a line for each: the vector's
// number, the call, the answer, and for a call with an output a digest of all the output's bytes [K8]. The vectors, and
// the lines to be printed, are made by the version of other hands (rust/reference), which `make vectors` runs.
//
// A vector is a header of eight words, low byte first, and then the bytes of its list of pairs, its dictionary and its
// two inputs. The words: the call (1 read a description, 2 read a specimen, 3 fit, 4 normal form, 5 compare, 6 unfold,
// 7 catalogue, 8 hierarchy, 9 read a field sheet, 10 the items of a delivered record, 11 to the stored form, 12 from
// it, 13 what earns a yes, 14 calls on an empty desk, 15 what fails, 16 what is missing, 17 the narrowest), the lengths
// of these four, the length of the output, and the number of items in two words, 0 for the other calls. No dictionary
// and no second input is longer than 33,792 bytes, 66 blocks, and nothing else than 17,408, 34 blocks. Each byte of the
// output is 165 before the call.
#![tactic(auto)]

use blocks::{Entry, Refusal, byte, word};
use compare::NotContained;
use drafts::Call;
use missing::Lack;
use std::io;

// The call of a vector, as the header's own number, and what it is given.
#[derive(Drop)]
struct Vector<'a> {
    call: u16,
    pairs: &'a [u8],
    dictionary: &'a [u8],
    first: &'a [u8],
    second: &'a [u8],
    total: usize,
}

// No `Display` is plainer than the functions below: `Result` is the library's own and can be given none here, so each
// answer would need a struct about it, with the same `match`; and two of them print an output too, which stands beside
// the answer.

// Prints what reading answers.
fn print_reading(rt: &impl Print, call: &str, answer: Result<u16, Refusal>) -> io::Result<()> {
    match answer {
        Ok(total) => print!(rt; " {call} accepted {total}"),
        Err(refusal) => print!(rt; " {call} {refusal}"),
    }
}

// Prints a yes or a no.
fn print_yes(rt: &impl Print, call: &str, answer: Result<bool, Refusal>) -> io::Result<()> {
    match answer {
        Ok(true) => print!(rt; " {call} yes"),
        Ok(false) => print!(rt; " {call} no"),
        Err(refusal) => print!(rt; " {call} {refusal}"),
    }
}

// Prints the digest of an output: the bytes as the digits of a number to the base 257, modulo the largest prime below 2
// to the 32nd.
fn print_digest(rt: &impl Print, out: &[u8]) -> io::Result<()> {
    let mut digest: u64 = 0;
    for byte in out {
        digest = (digest * 257 + u64::from(*byte)) % 4294967291;
    }
    print!(rt; " output {digest}")
}

// Prints a yes or a no, and the digest of the output, in which entries are marked.
fn print_marked(
    rt: &impl Print,
    call: &str,
    answer: Result<bool, Refusal>,
    out: &[u8],
) -> io::Result<()> {
    print_yes(rt, call, answer)?;
    print_digest(rt, out)
}

// Prints how many entries or bytes a call has written, and the digest of the output.
fn print_written(
    rt: &impl Print,
    call: &str,
    answer: Result<u16, Refusal>,
    out: &[u8],
) -> io::Result<()> {
    match answer {
        Ok(count) => print!(rt; " {call} {count}")?,
        Err(refusal) => print!(rt; " {call} {refusal}")?,
    }
    print_digest(rt, out)
}

// Prints what comparing answers, and the digest of the output.
fn print_comparison(
    rt: &impl Print,
    answer: Result<Option<NotContained>, Refusal>,
    out: &[u8],
) -> io::Result<()> {
    match answer {
        Ok(None) => print!(rt; " compare contained")?,
        Ok(Some(shown)) => print!(rt;
            " compare not contained {} entries {}",
            shown.entry, shown.entries
        )?,
        Err(refusal) => print!(rt; " compare {refusal}")?,
    }
    print_digest(rt, out)
}

// Prints what is missing, and the digest of the output.
fn print_lack(rt: &impl Print, answer: Result<Lack, Refusal>, out: &[u8]) -> io::Result<()> {
    match answer {
        Ok(Lack::Nothing) => print!(rt; " missing nothing")?,
        Ok(Lack::Addable) => print!(rt; " missing addable")?,
        Ok(Lack::Against) => print!(rt; " missing against")?,
        Err(refusal) => print!(rt; " missing {refusal}")?,
    }
    print_digest(rt, out)
}

// Makes the call of a desk that these 9 bytes say: what it is (1 add, 2 take off, 3 name, 4 go back, 5 drop, else write
// out), and then the entry, or the stand, or how much of the output there is, low byte first. A byte that is not there
// is 0.
fn act(buffer: &mut [u8], row: &[u8], out: &mut [u8]) -> Result<u16, Refusal> {
    let n = word(row, 1);
    let call = match byte(row, 0) {
        1 => Call::Add(Entry {
            kind: byte(row, 1),
            reserved: byte(row, 2),
            owner: word(row, 3),
            name: word(row, 5),
            number: word(row, 7),
        }),
        2 => Call::TakeOff,
        3 => Call::Name(n),
        4 => Call::GoBack(n),
        5 => Call::Drop(n),
        _ => {
            let bytes = usize::from(n).min(out.len());
            return desk::buffer::write_out(buffer, &mut out[..bytes]);
        }
    };
    desk::buffer::act(buffer, call)
}

// Makes calls on an empty desk, and prints the answer of each and the digest of the output, which each writing out
// begins anew.
fn print_desk(rt: &impl Print, calls: &[u8], out: &mut [u8]) -> io::Result<()> {
    let mut buffer = [0u8; 40340];
    print!(rt; " desk")?;
    for n in 0..calls.len() / 9 {
        match act(&mut buffer, &calls[9 * n..], out) {
            Ok(count) => print!(rt; " {count}")?,
            Err(refusal) => print!(rt; " {refusal}")?,
        }
    }
    print_digest(rt, out)
}

// Reads the first input, as a description, a specimen or a field sheet. The readers take neither a list nor a
// dictionary.
fn run_reader(rt: &impl Print, v: &Vector) -> io::Result<()> {
    match v.call {
        1 => print_reading(rt, "description", reading::read_description(v.first)),
        2 => print_reading(rt, "specimen", reading::read_specimen(v.first)),
        _ => print_reading(rt, "sheet", sheets::read_sheet(v.first)),
    }
}

// Makes a call that answers how many entries it has written, or how many bytes it has filled.
fn run_writing(rt: &impl Print, v: &Vector, out: &mut [u8]) -> io::Result<()> {
    match v.call {
        4 => {
            let answer = named::normalise(v.pairs, v.dictionary, v.first, out);
            print_written(rt, "normal form", answer, out)
        }
        6 => {
            let answer = unfolding::unfold(v.dictionary, v.first, out);
            print_written(rt, "unfold", answer, out)
        }
        7 => {
            let answer = catalogue::catalogue(v.pairs, v.dictionary, v.first, v.second, out);
            print_written(rt, "catalogue", answer, out)
        }
        8 => {
            let answer = hierarchy::hierarchy(v.pairs, v.second, out);
            print_written(rt, "hierarchy", answer, out)
        }
        10 => {
            let answer = items::fit_items(v.pairs, v.dictionary, v.total, v.first, v.second, out);
            print_written(rt, "fit all", answer, out)
        }
        11 => {
            let answer = stored::to_stored(v.first, out);
            print_written(rt, "to stored", answer, out)
        }
        12 => {
            let answer = stored::from_stored(v.first, out);
            print_written(rt, "from stored", answer, out)
        }
        _ => {
            let answer = named::narrowest(v.pairs, v.dictionary, v.first, v.second, out);
            print_written(rt, "narrowest", answer, out)
        }
    }
}

// Makes the call of a vector and prints its answer. The calls go by the number in the header, which the head of this
// file explains and only these three functions read: by an enum they would be listed twice more, and then matched as
// here.
fn run_call(rt: &impl Print, v: &Vector, out: &mut [u8]) -> io::Result<()> {
    match v.call {
        1 | 2 | 9 => run_reader(rt, v),
        3 => {
            let answer = named::fit(v.pairs, v.dictionary, v.first, v.second);
            print_yes(rt, "fit", answer)
        }
        5 => {
            let answer = named::compare(v.pairs, v.dictionary, v.first, v.second, out);
            print_comparison(rt, answer, out)
        }
        13 => {
            let answer = earning::earning(v.pairs, v.first, v.second, out);
            print_marked(rt, "earning", answer, out)
        }
        14 => print_desk(rt, v.first, out),
        15 => {
            let answer = failings::failing(v.pairs, v.first, v.second, out);
            print_marked(rt, "failing", answer, out)
        }
        16 => {
            let answer = missing::missing(v.pairs, v.first, v.second, out);
            print_lack(rt, answer, out)
        }
        _ => run_writing(rt, v, out),
    }
}

// Reads an input of so many bytes to the start of a buffer, or of as many as it has room for.
fn read_input<'a>(rt: &impl Input, buffer: &'a mut [u8], bytes: u16) -> io::Result<&'a [u8]> {
    let n = usize::from(bytes).min(buffer.len());
    streams::read_full(&mut rt.reader(), &mut buffer[..n])?;
    Ok(&buffer[..n])
}

// Reads the rest of a vector with this header, makes its call, and prints the answer.
fn run_vector(rt: &(impl Print + Input), header: &[u8]) -> io::Result<()> {
    let mut pairs = [0u8; 17408];
    let mut dictionary = [0u8; 33792];
    let mut first = [0u8; 17408];
    let mut second = [0u8; 33792];
    let vector = Vector {
        call: blocks::word(header, 0),
        pairs: read_input(rt, &mut pairs, blocks::word(header, 2))?,
        dictionary: read_input(rt, &mut dictionary, blocks::word(header, 4))?,
        first: read_input(rt, &mut first, blocks::word(header, 6))?,
        second: read_input(rt, &mut second, blocks::word(header, 8))?,
        total: usize::from(blocks::word(header, 12))
            + 65536 * usize::from(blocks::word(header, 14)),
    };
    let mut out = [165u8; 17408];
    let n = usize::from(blocks::word(header, 10)).min(out.len());
    run_call(rt, &vector, &mut out[..n])
}

// Reads the header of vector n, if there is one, and runs the vector; answers whether there was one.
fn next_vector(rt: &(impl Print + Input), n: u64) -> io::Result<bool> {
    let mut header = [0u8; 16];
    if streams::read_full(&mut rt.reader(), &mut header)? != 16 {
        return Ok(false);
    }
    print!(rt; "{n}")?;
    run_vector(rt, &header)?;
    println!(rt)?;
    Ok(true)
}

fn main(rt: HostRuntime) -> io::Result<()> {
    for n in 1..=3000u64 {
        if !next_vector(&rt, n)? {
            break;
        }
    }
    Ok(())
}
