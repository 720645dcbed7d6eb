// Prints what the entries on lines answer for each case of the file stdin. The file stdout has what the second implementation printed
// (reference/src/bin/lines.rs).
// A case is any bytes up to a `;`, so that a byte 10 may be missing or stand anywhere. It is handed to `numbers`, `read` and `parse`; a
// message that `parse` takes, to `write`: with a slice that is a byte too short, as a message of kind 0, and with a slice as long as its
// line. Slices are printed whole, with what keeps its value: 77 in words, dots in bytes.
//   show ..   an entry's answer, a case, all cases
#![tactic(auto)]

ghost use Rattle.std.specs.Prelude.{◌≤◌, length};

use line::{Arrived, head_words};
use protocol::{Head, Refusal};
use std::io;
use std::io::Read;

// ---- an entry's answer

fn show_words(rt: &impl Print, words: &[u32]) -> io::Result<()> {
    for word in words {
        print!(rt; ",{word}")?;
    }
    Ok(())
}

// How many numbers were read or bytes written, or the refusal's number.
fn show_count(rt: &impl Print, answer: Result<usize, Refusal>) -> io::Result<()> {
    match answer {
        Ok(n) => print!(rt; ",0,{n}"),
        Err(r) => print!(rt; ",{}", u32::from(r)),
    }
}

fn show_numbers(rt: &impl Print, s: &[u8]) -> io::Result<()> {
    print!(rt; " numbers")?;
    let mut out = [77u32; 9];
    let answer = decimal::numbers(s, &mut out);
    show_count(rt, answer)?;
    show_words(rt, &out)
}

fn show_arrived(rt: &impl Print, answer: Result<Arrived, Refusal>, out: &[u32]) -> io::Result<()> {
    match answer {
        Ok(message) => {
            print!(rt; ",0")?;
            show_words(rt, &head_words(message.head))?;
            print!(rt; ",{}", message.count)?;
        }
        Err(r) => print!(rt; ",{}", u32::from(r))?,
    }
    show_words(rt, out)
}

fn show_read(rt: &impl Print, s: &[u8]) -> io::Result<()> {
    print!(rt; " read")?;
    let mut out = [77u32; 4];
    let answer = line::read(s, &mut out);
    show_arrived(rt, answer, &out)
}

fn show_write(rt: &impl Print, h: Head, residues: &[u32], out: &mut [u8]) -> io::Result<()> {
    print!(rt; " write")?;
    let answer = line::write(h, residues, out);
    show_count(rt, answer)?;
    print!(rt; "[")?;
    rt.write_all(out)?;
    print!(rt; "]")
}

// The slice is the first `room` bytes.
fn show_within(
    rt: &impl Print,
    h: Head,
    residues: &[u32],
    room: usize,
    bytes: &mut [u8],
) -> io::Result<()> {
    if room <= bytes.len() {
        show_write(rt, h, residues, &mut bytes[..room])?;
    }
    Ok(())
}

// A message whose line has n bytes. The first two calls write nothing.
fn show_writes(
    rt: &impl Print,
    h: Head,
    residues: &[u32],
    n: usize,
    bytes: &mut [u8],
) -> io::Result<()> {
    if n == 0 {
        return Ok(());
    }
    show_within(rt, h, residues, n - 1, bytes)?;
    let terms = h.terms;
    show_within(rt, Head { kind: 0, terms }, residues, n, bytes)?;
    show_within(rt, h, residues, n, bytes)
}

// The residues are the first `count` words.
fn show_message(rt: &impl Print, h: Head, count: usize, words: &[u32], n: usize) -> io::Result<()> {
    let mut bytes = [46u8; 256];
    if count <= words.len() {
        show_writes(rt, h, &words[..count], n, &mut bytes)?;
    }
    Ok(())
}

fn show_parse(rt: &impl Print, s: &[u8]) -> io::Result<()> {
    print!(rt; " parse")?;
    let mut out = [77u32; 4];
    let answer = line::parse(s, &mut out);
    show_arrived(rt, answer, &out)?;
    if let Ok(message) = answer {
        show_message(rt, message.head, message.count, &out, s.len())?;
    }
    Ok(())
}

// ---- the cases

fn show(rt: &impl Print, s: &[u8]) -> io::Result<()> {
    show_numbers(rt, s)?;
    show_read(rt, s)?;
    show_parse(rt, s)?;
    println!(rt)
}

// Each is told by its number, from 1.
fn show_all(rt: &impl Print, bytes: &[u8]) -> io::Result<()> {
    for (index, part) in bytes.split_inclusive(|b| *b == b';').enumerate() {
        print!(rt; "{}", index + 1)?;
        show(rt, part.strip_suffix(b";").unwrap_or(part))?;
    }
    Ok(())
}

// Reads until the bytes are full, the input ends or a read fails. The answer is how many bytes came.
fn read_full(input: &mut impl Read, bytes: &mut [u8]) -> usize
    ensures { result ≤ length bytes.new }
{
    let mut n = 0;
    while n < bytes.len() {
        let got = input.read(&mut bytes[n..]).unwrap_or(0);
        if got == 0 {
            return n;
        }
        n += got;
    }
    n
}

fn main(rt: HostRuntime) -> io::Result<()> {
    let mut bytes = [0u8; 65536];
    let n = read_full(&mut rt.stdin(), &mut bytes);
    show_all(&rt, &bytes[..n])
}
