// Runs `rehearse` on each of the files in data/ and prints the file's name and what the rehearsal prints.
// The file stdout has what the second implementation printed.
#![tactic(auto)]

ghost use Rattle.std.specs.Prelude.{◌≤◌, length};

use std::io::Read;
use std::rt::Files;
use std::{fs, io};

const FILES: [&str; 33] = [
    "inner_2048",
    "inner_2049",
    "widest",
    "wider",
    "too_many",
    "largest_modulus",
    "modulus_0",
    "modulus_1",
    "modulus_too_large",
    "modulus_6",
    "session_0",
    "tape_0",
    "side_0",
    "x_short",
    "y_long",
    "nothing",
    "missing_line",
    "empty_line",
    "unended_line",
    "five_numbers",
    "seven_numbers",
    "leading_zero",
    "form_before_modulus",
    "behind_the_fifth",
    "residue_of_q",
    "residue_in_y",
    "dry_dealer",
    "dry_left",
    "residue_before_dry",
    "size_before_residue",
    "thrown_away",
    "too_long_a_line",
    "longest_line",
];

// Reads until the bytes are full, the input ends or a read fails. The answer is how many bytes came.
fn read_full(input: &mut impl Read, bytes: &mut [u8]) -> usize
    ensures { result ≤ length bytes.new }
{
    let mut n = 0;
    while n < bytes.len() {
        let got = input.read(&mut bytes[n..]).unwrap_or(0);
        if got == 0 {
            return n;
        }
        n += got;
    }
    n
}

// Into an array: on the heap a file could be cut short unseen where memory runs out.
fn run(rt: &(impl Files + Print + Eprint), name: &str) -> io::Result<()> {
    let mut file = match fs::open(rt, name) {
        Ok(file) => file,
        Err(e) => return eprintln!(rt; "{name}: {e}"),
    };
    let mut bytes = [0u8; 327680];
    let n = read_full(&mut file, &mut bytes);
    drop(file);
    let mut out = [0u8; 81920];
    let printed = rehearse::rehearse(&bytes[..n], &mut out);
    println!(rt; "{name}")?;
    rt.write_all(&out[..printed])
}

fn main(rt: HostRuntime) -> io::Result<()> {
    for name in FILES {
        run(&rt, name)?;
    }
    Ok(())
}
