// What bench/line.c times: a message line read and written, with all checks.
// No function here is for hosts.
#![tactic(auto)]

use protocol::{Head, SessionId, TapeId, Terms};

// How many residues were read, 0 of a refusal.
#[unsafe(no_mangle)]
pub extern "C" fn bench_line_read(s: &[u8], out: &mut [u32]) -> usize {
    match line::read(s, out) {
        Ok(message) => message.count,
        Err(_) => 0,
    }
}

// How many bytes were written, 0 of a refusal.
#[unsafe(no_mangle)]
pub extern "C" fn bench_line_write(q: u32, residues: &[u32], out: &mut [u8]) -> usize {
    let terms = Terms {
        session: SessionId(9),
        tape: TapeId(4),
        q,
        m: 32,
        k: 64,
        p: 32,
    };
    let head = Head { kind: 2, terms };
    match line::write(head, residues, out) {
        Ok(n) => n,
        Err(_) => 0,
    }
}
