// What bench/product.c times: the steps of a product session with the number 9 on the tape 4 in the first slot of its pool, and message lines.
// No function here is for hosts.
#![tactic(auto)]

use field::Field;
use line::Arrived;
use product::{left_step, right_first, right_last};
use protocol::{Head, Incoming, Refusal, RightSession, SessionId, TapeId, Terms};
use tape::Place;

// The first slot of a pool.
fn first_slot(size: usize) -> Place {
    Place { size, index: 0 }
}

fn terms(q: u32, m: u32, k: u32, p: u32) -> Terms {
    Terms {
        session: SessionId(9),
        tape: TapeId(4),
        q,
        m,
        k,
        p,
    }
}

#[unsafe(no_mangle)]
pub extern "C" fn bench_deal(
    first: &mut [u32],
    second: &mut [u32],
    size: usize,
    q: u32,
    m: u32,
    k: u32,
    p: u32,
    words: &[u32],
) -> bool {
    dealer::deal_product(
        first,
        second,
        first_slot(size),
        TapeId(4),
        q,
        m,
        k,
        p,
        words,
    )
    .is_ok()
}

#[unsafe(no_mangle)]
pub extern "C" fn bench_right_first(
    pool: &mut [u32],
    size: usize,
    q: u32,
    m: u32,
    k: u32,
    p: u32,
    y: &[u32],
    out: &mut [u32],
) -> bool {
    let done = right_first(pool, first_slot(size), terms(q, m, k, p), y, out);
    done.answer.is_ok()
}

#[unsafe(no_mangle)]
pub extern "C" fn bench_left(
    pool: &mut [u32],
    size: usize,
    q: u32,
    m: u32,
    k: u32,
    p: u32,
    x: &[u32],
    words: &[u32],
    residues: &[u32],
    out: &mut [u32],
    share: &mut [u32],
) -> bool {
    let t = terms(q, m, k, p);
    let one = Incoming {
        head: Head { kind: 1, terms: t },
        residues,
    };
    let done = left_step(pool, first_slot(size), t, x, words, one, out, share);
    done.answer.is_ok()
}

#[unsafe(no_mangle)]
pub extern "C" fn bench_right_last(
    pool: &mut [u32],
    size: usize,
    q: u32,
    m: u32,
    k: u32,
    p: u32,
    residues: &[u32],
    share: &mut [u32],
) -> bool {
    let t = terms(q, m, k, p);
    let open = RightSession { terms: t, due: 2 };
    let two = Incoming {
        head: Head { kind: 2, terms: t },
        residues,
    };
    let done = right_last(pool, first_slot(size), open, two, share);
    done.answer.is_ok()
}

// How many bytes the message's line has, 0 of a refusal.
#[unsafe(no_mangle)]
pub extern "C" fn bench_write(
    kind: u32,
    q: u32,
    m: u32,
    k: u32,
    p: u32,
    residues: &[u32],
    out: &mut [u8],
) -> usize {
    let head = Head {
        kind,
        terms: terms(q, m, k, p),
    };
    match line::write(head, residues, out) {
        Ok(n) => n,
        Err(_) => 0,
    }
}

// How many residues the line's message has, 0 of a refusal: by its form alone, and with all checks.
#[unsafe(no_mangle)]
pub extern "C" fn bench_parse(s: &[u8], out: &mut [u32]) -> usize {
    residues_in(line::parse(s, out))
}

#[unsafe(no_mangle)]
pub extern "C" fn bench_read(s: &[u8], out: &mut [u32]) -> usize {
    residues_in(line::read(s, out))
}

fn residues_in(received: Result<Arrived, Refusal>) -> usize {
    received.map_or(0, |message| message.count)
}

// The inner product of x and y, 0 where they don't fit.
#[unsafe(no_mangle)]
pub extern "C" fn bench_inner(q: u32, x: &[u32], y: &[u32]) -> u32 {
    let k = x.len();
    if (1..=Field::LARGEST).contains(&q) && k <= 2048 && k <= y.len() {
        matrix::inner_product(q, k, x, y)
    } else {
        0
    }
}
