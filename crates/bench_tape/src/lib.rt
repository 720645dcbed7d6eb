// What bench/tape.c times: dealing. Each answers the words read, or 0 where the dealing is refused.
// No function here is for hosts.
#![tactic(auto)]

use protocol::TapeId;
use tape::Place;

#[unsafe(no_mangle)]
pub extern "C" fn bench_deal_product(
    first: &mut [u32],
    second: &mut [u32],
    size: usize,
    index: usize,
    tape: u32,
    q: u32,
    m: u32,
    k: u32,
    p: u32,
    words: &[u32],
) -> usize {
    dealer::deal_product(
        first,
        second,
        Place { size, index },
        TapeId(tape),
        q,
        m,
        k,
        p,
        words,
    )
    .unwrap_or(0)
}

#[unsafe(no_mangle)]
pub extern "C" fn bench_deal_system(
    first: &mut [u32],
    second: &mut [u32],
    size: usize,
    index: usize,
    tape: u32,
    q: u32,
    n: u32,
    p: u32,
    words: &[u32],
) -> usize {
    dealer::deal_system(
        first,
        second,
        Place { size, index },
        TapeId(tape),
        q,
        n,
        p,
        words,
    )
    .unwrap_or(0)
}
