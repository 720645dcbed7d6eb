// The dealer's entry on bytes (RULES 11.2), for hosts in any language.
//   deal_on   dealing by the sort's number
//   deal_sort       the same by the sort
//   deal_part       the same on a part of both slots
//   part            which words of the slots are looked at
//   copies          dealing on copies of them
// Everything is done on copies, in arrays of a fixed length: a dealing that is refused changes nothing. Whatever 4 refuses is dealt into no words
// at all, so that the dealer refuses it, by 4 or what is lower, and no test of the modulus is made twice.
#![tactic(auto)]

mod copies;
mod part;

ghost use Rattle.std.specs.Prelude.{◌≡◌, cond, ◌≤◌, eqb, length, Some, None, option_map};
ghost use Rattle.protocol.specs.Bounds.{product, system};
ghost use Rattle.protocol.specs.Deal.{deal};
ghost use Rattle.entry.specs.Bytes.{words_of};
ghost use Rattle.entry.specs.Entry.{Dealing, dealing, deal_on};
ghost use Rattle.entry.specs.Steps.{also};
ghost use Rattle.dealer.specs.Sorts.{sort, request};
ghost use Rattle.host_deal.specs.Part.{own_tests, Known, Lies};
ghost use Rattle.host_deal.specs.Copied.{report_of, told, SiftedFor};

use copies::deal_bytes;
use dealer::request::Request;
use dealer::sort::{Sort, draw_count};
use drawing::{Sifted, sift};
use entry::Report;
use part::{Part, part_of};
use protocol::{Answer, Refusal, SessionId, TapeId, Terms};
use tape::Place;
use words::bytes_known;

// `read`: of all raw words.
fn report_of(answer: Answer, read: usize) -> Report
    ensures { result ≡ report_of answer read }
{
    match answer {
        Ok(_) => Report {
            number: 0,
            read,
            bytes: 0,
        },
        Err(r) => Report::from(r),
    }
}

// The raw words that are kept, as many as are drawn; none where no word of a slot is looked at.
fn sift_for(s: Sort, t: Terms, at: Part, words: &[u8], out: &mut [u32]) -> Sifted
    requires { Known (sort s) t at.size × (5120 ≤ length out.old) }
    ensures { SiftedFor (sort s) t at.size (words_of words.now) out.new result }
{
    if at.size == 0 {
        return Sifted { kept: 0, read: 0 };
    }
    sift(t.q, draw_count(s, t), words, out)
}

fn deal_part(
    s: Sort,
    t: Terms,
    first: &mut [u8],
    second: &mut [u8],
    at: Part,
    words: &[u8],
) -> Report
    requires { Known (sort s) t at.size × Lies at (length first.old) (length second.old) × (1 ≤ t.session.0) }
    ensures { ◌≡◌ {A = Dealing} (record { report = result; first = first.new; second = second.new })
        (told at (sort s) t first.old second.old (words_of words.now)) }
{
    let mut raw = [0u32; 5120];
    let sifted = sift_for(s, t, at, words, &mut raw);
    let r = Request {
        sort: s,
        terms: t,
        words: &raw[..sifted.kept],
    };
    let answer = deal_bytes(first, second, at, &r);
    report_of(answer, sifted.read)
}

fn deal_sort(
    s: Sort,
    t: Terms,
    first: &mut [u8],
    second: &mut [u8],
    at: Place,
    words: &[u8],
) -> Report
    requires { 1 ≤ t.session.0 }
    ensures { ◌≡◌ {A = Dealing} (record { report = result; first = first.new; second = second.new })
        (dealing first.old second.old
        (also (own_tests (length first.old) (length second.old) (length words.now))
        (deal (words_of first.old) (words_of second.old) at.size at.index (request (sort s) t (words_of words.now))))) }
{
    // what stands behind a half, in the bytes of its slot, is written by nobody: for proofs, it is bytes
    bytes_known(first);
    bytes_known(second);
    let part = part_of(s, t, first.len(), second.len(), words.len(), at);
    deal_part(s, t, first, second, part, words)
}

fn sort_of(number: u32) -> Option<Sort>
    ensures { option_map sort result ≡ cond (eqb number 0) (Some product) (cond (eqb number 1) (Some system) None) }
{
    match number {
        0 => Some(Sort::Product),
        1 => Some(Sort::System),
        _ => None,
    }
}

// `sort` is 0 for a product and 1 for a system.
pub fn deal_on(
    sort: u32,
    first: &mut [u8],
    second: &mut [u8],
    size: usize,
    index: usize,
    tape: u32,
    q: u32,
    m: u32,
    k: u32,
    p: u32,
    words: &[u8],
) -> Report
    ensures { ◌≡◌ {A = Dealing} (record { report = result; first = first.new; second = second.new })
        (deal_on sort first.old second.old size index tape q m k p words.now) }
{
    let Some(s) = sort_of(sort) else {
        return report_of(Err(Refusal::Size), 0);
    };
    let t = Terms {
        session: SessionId(1),
        tape: TapeId(tape),
        q,
        m,
        k,
        p,
    };
    let at = Place { size, index };
    deal_sort(s, t, first, second, at, words)
}
