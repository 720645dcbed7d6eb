// Dealing on copies of the words that are looked at.
//   take_words, put_back   a part of a pool's bytes, to words and back
//   deal_copies            dealing into both parts' words
//   deal_bytes             the same, and back to the pools
ghost use Rattle.std.specs.Prelude.{◌≡◌, ◌+◌, ◌*◌, ◌≤◌, length, take};
ghost use Rattle.algebra.specs.Words.{written_at};
ghost use Rattle.protocol.specs.Step.{answer_reply};
ghost use Rattle.protocol.specs.Deal.{deal};
ghost use Rattle.entry.specs.Bytes.{bytes_of};
ghost use Rattle.dealer.specs.Sorts.{sort, request_of};
ghost use Rattle.dealer.specs.Dealt.{Pools, pools};
ghost use Rattle.host_deal.specs.Part.{Lies};
ghost use Rattle.host_deal.specs.Copied.{part_words, copied};

use crate::part::Part;
use dealer::deal;
use dealer::request::Request;
use protocol::Answer;
use tape::Place;
use words::{get_words, put_words};

fn take_words(at: Part, bytes: &[u8], out: &mut [u32])
    requires { (at.from * 4 + at.size * 4 ≤ length bytes.now) × (at.size ≤ length out.old) }
    ensures { take at.size out.new ≡ part_words at bytes.now }
{
    let start = at.from * 4;
    get_words(at.size, &bytes[start..], out);
}

fn put_back(at: Part, words: &[u32], bytes: &mut [u8])
    requires { (at.from * 4 + at.size * 4 ≤ length bytes.old) × (at.size ≤ length words.now) }
    ensures { bytes.new ≡ written_at (at.from * 4) (bytes_of (take at.size words.now)) bytes.old }
{
    let start = at.from * 4;
    put_words(at.size, words, &mut bytes[start..]);
}

// Pools of one slot.
fn deal_copies(size: usize, one: &mut [u32], two: &mut [u32], r: &Request<'_>) -> Answer
    requires { (1 ≤ r.now.terms.session.0) × (size ≤ length one.old) × (size ≤ length two.old) }
    ensures { ◌≡◌ {A = Pools} (record { answer = answer_reply result; first = take size one.new; second = take size two.new })
        (pools (take size one.old) (take size two.old)
        (deal (take size one.old) (take size two.old) size 0 (request_of r.now))) }
{
    let at = Place { size, index: 0 };
    deal(&mut one[..size], &mut two[..size], at, r)
}

// No half has more than 3,079 words.
pub fn deal_bytes(first: &mut [u8], second: &mut [u8], at: Part, r: &Request<'_>) -> Answer
    requires { Lies at (length first.old) (length second.old) × (1 ≤ r.now.terms.session.0) }
    ensures { ◌≡◌ {A = Pools} (record { answer = answer_reply result; first = first.new; second = second.new })
        (copied at (sort r.now.sort) r.now.terms first.old second.old r.now.words.now) }
{
    let mut one = [0u32; 3079];
    let mut two = [0u32; 3079];
    take_words(at, first, &mut one);
    take_words(at, second, &mut two);
    let read = deal_copies(at.size, &mut one, &mut two, r)?;
    put_back(at, &one, first);
    put_back(at, &two, second);
    Ok(read)
}
