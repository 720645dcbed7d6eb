// A message, from its line.
//   take_line                 its form
//   residues_in, seen_count   its residues, and how many of them a step looks at
//   opening_of                its head and how many residues, as a first step is handed them
ghost use Rattle.std.specs.Prelude.{◌≡◌, ◌+◌, ◌≤◌, length, take, drop};
ghost use Rattle.local.specs.Seen.{seen_count, shrunk, opening_head, opening_count};
ghost use Rattle.host_parts.specs.Taken.{TakenFrom};

use crate::store::sent_count;
use judging::message::kind_known;
use line::{Arrived, load};
use protocol::{Head, Terms};

// Its numbers go into `numbers`, as many as there is room for.
pub fn take_line(message: &[u8], numbers: &mut [u32]) -> Option<Arrived>
    requires { 7 ≤ length numbers.old }
    ensures { TakenFrom message.now numbers.new result }
{
    let loaded = load(message, numbers)?;
    if !kind_known(loaded.head.kind) {
        return None;
    }
    Some(loaded)
}

// `count` residues from behind the head.
pub fn residues_in(numbers: &[u32], count: usize) -> &[u32]
    requires { count + 7 ≤ length numbers.now }
    ensures { result.now ≡ take count (drop 7 numbers.now) }
{
    let end = count + 7;
    &numbers[7..end]
}

// None where there are more than any message has.
pub fn seen_count(count: usize) -> usize
    ensures { (result ≡ seen_count count) × (result ≤ 3072) × (result ≤ count) }
{
    if 3072 < count {
        return 0;
    }
    count
}

// ---- for a first step

// The head with all sides 1.
fn shrunk_of(h: Head) -> Head
    ensures { result ≡ shrunk h }
{
    let t = h.terms;
    let session = t.session;
    let tape = t.tape;
    let terms = Terms {
        session,
        tape,
        q: t.q,
        m: 1,
        k: 1,
        p: 1,
    };
    Head {
        kind: h.kind,
        terms,
    }
}

// The message that a first step is handed: it has room for 2,048 residues only. A longer message of kind 2 is made short: no first step is due one, and it is refused by
// its kind, whatever its residues. Any other that is longer is refused by 4 or lower, with none of them as well.
pub fn opening_of(taken: Arrived) -> Arrived
    ensures { (result.head ≡ opening_head taken.head taken.count) × (result.count ≡ opening_count taken.head taken.count) × (result.count ≤ 2048) × (result.count ≤ taken.count) }
{
    let head = taken.head;
    let count = taken.count;
    if count <= 2048 {
        return taken;
    }
    if head.kind != 2 {
        return Arrived { head, count: 0 };
    }
    if count != sent_count(head) {
        return Arrived { head, count: 0 };
    }
    Arrived {
        head: shrunk_of(head),
        count: 2,
    }
}
