// The run: dealing into two empty pools of one slot, and the three steps, each message handed on as it was sent.
//   perform  the pools, and dealing into them
//   play     room for the messages and the shares, and what is printed of them
//   steps    the three steps
ghost use Rattle.std.specs.Prelude.{◌≡◌, true, ◌+◌, ◌≤◌, length};
ghost use Rattle.protocol.specs.Judge.{done};
ghost use Rattle.protocol.specs.Bounds.{product, sides_fit};
ghost use Rattle.protocol.specs.Tape.{header_size};
ghost use Rattle.protocol.specs.Rehearsal.{rehearsal_tests, slot_size, run};
ghost use Rattle.judging.specs.InOrder.{judged};
ghost use Rattle.rehearse_lines.specs.Prints.{MOST, run_of};
ghost use Rattle.rehearse.specs.Order.{input_of, Prints};
ghost use Rattle.rehearse.specs.Rooms.{Rooms, DealtFor};

use crate::Input;
use dealer::deal_product;
use product::{left_step, right_first, right_last};
use protocol::{Head, Incoming, Terms};
use rehearse_lines::print;
use tape::half::half_size;
use tape::{End, Place};
use vectors::times;

// The heads of the two messages.
#[derive(Clone, Copy)]
pub struct Heads {
    pub one: Head,
    pub two: Head,
}

// The messages' residues and the shares go into the last four, which have their lengths.
fn steps(
    i: Input,
    first: &mut [u32],
    second: &mut [u32],
    y1: &mut [u32],
    x1r1: &mut [u32],
    u: &mut [u32],
    v: &mut [u32],
) -> Heads
    ensures { DealtFor (input_of i.entry) first.old second.old
        → Rooms i.entry.terms (length y1.old) (length x1r1.old) (length u.old) (length v.old)
        → run_of result.one y1.new result.two x1r1.new u.new v.new ≡ run (input_of i.entry) }
{
    let at = Place {
        size: first.len(),
        index: 0,
    };
    let sent = right_first(second, at, i.terms, i.y, y1);
    let one = sent.head;
    let open = sent.session;
    let received = Incoming {
        head: one,
        residues: y1,
    };
    let replied = left_step(first, at, i.terms, i.x, i.left, received, x1r1, u);
    let two = replied.head;
    let answered = Incoming {
        head: two,
        residues: x1r1,
    };
    right_last(second, at, open, answered, v);
    Heads { one, two }
}

// The steps in pools that were dealt, and what is printed of the run.
fn play(i: Input, first: &mut [u32], second: &mut [u32], out: &mut [u8]) -> usize
    requires { (sides_fit product i.terms.m i.terms.k i.terms.p ≡ true) × (MOST ≤ length out.old) }
    ensures { DealtFor (input_of i.entry) first.old second.old
        → Prints (done (run (input_of i.entry))) result out.old out.new }
{
    let t = i.terms;
    let kp = times(t.k, t.p);
    let mp = times(t.m, t.p);
    let reply = times(t.m, t.k) + mp;
    let mut y1 = [0u32; 2048];
    let mut x1r1 = [0u32; 3072];
    let mut u = [0u32; 1024];
    let mut v = [0u32; 1024];
    let y1 = &mut y1[..kp];
    let x1r1 = &mut x1r1[..reply];
    let u = &mut u[..mp];
    let v = &mut v[..mp];
    let heads = steps(i, first, second, y1, x1r1, u, v);
    print::result(heads.one, y1, heads.two, x1r1, u, v, out)
}

// A slot's words, for the larger of the two halves.
fn slot_size(t: Terms) -> usize
    requires { sides_fit product t.m t.k t.p ≡ true }
    ensures { (result ≡ slot_size t) × (result ≤ header_size + 3072) }
{
    half_size(End::Left, t).max(half_size(End::Right, t))
}

// What is printed where all that the calls need holds.
pub fn perform(i: Input, out: &mut [u8]) -> usize
    requires { (judged (rehearsal_tests (input_of i)) ≡ done tt) × (MOST ≤ length out.old) }
    ensures { Prints (done (run (input_of i.entry))) result out.old out.new }
{
    let t = i.terms;
    let size = slot_size(t);
    let mut first = [0u32; 4096];
    let mut second = [0u32; 4096];
    let first = &mut first[..size];
    let second = &mut second[..size];
    let at = Place { size, index: 0 };
    let _ = deal_product(first, second, at, t.tape, t.q, t.m, t.k, t.p, i.dealer);
    play(i, first, second, out)
}
