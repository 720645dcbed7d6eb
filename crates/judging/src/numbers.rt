// The checks of a session's numbers, of its slot's, and of a message's. None reads a word of a pool.
ghost use Rattle.std.specs.Prelude.{◌≡◌, ◌++◌, true};
ghost use Rattle.protocol.specs.Bounds.{sides_fit};
ghost use Rattle.protocol.specs.Message.{kind_sort};
ghost use Rattle.field.specs.Field.{made, sort_field_of, field_judged};
ghost use Rattle.judging.specs.InOrder.{checked, judged};
ghost use Rattle.tape.specs.Ends.{role, sort, joint};
ghost use Rattle.judging.specs.Groups.{modulus_tests, kind_tests, number_tests, head_tests, place_tests, id_tests, count_tests, message_numbers, same_tests};

use crate::Check;
use crate::message::{kind_field, kind_known, kind_sides_fit, last_fits, message_size};
use crate::order::{need, worst};
use field::Field;
use protocol::{Head, Refusal, Terms};
use sides::Matrix;
use tape::half::half_size;
use tape::{End, Place, is_slot};

// ---- the modulus

// The field of a session's modulus: that of a system is prime.
fn end_field(end: End, q: u32) -> Result<Field, Refusal>
    ensures { made result ≡ sort_field_of (sort end) q }
{
    match end {
        End::Left | End::Right => Field::new(q),
        End::Blinder | End::Solver => Field::of_system(q),
    }
}

// The refusal is handed on where no field was made.
fn check_field(answer: Result<Field, Refusal>) -> Check
    ensures { checked result ≡ field_judged answer }
{
    answer?;
    Ok(())
}

pub fn check_modulus(end: End, q: u32) -> Check
    ensures { checked result ≡ judged (modulus_tests (sort end) q) }
{
    check_field(end_field(end, q))
}

pub fn check_kind(a: Head) -> Check
    ensures { checked result ≡ judged (kind_tests a) }
{
    let t = a.terms;
    let kind = need(Refusal::Form, kind_known(a.kind));
    let modulus = check_field(kind_field(a.kind, t.q));
    worst(kind, modulus)
}

// The field of a message and a session with one modulus.
fn joint_field(kind: u32, end: End, q: u32) -> Result<Field, Refusal>
    ensures { made result ≡ sort_field_of (joint (kind_sort kind) (sort end)) q }
{
    if kind <= 2 {
        return end_field(end, q);
    }
    Field::of_system(q)
}

// A message's kind and modulus, and the session's modulus. Where both are one number, it is tested once.
pub fn check_moduli(a: Head, end: End, q: u32) -> Check
    ensures { checked result ≡ judged (kind_tests a ++ modulus_tests (sort end) q) }
{
    let t = a.terms;
    if t.q != q {
        return worst(check_kind(a), check_modulus(end, q));
    }
    let kind = need(Refusal::Form, kind_known(a.kind));
    let modulus = check_field(joint_field(a.kind, end, q));
    worst(kind, modulus)
}

// ---- sizes

pub fn sides_fit(end: End, m: u32, k: u32, p: u32) -> bool
    ensures { result ≡ sides_fit (sort end) m k p }
{
    match end {
        End::Left | End::Right => Matrix::sides_fit(m, k, p),
        End::Blinder | End::Solver => Matrix::system_sides_fit(m, k, p),
    }
}

// Of the sides is told whether they fit.
fn check_ids(t: Terms, fits: bool) -> Check
    ensures { checked result ≡ judged (id_tests t fits) }
{
    let session = t.session;
    let tape = t.tape;
    let first = need(Refusal::Size, 1 <= session.0);
    let sides = need(Refusal::Size, fits);
    let second = need(Refusal::Size, 1 <= tape.0);
    worst(first, worst(sides, second))
}

// A session's numbers, its sides, and the slot with its half.
pub fn check_sizes(end: End, t: Terms, pool: usize, at: Place) -> Check
    ensures { checked result ≡ judged (number_tests (sort end) t ++ place_tests (role end) t pool at.size at.index) }
{
    check_ids(t, sides_fit(end, t.m, t.k, t.p))?;
    let slot = need(Refusal::Size, is_slot(pool, at));
    let half = need(Refusal::Size, half_size(end, t) <= at.size);
    worst(slot, half)
}

// What a message shows by its head and its count of residues.
pub fn check_head(a: Head, count: usize) -> Check
    ensures { checked result ≡ judged (head_tests a ++ count_tests a count) }
{
    let t = a.terms;
    let last = need(Refusal::Size, last_fits(a.kind, t));
    let numbers = check_ids(t, kind_sides_fit(a.kind, t.m, t.k, t.p));
    worst(last, numbers)?;
    need(Refusal::Size, count == message_size(a.kind, t))
}

// All that a message shows by itself but its residues.
pub fn check_message(a: Head, count: usize) -> Check
    ensures { checked result ≡ judged (message_numbers a count) }
{
    let kind = check_kind(a);
    let head = check_head(a, count);
    worst(kind, head)
}

// The message bears the session's numbers.
pub fn check_same(a: Head, t: Terms) -> Check
    ensures { checked result ≡ judged (same_tests a t) }
{
    need(Refusal::Stranger, a.terms == t)
}
