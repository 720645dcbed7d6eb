// A message's kind and size.
//   kind_known, kind_field, kind_sides_fit   its kind, its modulus and its sides
//   last_kind, last_fits                     the kind of a session's last message
//   message_size, side_size, has_room        how many residues it has, and room for them
//   no_head                                  the head where nothing is sent
ghost use Rattle.std.specs.Prelude.{◌≡◌, ◌+◌, ◌*◌, ◌≤◌, leb, get_or};
ghost use Rattle.protocol.specs.Bounds.{sides_fit};
ghost use Rattle.protocol.specs.Message.{kind_known, kind_sort, last_kind, last_fits, message_layout, message_size, no_message};
ghost use Rattle.protocol.specs.System.{side_size};
ghost use Rattle.field.specs.Field.{made, sort_field_of};

use field::Field;
use protocol::{Head, Refusal, SessionId, TapeId, Terms};
use sides::Matrix;
use vectors::times;

pub fn kind_known(kind: u32) -> bool
    ensures { result ≡ kind_known kind }
{
    (1..=6).contains(&kind)
}

// The field of a message's modulus. Kinds 3 to 6 are of systems, whose modulus is prime.
pub fn kind_field(kind: u32, q: u32) -> Result<Field, Refusal>
    ensures { made result ≡ sort_field_of (kind_sort kind) q }
{
    if kind <= 2 {
        return Field::new(q);
    }
    Field::of_system(q)
}

pub fn kind_sides_fit(kind: u32, m: u32, k: u32, p: u32) -> bool
    ensures { result ≡ sides_fit (kind_sort kind) m k p }
{
    if kind <= 2 {
        return Matrix::sides_fit(m, k, p);
    }
    Matrix::system_sides_fit(m, k, p)
}

// The kind of the solver's last message: 6 where the determinant is asked for, and else 5.
pub fn last_kind(t: Terms) -> u32
    ensures { result ≡ last_kind t.m t.p }
{
    if t.p == t.m { 6 } else { 5 }
}

// Kinds 5 and 6 each have their own sides.
pub fn last_fits(kind: u32, t: Terms) -> bool
    ensures { result ≡ last_fits kind t.m t.p }
{
    if kind <= 4 {
        return true;
    }
    kind == last_kind(t)
}

// How many residues x, y, c, s, t and z have.
pub fn side_size(t: Terms) -> usize
    ensures { result ≡ side_size t }
{
    times(t.m, t.p.saturating_sub(t.m))
}

// The first and the second part of a message.
fn first_part(kind: u32, t: Terms) -> usize
    ensures { result ≡ get_or (message_layout kind t.m t.k t.p) 0 0 }
{
    match kind {
        1 => times(t.k, t.p),
        2 | 3 | 4 => times(t.m, t.k),
        5 => side_size(t),
        _ => 1,
    }
}

fn second_part(kind: u32, t: Terms) -> usize
    ensures { result ≡ get_or (message_layout kind t.m t.k t.p) 1 0 }
{
    match kind {
        2 => times(t.m, t.p),
        4 => side_size(t),
        _ => 0,
    }
}

// How many residues a message has.
pub fn message_size(kind: u32, t: Terms) -> usize
    requires { t.m * t.k + t.m * t.p ≤ 4096 }
    ensures { result ≡ message_size kind t }
{
    first_part(kind, t) + second_part(kind, t)
}

// A message has room; any sides may be handed over.
pub fn has_room(kind: u32, t: Terms, room: usize) -> bool
    ensures { result ≡ leb (message_size kind t) room }
{
    let first = first_part(kind, t);
    if room < first {
        return false;
    }
    second_part(kind, t) <= room - first
}

pub fn no_head() -> Head
    ensures { result ≡ no_message.head }
{
    Head {
        kind: 0,
        terms: Terms {
            session: SessionId(0),
            tape: TapeId(0),
            q: 0,
            m: 0,
            k: 0,
            p: 0,
        },
    }
}
