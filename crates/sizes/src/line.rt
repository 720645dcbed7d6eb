// The longest line of a kind: session and tape have the most digits, and every residue is q − 1.
//   kind_fits     a kind, and a modulus and sides of its sort and its own
//   line_length   the bytes of the line
ghost use Rattle.std.specs.Prelude.{◌≡◌, true, length};
ghost use Rattle.algebra.specs.Count.{both};
ghost use Rattle.protocol.specs.Bounds.{within, largest_modulus, field_fits};
ghost use Rattle.protocol.specs.Message.{kind_sort};
ghost use Rattle.protocol.specs.Line.{message_line};
ghost use Rattle.sizes.specs.Sizes.{longest_terms, longest_message, kind_fits};

use decimal::digit_count;
use field::Field;
use judging::message::{kind_known, kind_sides_fit, last_fits, message_size};
use prime::is_prime;
use protocol::{SessionId, TapeId, Terms};

const LARGEST_ID: u32 = 4294967295;

fn longest_terms(q: u32, m: u32, k: u32, p: u32) -> Terms
    ensures { result ≡ longest_terms q m k p }
{
    Terms {
        session: SessionId(LARGEST_ID),
        tape: TapeId(LARGEST_ID),
        q,
        m,
        k,
        p,
    }
}

// Kinds 3 to 6 are of systems, whose modulus is prime.
#[tactic(auto, unfolding(algebra::specs::Count::both, protocol::specs::Bounds::within, protocol::specs::Bounds::field_fits, protocol::specs::Message::kind_sort))]
fn modulus_fits(kind: u32, q: u32) -> bool
    ensures { result ≡ both (within 2 largest_modulus q) (field_fits (kind_sort kind) q) }
{
    (2..=Field::LARGEST).contains(&q) && (kind <= 2 || is_prime(q))
}

#[tactic(auto, unfolding(crate::specs::Sizes::kind_fits, algebra::specs::Count::both))]
pub fn kind_fits(kind: u32, q: u32, m: u32, k: u32, p: u32) -> bool
    ensures { result ≡ kind_fits kind q m k p }
{
    kind_known(kind)
        && kind_sides_fit(kind, m, k, p)
        && last_fits(kind, longest_terms(q, m, k, p))
        && modulus_fits(kind, q)
}

pub fn line_length(kind: u32, q: u32, m: u32, k: u32, p: u32) -> usize
    requires { kind_fits kind q m k p ≡ true }
    ensures { result ≡ length (message_line (longest_message kind q m k p)) }
{
    let residues = message_size(kind, longest_terms(q, m, k, p));
    let head = [kind, LARGEST_ID, LARGEST_ID, q, m, k, p];
    decimal::line_length(&head) + residues * (digit_count(q - 1) + 1)
}
