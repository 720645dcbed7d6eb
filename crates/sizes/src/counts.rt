// Words and residues by the sides; 0 where they are out of bounds.
//   half_words               an end's half
//   scratch                  the blinder's scratch, and its coins
//   coins                    left's coins
//   product_draws, system_draws   a dealing
#![tactic(auto, unfolding(crate::specs::Sizes::in_bounds, protocol::specs::System::scratch_size, protocol::specs::Deal::draw_size, protocol::specs::Bounds::sides_fit, protocol::specs::Bounds::within, algebra::specs::Count::both))]

ghost use Rattle.std.specs.Prelude.{◌≡◌, [], ◌*◌};
ghost use Rattle.protocol.specs.Bounds.{product, system};
ghost use Rattle.protocol.specs.Tape.{tape_size};
ghost use Rattle.protocol.specs.System.{scratch_size};
ghost use Rattle.protocol.specs.Deal.{draw_size};
ghost use Rattle.tape.specs.Ends.{role, sort};
ghost use Rattle.entry.specs.Entry.{request_of};
ghost use Rattle.sizes.specs.Sizes.{in_bounds, sided};

use judging::numbers::sides_fit;
use protocol::{SessionId, TapeId, Terms};
use sides::Matrix;
use tape::End;
use tape::half::half_size;
use vectors::times;

// The header and the matrices.
pub fn half_words(end: End, m: u32, k: u32, p: u32) -> usize
    ensures { result ≡ in_bounds (sort end) m k p (tape_size (role end) m k p) }
{
    if !sides_fit(end, m, k, p) {
        return 0;
    }
    let terms = Terms {
        session: SessionId(0),
        tape: TapeId(0),
        q: 0,
        m,
        k,
        p,
    };
    half_size(end, terms)
}

// P and U0.
pub fn scratch(m: u32, k: u32, p: u32) -> usize
    ensures { result ≡ in_bounds system m k p (scratch_size (sided m k p)) }
{
    if !Matrix::system_sides_fit(m, k, p) {
        return 0;
    }
    times(m, m) + times(m, p)
}

// U.
pub fn coins(m: u32, k: u32, p: u32) -> usize
    ensures { result ≡ in_bounds product m k p (m * p) }
{
    if !Matrix::sides_fit(m, k, p) {
        return 0;
    }
    times(m, p)
}

// X0, Y0 and A0.
pub fn product_draws(m: u32, k: u32, p: u32) -> usize
    ensures { result ≡ in_bounds product m k p (draw_size (request_of product 0 0 m k p [])) }
{
    if !Matrix::sides_fit(m, k, p) {
        return 0;
    }
    times(m, k) + times(k, p) + times(m, p)
}

// The same, and Q, R and G, each with as many residues as X0.
pub fn system_draws(m: u32, k: u32, p: u32) -> usize
    ensures { result ≡ in_bounds system m k p (draw_size (request_of system 0 0 m k p [])) }
{
    if !Matrix::system_sides_fit(m, k, p) {
        return 0;
    }
    4 * times(m, k) + times(k, p) + times(m, p)
}
