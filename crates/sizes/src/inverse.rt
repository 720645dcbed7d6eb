// A square matrix handed over as bytes: its numbers are judged first, and then its words.
//   check_matrix   all its tests
ghost use Rattle.std.specs.Prelude.{◌≡◌, true, ◌*◌, ◌<◌, ◌≤◌, length};
ghost use Rattle.algebra.specs.Prime.{is_prime};
ghost use Rattle.entry.specs.Bytes.{words_of};
ghost use Rattle.judging.specs.InOrder.{checked, judged};
ghost use Rattle.sizes.specs.Inverse.{inverse_tests, is_square, square_tests, matrix_tests, Square};

use elimination::has_inverse;
use judging::numbers::check_modulus;
use judging::{Check, need, worst};
use protocol::Refusal;
use sides::Matrix;
use tape::End;
use vectors::{all_below, times};
use words::get_words;

// So many bytes are n × n words.
#[tactic(auto, unfolding(crate::specs::Inverse::is_square, algebra::specs::Count::both))]
fn is_square(n: u32, bytes: usize) -> bool
    ensures { result ≡ is_square n bytes }
{
    Matrix::unknowns_fit(n) && bytes % 4 == 0 && bytes / 4 == times(n, n)
}

fn check_square(q: u32, n: u32, bytes: usize) -> Check
    ensures { checked result ≡ judged (square_tests q n bytes) }
{
    let modulus = check_modulus(End::Blinder, q);
    let size = need(Refusal::Size, is_square(n, bytes));
    worst(modulus, size)
}

// Residues, and then a matrix that has an inverse.
fn check_inverse(q: u32, n: u32, words: &[u32]) -> Check
    requires { (is_prime q ≡ true) × (q < 2147483648) × (n ≤ 16) × (length words.now ≡ n * n) }
    ensures { checked result ≡ judged (matrix_tests q n words.now) }
{
    need(Refusal::Residue, all_below(q, words))?;
    need(Refusal::Singular, has_inverse(q, n as usize, words))
}

fn check_words(q: u32, n: u32, bytes: &[u8]) -> Check
    requires { Square q n (length bytes.now) }
    ensures { checked result ≡ judged (matrix_tests q n (words_of bytes.now)) }
{
    let nn = times(n, n);
    let mut words = [0u32; 256];
    get_words(nn, bytes, &mut words);
    check_inverse(q, n, &words[..nn])
}

pub fn check_matrix(q: u32, n: u32, bytes: &[u8]) -> Check
    ensures { checked result ≡ judged (inverse_tests q n bytes.now) }
{
    check_square(q, n, bytes.len())?;
    check_words(q, n, bytes)
}
