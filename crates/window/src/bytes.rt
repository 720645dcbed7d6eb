// The entries on bytes (RULES 12.3): the call on the words that the bytes are, and a run that is not whole words is refused.
//   share_on, next_on   the share of a window, and of the next one
//   flags_on            a run of flags
//   Share               an answer, by its number and its share
ghost use Rattle.std.specs.Prelude.{◌≡◌, [], ◌∷◌, ◌++◌, ℕ, ◌*◌, ◌/◌, ◌%◌, ◌<◌, ◌≤◌, length, take};
ghost use Rattle.protocol.specs.declared.Refusal.TheVariants.{Modulus, Size, Residue};
ghost use Rattle.protocol.specs.Judge.{needs, Reply, reply_of, judge};
ghost use Rattle.protocol.specs.Bounds.{largest_modulus, within, all_below};
ghost use Rattle.protocol.specs.Window.{sum, share_tests};
ghost use Rattle.field.specs.Field.{residue_reply};
ghost use Rattle.judging.specs.InOrder.{checked, judged};
ghost use Rattle.entry.specs.Bytes.{words_of};
ghost use Rattle.entry.specs.Entry.{whole_tests};
ghost use Rattle.window.specs.Entries.{window_share_on, next_window_on, flags_fit_on, flags_number, flags_tests_on};

use crate::days::{add_days, move_on};
use crate::fits::{check_window, next_fits, run_fits, window_fits};
use judging::{Check, need, worst};
use protocol::Refusal;
use vectors::all_below;
use words::{get_words, word_at};

// The number of an answer, and the share: 0 at a refusal.
#[repr(C)]
#[derive(Clone, Copy)]
pub struct Share {
    pub number: u32,
    pub share: u32,
}

impl From<Result<u32, Refusal>> for Share {
    ghost from_gives = { λ answer s. ◌≡◌ {A = Reply ℕ} (record { number = s.number; values = s.share }) (residue_reply answer) };

    fn from(answer: Result<u32, Refusal>) -> Share {
        match answer {
            Ok(share) => Share { number: 0, share },
            Err(r) => Share {
                number: u32::from(r),
                share: 0,
            },
        }
    }
}

// So many bytes are whole words, and a window's numbers.
fn check_bytes(bytes: usize, q: u32, fits: bool) -> Check
    ensures { checked result ≡ judged (whole_tests bytes ++ (needs Modulus (within 2 largest_modulus q) ∷ needs Size fits ∷ [])) }
{
    let whole = need(Refusal::Size, bytes % 4 == 0);
    let numbers = check_window(q, fits);
    worst(whole, numbers)
}

// The first w words of the bytes, added.
fn add_words(q: u32, w: usize, bytes: &[u8]) -> Result<u32, Refusal>
    requires { (0 < q) × (w ≤ 2048) × (w * 4 ≤ length bytes.now) }
    ensures { residue_reply result
        ≡ reply_of 0 (judge (share_tests q (take w (words_of bytes.now))) (sum (take w (words_of bytes.now)) % q)) }
{
    let mut words = [0u32; 2048];
    get_words(w, bytes, &mut words);
    add_days(q, &words[..w])
}

fn window_share_on(q: u32, shares: &[u8], first: usize, w: usize) -> Result<u32, Refusal>
    ensures { residue_reply result ≡ reply_of 0 (window_share_on q shares.now first w) }
{
    let n = shares.len();
    check_bytes(n, q, window_fits(q, n / 4, first, w))?;
    add_words(q, w, &shares[first * 4..])
}

// The share of the window of w days from day `first` on.
pub fn share_on(q: u32, shares: &[u8], first: usize, w: usize) -> Share
    ensures { ◌≡◌ {A = Reply ℕ} (record { number = result.number; values = result.share }) (reply_of 0 (window_share_on q shares.now first w)) }
{
    Share::from(window_share_on(q, shares, first, w))
}

// Eight bytes of the run are looked at.
fn next_window_on(q: u32, shares: &[u8], first: usize, w: usize, share: u32) -> Result<u32, Refusal>
    ensures { residue_reply result ≡ reply_of 0 (next_window_on q shares.now first w share) }
{
    let n = shares.len();
    check_bytes(n, q, next_fits(q, n / 4, first, w))?;
    let new = word_at(shares, (first + w) * 4);
    move_on(q, share, new, word_at(shares, first * 4))
}

// The share of the window that begins a day after `first`, from that of the window before it.
pub fn next_on(q: u32, shares: &[u8], first: usize, w: usize, share: u32) -> Share
    ensures { ◌≡◌ {A = Reply ℕ} (record { number = result.number; values = result.share }) (reply_of 0 (next_window_on q shares.now first w share)) }
{
    Share::from(next_window_on(q, shares, first, w, share))
}

// Whole words, of which there are 1 to 2,048.
fn check_run(bytes: usize) -> Check
    ensures { checked result ≡ judged (flags_tests_on bytes) }
{
    let whole = need(Refusal::Size, bytes % 4 == 0);
    let run = need(Refusal::Size, run_fits(bytes / 4));
    worst(whole, run)
}

fn check_flags(n: usize, bytes: &[u8]) -> Check
    requires { (n ≤ 2048) × (n * 4 ≤ length bytes.now) }
    ensures { checked result ≡ judged (needs Residue (all_below 2 (take n (words_of bytes.now))) ∷ []) }
{
    let mut words = [0u32; 2048];
    get_words(n, bytes, &mut words);
    need(Refusal::Residue, all_below(2, &words[..n]))
}

fn check_all_flags(flags: &[u8]) -> Check
    ensures { checked result ≡ flags_fit_on flags.now }
{
    let n = flags.len();
    check_run(n)?;
    check_flags(n / 4, flags)
}

// 0 for a run of flags; else the lowest number that applies.
#[tactic(auto, unfolding(crate::specs::Entries::flags_number))]
pub fn flags_on(flags: &[u8]) -> u32
    ensures { result ≡ flags_number flags.now }
{
    match check_all_flags(flags) {
        Ok(()) => 0,
        Err(r) => u32::from(r),
    }
}
