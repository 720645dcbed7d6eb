// Windows of days (RULES 12): an end's share of a window of its day shares, the share of the next window, and runs of flags.
// For hosts: window_share, next_window, flags_fit; on bytes: share_on, next_on, flags_on.
//   fits    which moduli, windows and runs fit
//   days    the days that a call uses: residues, their sum, and a move
//   bytes   the entries on bytes
#![tactic(auto)]

mod bytes;
mod days;
mod fits;

ghost use Rattle.std.specs.Prelude.{◌≡◌};
ghost use Rattle.protocol.specs.Judge.{reply_of};
ghost use Rattle.protocol.specs.Window.{window_share, next_window, flags_fit};
ghost use Rattle.field.specs.Field.{residue_reply};
ghost use Rattle.judging.specs.InOrder.{checked};

pub use bytes::{Share, flags_on, next_on, share_on};
use days::{add_days, move_on};
use fits::{check_window, next_fits, run_fits, window_fits};
use judging::{Check, need, worst};
use protocol::Refusal;
use vectors::all_below;

// The share of the window of w days from day `first` on.
pub fn window_share(q: u32, shares: &[u32], first: usize, w: usize) -> Result<u32, Refusal>
    ensures { residue_reply result ≡ reply_of 0 (window_share q shares.now first w) }
{
    check_window(q, window_fits(q, shares.len(), first, w))?;
    add_days(q, &shares[first..first + w])
}

// The share of the window that begins a day after `first`, from that of the window before it: two days are looked at.
pub fn next_window(
    q: u32,
    shares: &[u32],
    first: usize,
    w: usize,
    share: u32,
) -> Result<u32, Refusal>
    ensures { residue_reply result ≡ reply_of 0 (next_window q shares.now first w share) }
{
    check_window(q, next_fits(q, shares.len(), first, w))?;
    move_on(q, share, shares[first + w], shares[first])
}

// A run of flags: 1 for a day that was missed, 0 for any other.
pub fn flags_fit(flags: &[u32]) -> Check
    ensures { checked result ≡ flags_fit flags.now }
{
    let size = need(Refusal::Size, run_fits(flags.len()));
    let residue = need(Refusal::Residue, all_below(2, flags));
    worst(size, residue)
}
