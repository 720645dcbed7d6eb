// The days that a call uses: each must be a residue.
//   add_days   their sum modulo q
//   move_on    a share, with one day more and one less
ghost use Rattle.std.specs.Prelude.{◌≡◌, [], ◌∷◌, ◌%◌, ◌<◌, ◌≤◌, length};
ghost use Rattle.std.specs.List.{sum as plain_sum};
ghost use Rattle.protocol.specs.Bounds.{all_below};
ghost use Rattle.protocol.specs.Judge.{reply_of, judge};
ghost use Rattle.protocol.specs.Window.{sum, share_tests, moved};
ghost use Rattle.field.specs.Field.{residue_reply};

use protocol::Refusal;
use reduction::reduce_once;
use vectors::all_below;

fn total(days: &[u32]) -> u64
    requires { length days.now ≤ 2048 }
    ensures { result ≡ plain_sum days.now }
{
    days.iter().map(|&day| u64::from(day)).sum()
}

pub fn add_days(q: u32, days: &[u32]) -> Result<u32, Refusal>
    requires { (0 < q) × (length days.now ≤ 2048) }
    ensures { residue_reply result ≡ reply_of 0 (judge (share_tests q days.now) (sum days.now % q)) }
{
    if !all_below(q, days) {
        return Err(Refusal::Residue);
    }
    Ok((total(days) % u64::from(q)) as u32)
}

// Whether all three words are residues: the largest is compared alone. Where a flag was gathered of all three, the compiler made a branch for each.
fn three_below(q: u32, share: u32, new: u32, oldest: u32) -> bool
    ensures { result ≡ all_below q (share ∷ new ∷ oldest ∷ []) }
{
    share.max(new).max(oldest) < q
}

// Day shares are secret: all three words are tested at once, with one branch, and nothing else is chosen by them.
pub fn move_on(q: u32, share: u32, new: u32, oldest: u32) -> Result<u32, Refusal>
    requires { q < 2147483648 }
    ensures { residue_reply result ≡ reply_of 0 (judge (share_tests q (share ∷ new ∷ oldest ∷ [])) (moved q share new oldest)) }
{
    if !three_below(q, share, new, oldest) {
        return Err(Refusal::Residue);
    }
    let sum = reduce_once(share + new, q);
    Ok(reduce_once(sum + (q - oldest), q))
}
