// The two sorts of tapes, and what differs between them in a name or a number only.
//   Sort                    a product's tape, and a system's
//   first_end, second_end   the ends of the first and of the second pool
//   masks_count, draw_count how many residues are drawn
ghost use Rattle.std.specs.Prelude.{◌≡◌, true, ◌*◌, ◌≤◌};
ghost use Rattle.protocol.specs.Bounds.{sides_fit};
ghost use Rattle.protocol.specs.Deal.{first_role, second_role};
ghost use Rattle.tape.specs.Ends.{role};
ghost use Rattle.dealer.specs.Sorts.{sort, masks_count, draw_count};

use protocol::Terms;
use tape::End;
use vectors::times;

#[derive(Clone, Copy)]
pub enum Sort {
    Product,
    System,
}

pub fn first_end(s: Sort) -> End
    ensures { role result ≡ first_role (sort s) }
{
    match s {
        Sort::Product => End::Left,
        Sort::System => End::Blinder,
    }
}

pub fn second_end(s: Sort) -> End
    ensures { role result ≡ second_role (sort s) }
{
    match s {
        Sort::Product => End::Right,
        Sort::System => End::Solver,
    }
}

// X0, Y0 and A0.
pub fn masks_count(t: Terms) -> usize
    requires { (t.m * t.k ≤ 2048) × (t.k * t.p ≤ 2048) × (t.m * t.p ≤ 1024) }
    ensures { result ≡ masks_count t.m t.k t.p }
{
    times(t.m, t.k) + (times(t.k, t.p) + times(t.m, t.p))
}

// A system has Q, R and G behind them.
pub fn draw_count(s: Sort, t: Terms) -> usize
    requires { sides_fit (sort s) t.m t.k t.p ≡ true }
    ensures { result ≡ draw_count (sort s) t.m t.k t.p }
{
    let masks = masks_count(t);
    match s {
        Sort::Product => masks,
        Sort::System => {
            let mk = times(t.m, t.k);
            masks + (mk + (mk + mk))
        }
    }
}
