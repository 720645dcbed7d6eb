// The tests that an entry makes by itself (RULES 11.4), and the report of a refusal.
//   check_session, check_first   the lengths of what is lent; a first step's record is free
//   refused                      the report of the lower of two refusals
ghost use Rattle.std.specs.Prelude.{◌≡◌, [], ◌∷◌, ◌++◌, eqb};
ghost use Rattle.protocol.specs.declared.Refusal.TheVariants.{Turn};
ghost use Rattle.protocol.specs.Judge.{needs};
ghost use Rattle.judging.specs.InOrder.{checked, judged};
ghost use Rattle.entry.specs.Entry.{refusal_report, record_tests, whole_tests};
ghost use Rattle.local.specs.Stored.{lower_of};

use crate::record;
use entry::Report;
use judging::{Check, need, worst};
use protocol::{Answer, Refusal};

// Whole words.
fn check_whole(n: usize) -> Check
    ensures { checked result ≡ judged (whole_tests n) }
{
    need(Refusal::Size, n % 4 == 0)
}

fn check_record(n: usize) -> Check
    ensures { checked result ≡ judged (record_tests n) }
{
    need(Refusal::Size, n == record::SIZE)
}

// How many bytes are lent.
pub fn check_session(session: usize, pool: usize, scratch: usize, res: usize) -> Check
    ensures { checked result ≡ judged (record_tests session ++ (whole_tests pool ++ (whole_tests scratch ++ whole_tests res))) }
{
    let size = check_record(session);
    let one = check_whole(pool);
    let two = check_whole(scratch);
    let three = check_whole(res);
    worst(size, worst(one, worst(two, three)))
}

// Beside these, of a first step.
pub fn check_first(due: u32, input: usize, words: usize) -> Check
    ensures { checked result ≡ judged (whole_tests input ++ (whole_tests words ++ (needs Turn (eqb due 0) ∷ []))) }
{
    let one = check_whole(input);
    let two = check_whole(words);
    let free = need(Refusal::Turn, due == 0);
    worst(one, worst(two, free))
}

// The lower of an entry's own refusal and of its step's.
pub fn refused(own: Check, answer: Answer) -> Report
    ensures { result ≡ refusal_report (lower_of own answer) }
{
    let Err(r) = own else {
        return Report::from(Refusal::Form);
    };
    let Err(step) = answer else {
        return Report::from(r);
    };
    if step < r {
        Report::from(step)
    } else {
        Report::from(r)
    }
}
