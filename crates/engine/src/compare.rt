// Which of two answer sets is preferred. Any page, flag word and sets will do; a bad one gets the first refusal.
ghost use Rattle.std.specs.Prelude.{◌≡◌, ◌&&◌, []};
ghost use Rattle.lpod.specs.Answer.{answer};
ghost use Rattle.lpod.specs.Preferred as ranks;
ghost use Rattle.words.specs.Coded.{program_in};
ghost use Rattle.engine.specs.Compare as means;

use super::rank;
use arrayvec::ArrayVec;
use page::accept;
use page::refusal::Refusal;
use routes::reduct;
use words::read;

// Which of the two sets is preferred to the other.
#[derive(Clone, Copy, Debug, PartialEq, Eq)]
pub enum Side {
    First,
    Second,
    Neither,
}

// Both sets are answer sets.
fn both_answer(rows: &[u64], pairs: &[u16], flags: u16, first: u16, second: u16) -> bool
    ensures { result ≡ (answer (program_in rows.now pairs.now flags) first && answer (program_in rows.now pairs.now flags) second) }
{
    reduct::is_answer(rows, pairs, flags, first) && reduct::is_answer(rows, pairs, flags, second)
}

// The comparison of any two sets.
#[tactic(auto, unfolding(lpod::specs::Preferred::compare))]
fn side_of(rows: &[u64], flags: u16, first: u16, second: u16) -> Side
    ensures { means.side_number result ≡ ranks.compare (program_in rows.now [] flags) first second }
{
    if rank::preferred(rows, flags, first, second) {
        Side::First
    } else if rank::preferred(rows, flags, second, first) {
        Side::Second
    } else {
        Side::Neither
    }
}

// The comparison of two answer sets: refusals 1 to 9, then 13 where one of them is none.
pub fn compare(page: &[u8], flags: u16, first: u16, second: u16) -> Result<Side, Refusal>
    ensures { means.CompareSays page.now flags first second result }
{
    accept::check_test(page, flags, first)?;
    accept::check_set(page, second)?;
    let mut rows = ArrayVec::new();
    read::put_rows(page, &mut rows);
    let pairs = read::pair_words(page);
    if !both_answer(&rows, &pairs, flags, first, second) {
        return Err(Refusal::NotAnAnswerSet);
    }
    Ok(side_of(&rows, flags, first, second))
}
