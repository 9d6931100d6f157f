// The pick: the lowest-numbered best set.
ghost use Rattle.engine.specs.Calls as means;

use lanes::sets;
use page::accept;
use page::refusal::Refusal;
use words::read;

// Refusals 1 to 9, then 10 where there is no answer set; else the lowest-numbered best set. The empty set is a good pick.
pub fn pick(page: &[u8], flags: u16) -> Result<u16, Refusal>
    ensures { means.PickSays page.now flags result }
{
    accept::check_flags(page, flags)?;
    let mut words = [0; 32];
    read::fill_rows(page, &mut words);
    let rows = &words[..read::row_total(page)];
    let pairs = read::pair_words(page);
    sets::pick(rows, &pairs, flags).ok_or(Refusal::NoAnswerSet)
}
