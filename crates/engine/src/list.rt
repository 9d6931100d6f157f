// The answer sets of a page and a flag word, or the best of them, rising, in lent memory. The sets are counted before the first is stored, so
// that a slice that is too short is left as it was.
ghost use Rattle.page.specs.Program.{program};
ghost use Rattle.lanes.specs.Sets.{wanted};
ghost use Rattle.engine.specs.Calls as means;

use lanes::sets;
pub use lanes::sets::Which;
use page::accept;
use page::refusal::Refusal;
use words::read;

// Refusals 1 to 9, then 11 for a slice that is too short; else how many sets are stored at the start of the slice.
pub fn sets(page: &[u8], flags: u16, which: Which, out: &mut [u16]) -> Result<u32, Refusal>
    ensures { means.SetsSay (wanted which (program page.now flags)) page.now flags out.old result out.new }
{
    accept::check_flags(page, flags)?;
    let mut words = [0; 32];
    read::fill_rows(page, &mut words);
    let rows = &words[..read::row_total(page)];
    let pairs = read::pair_words(page);
    let count = sets::sets(rows, &pairs, flags, which, out);
    if out.len() < count as usize {
        return Err(Refusal::NoRoom);
    }
    Ok(count)
}

// All answer sets.
#[tactic(auto, unfolding(lanes::specs::Sets::wanted))]
pub fn list(page: &[u8], flags: u16, out: &mut [u16]) -> Result<u32, Refusal>
    ensures { means.ListSays page.now flags out.old result out.new }
{
    sets(page, flags, Which::All, out)
}
