// The best sets: the answer sets to which no answer set is preferred.
ghost use Rattle.engine.specs.Calls as means;

use crate::list;
use page::refusal::Refusal;

// The best sets, rising, in lent memory; refusals as for the list of all. It and `list` are `sets` under the names that C and the docs have.
#[tactic(auto, unfolding(lanes::specs::Sets::wanted))]
pub fn best(page: &[u8], flags: u16, out: &mut [u16]) -> Result<u32, Refusal>
    ensures { means.BestSays page.now flags out.old result out.new }
{
    list::sets(page, flags, list::Which::Best, out)
}
