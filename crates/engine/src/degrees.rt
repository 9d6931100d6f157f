// How well an answer set satisfies each row of the page. Any page, flag word, set and lent slice will do; a bad one gets the first refusal, and
// nothing is stored.
ghost use Rattle.std.specs.Prelude.{◌≡◌, map, ◌≤◌, length};
ghost use Rattle.lpod.specs.Degree.{degree};
ghost use Rattle.words.specs.Coded.{rules_in};
ghost use Rattle.lanes.specs.Entries.{over};
ghost use Rattle.engine.specs.Degrees as means;

use arrayvec::ArrayVec;
use page::accept;
use page::refusal::Refusal;
use routes::reduct;
use words::{read, row};

// Stores the degree of each row, in row order.
#[tactic(auto, using(crate::proofs::Stored::degrees_over, crate::proofs::Stored::degrees_past), unfolding(words::specs::Coded::rules_in))]
fn store(rows: &[u64], set: u16, out: &mut [u8])
    requires { length rows.now ≤ length out.old }
    ensures { out.new ≡ over (map (degree set) (rules_in rows.now)) out.old }
{
    for (n, &row) in rows.iter().enumerate() {
        out[n] = row::degree(row, set);
    }
}

// The degrees of an answer set, one for each row of the page, at the start of the lent slice; later entries keep their content. Refusals 1 to 9,
// then 11, then 13; else how many degrees are stored.
pub fn degrees(page: &[u8], flags: u16, set: u16, out: &mut [u8]) -> Result<u16, Refusal>
    ensures { means.DegreesSays page.now flags set out.old out.new result }
{
    accept::check_test(page, flags, set)?;
    let mut rows = ArrayVec::new();
    read::put_rows(page, &mut rows);
    let count = rows.len();
    if out.len() < count {
        return Err(Refusal::NoRoom);
    }
    let pairs = read::pair_words(page);
    if !reduct::is_answer(&rows, &pairs, flags, set) {
        return Err(Refusal::NotAnAnswerSet);
    }
    store(&rows, set, out);
    Ok(count as u16)
}
