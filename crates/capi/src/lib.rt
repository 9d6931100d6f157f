// The calls as C sees them (include/pipeotter.h): numbers and lent slices, a slice as a pointer and a length. Each answers 65,536 times the
// refusal number plus the value; the letter is a byte, and the display has such a word and the bits of a reading. What a call means is said in
// the crates below; here its answer becomes one word.
#![tactic(auto)]

ghost use Rattle.std.specs.Prelude.{◌≡◌, ◌≤◌};
ghost use Rattle.lpod.specs.Answer.{answer_sets};
ghost use Rattle.lpod.specs.Best.{best_sets};
ghost use Rattle.page.specs.Program.{program};
ghost use Rattle.page.specs.Answers.{answered};
ghost use Rattle.page.specs.Letter.{letter_of};
ghost use Rattle.writer.specs.Content.{content};
ghost use Rattle.engine.specs.Compare.{side_number};
ghost use Rattle.capi.specs.Words as means;

use display::{Readings, Shown};
use engine::compare::Side;
use page::refusal::Refusal;

// The answer as one word: its value, or 65,536 times the number of its refusal.
#[tactic(auto, unfolding(crate::specs::Words::word))]
fn word(answer: Result<u16, Refusal>) -> u32
    ensures { result ≡ means.word (answered 0 answer).no (answered 0 answer).value }
{
    match answer {
        Ok(value) => u32::from(value),
        Err(refusal) => 65536 * u32::from(refusal.number()),
    }
}

// A count that fits the lower half of a word, as one of its width.
fn counted(answer: Result<u32, Refusal>) -> Result<u16, Refusal>
    requires { (answered 0 answer).value ≤ 65535 }
    ensures { result ≡ answer }
{
    match answer {
        Ok(count) => Ok(count as u16),
        Err(refusal) => Err(refusal),
    }
}

// The pick: the lowest-numbered best set.
#[unsafe(no_mangle)]
pub extern "C" fn pipeotter_pick(page: &[u8], flags: u16) -> u32
    ensures { result ≡ means.pick_word page.now flags }
{
    word(engine::pick::pick(page, flags))
}

// Is the set an answer set? By the reduct: 1 yes, 0 no.
#[unsafe(no_mangle)]
pub extern "C" fn pipeotter_reduct_test(page: &[u8], flags: u16, set: u16) -> u32
    ensures { result ≡ means.reduct_word page.now flags set }
{
    word(routes::reduct::reduct_test(page, flags, set).map(u16::from))
}

// The same by here-and-there.
#[unsafe(no_mangle)]
pub extern "C" fn pipeotter_here_there_test(page: &[u8], flags: u16, set: u16) -> u32
    ensures { result ≡ means.here_there_word page.now flags set }
{
    word(routes::here_there::here_there_test(page, flags, set).map(u16::from))
}

// In how many split programs the set is an answer set.
#[unsafe(no_mangle)]
pub extern "C" fn pipeotter_split_test(page: &[u8], flags: u16, set: u16) -> u32
    ensures { result ≡ means.split_word page.now flags set }
{
    word(routes::split::split_test(page, flags, set))
}

// How many rounds add something on the way to the set, an answer set or not.
#[unsafe(no_mangle)]
pub extern "C" fn pipeotter_rounds(page: &[u8], flags: u16, set: u16) -> u32
    ensures { result ≡ means.rounds_word page.now flags set }
{
    word(counted(routes::reduct::rounds(page, flags, set)))
}

// All answer sets, rising, into the lent slice; the value is their number.
#[unsafe(no_mangle)]
pub extern "C" fn pipeotter_list(page: &[u8], flags: u16, sets: &mut [u16]) -> u32
    ensures { means.SetsGiven (answer_sets (program page.now flags)) page.now flags sets.old result sets.new }
{
    word(counted(engine::list::list(page, flags, sets)))
}

// The best sets, likewise.
#[unsafe(no_mangle)]
pub extern "C" fn pipeotter_best(page: &[u8], flags: u16, sets: &mut [u16]) -> u32
    ensures { means.SetsGiven (best_sets (program page.now flags)) page.now flags sets.old result sets.new }
{
    word(counted(engine::best::best(page, flags, sets)))
}

// The degrees of an answer set, one for each row; the value is the number of rows.
#[unsafe(no_mangle)]
pub extern "C" fn pipeotter_degrees(page: &[u8], flags: u16, set: u16, degrees: &mut [u8]) -> u32
    ensures { means.DegreesGiven page.now flags set degrees.old result degrees.new }
{
    word(engine::degrees::degrees(page, flags, set, degrees))
}

// A page made from its parts, in the lent buffer; the value is its length.
#[unsafe(no_mangle)]
pub extern "C" fn pipeotter_write(
    atoms: usize,
    rows: &[u8],
    literals: &[u8],
    pairs: &[u8],
    buffer: &mut [u8],
) -> u32
    ensures { means.PageGiven (content atoms rows.now literals.now pairs.now) buffer.old result buffer.new }
{
    let content = writer::Content {
        atoms,
        rows,
        literals,
        pairs,
    };
    word(writer::write(&content, buffer))
}

// What C gets for a comparison: 1 the first is preferred, 2 the second, 0 neither.
#[tactic(auto, unfolding(crate::specs::Words::side_value))]
fn side_value(side: Side) -> u16
    ensures { result ≡ means.side_value (side_number side) }
{
    match side {
        Side::First => 1,
        Side::Second => 2,
        Side::Neither => 0,
    }
}

// Which of two answer sets is preferred.
#[unsafe(no_mangle)]
pub extern "C" fn pipeotter_compare(page: &[u8], flags: u16, first: u16, second: u16) -> u32
    ensures { result ≡ means.compare_word page.now flags first second }
{
    word(engine::compare::compare(page, flags, first, second).map(side_value))
}

// The panel letter of a refusal number.
#[unsafe(no_mangle)]
pub extern "C" fn pipeotter_letter(number: u16) -> u8
    ensures { result ≡ letter_of number }
{
    page::letter::letter(number)
}

// What C gets for the case that is shown: 0 no number, 1 live, 2 second, 3 held.
#[tactic(auto, unfolding(crate::specs::Words::case_value))]
fn case_value(shown: Shown) -> u16
    ensures { result ≡ means.case_value shown }
{
    match shown {
        Shown::Live(_) => 1,
        Shown::Second(_) => 2,
        Shown::Held(_) => 3,
        Shown::NoNumber => 0,
    }
}

// What the display shows: in the upper half the number and the case as one word, in the lower half the bits of the reading that is shown. Where none
// is, those of a NaN: a caller who does not look at the case then shows a NaN, and not 0.
#[unsafe(no_mangle)]
pub extern "C" fn pipeotter_display(
    live: f32,
    second: f32,
    held: f32,
    page: &[u8],
    flags: u16,
) -> u64
    ensures { result ≡ means.display_word live second held page.now flags }
{
    let answer = display::display(Readings { live, second, held }, page, flags);
    let upper = u64::from(word(answer.map(case_value)));
    let shown = answer.unwrap_or(Shown::NoNumber);
    4294967296 * upper + u64::from(display::reading::bits_of(display::reading_of(shown)))
}
