// Is a set an answer set? By the logic of here-and-there: it holds no pair, it is a model with itself, and with no smaller set inside it
// is it one. Any rows, pairs, flag word and set will do. This road uses neither the reduct nor rounds.
ghost use Rattle.std.specs.Prelude.{◌≡◌, ◌&&◌};
ghost use Rattle.atoms.specs.Atoms.{inside};
ghost use Rattle.lpod.specs.HereThere as means;
ghost use Rattle.words.specs.Coded.{rule_in, rules_in, rules_with, program_in};
ghost use Rattle.routes.specs.Tests.{HereThereSays};

use super::first_in_head;
use arrayvec::ArrayVec;
use page::accept;
use page::refusal::Refusal;
use words::{read, row, rows};

// The head's first atom in `there` is also in `here`.
fn head_holds(row: u64, here: u16, there: u16) -> bool
    ensures { result ≡ means.head_holds (rule_in row).head here there }
{
    first_in_head(row, there).is_some_and(|atom| atoms::holds(here, atom))
}

// The row holds in (here, there): `there` satisfies it, and the body is missed or the head holds.
#[tactic(auto, unfolding(lpod::specs::HereThere::row_holds, lpod::specs::Satisfied::none_in))]
fn row_holds(row: u64, here: u16, there: u16) -> bool
    ensures { result ≡ means.row_holds here there (rule_in row) }
{
    row::satisfied(row, there)
        && (!row::pos_in(row, here) || row::neg_in(row, there) || head_holds(row, here, there))
}

// Every row holds in (here, there).
fn rows_hold(rows: &[u64], here: u16, there: u16) -> bool
    ensures { result ≡ means.model (rules_in rows.now) here there }
{
    rows.iter().all(|&row| row_holds(row, here, there))
}

// (here, there) is a model: of the raised atoms' rows where both hold the flags, and of every row. It stays a call: in line, its look at the flags is
// made for each number below `there`, and a set of many atoms takes up to two and a half times as long.
#[tactic(auto, using(crate::proofs::HeadsHold::model_flags))]
#[inline(never)]
fn is_model(rows: &[u64], flags: u16, here: u16, there: u16) -> bool
    ensures { result ≡ means.model (rules_with rows.now flags) here there }
{
    atoms::part_of(flags, atoms::common(here, there)) && rows_hold(rows, here, there)
}

// `here` is a part of `there`, and a model with it.
fn part_models(rows: &[u64], flags: u16, here: u16, there: u16) -> bool
    ensures { result ≡ (inside here there && means.model (rules_with rows.now flags) here there) }
{
    atoms::part_of(here, there) && is_model(rows, flags, here, there)
}

// No smaller set inside `there` is a model with it. Of the numbers below `there` only those that are parts of it are tried,
// at most 2 to the number of its atoms.
fn none_smaller(rows: &[u64], flags: u16, there: u16) -> bool
    ensures { result ≡ means.no_smaller (rules_with rows.now flags) there }
{
    !(0..there).any(|here| part_models(rows, flags, here, there))
}

// No pair, a model with itself, and with no smaller set.
#[tactic(auto, unfolding(lpod::specs::HereThere::here_there, lpod::specs::Rule::rules, words::specs::Coded::rules_with, words::specs::Coded::program_in))]
pub fn is_here_there(rows: &[u64], pairs: &[u16], flags: u16, set: u16) -> bool
    ensures { result ≡ means.here_there (program_in rows.now pairs.now flags) set }
{
    rows::no_pair(pairs, set) && is_model(rows, flags, set, set) && none_smaller(rows, flags, set)
}

// The here-and-there test of a set: refusals 1 to 9, then the answer.
pub fn here_there_test(page: &[u8], flags: u16, set: u16) -> Result<bool, Refusal>
    ensures { HereThereSays page.now flags set result }
{
    accept::check_test(page, flags, set)?;
    let mut rows = ArrayVec::new();
    read::put_rows(page, &mut rows);
    let pairs = read::pair_words(page);
    Ok(is_here_there(&rows, &pairs, flags, set))
}
