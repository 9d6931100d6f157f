// Is a set an answer set? By Brewka's reduct: it holds no pair, satisfies every row and every raised flag's row, and the rounds from the
// empty set come to just this set. And how many rounds add something? Any rows, pairs, flag word and set will do.
ghost use Rattle.std.specs.Prelude.{◌≡◌};
ghost use Rattle.lpod.specs.Reduct.{reduct_row, reduct};
ghost use Rattle.lpod.specs.Least as means;
ghost use Rattle.lpod.specs.Chain.{chain};
ghost use Rattle.lpod.specs.Answer.{answer};
ghost use Rattle.words.specs.Coded.{rule_in, rules_in, rules_with, program_in};
ghost use Rattle.routes.specs.Tests.{ReductSays};
ghost use Rattle.routes.specs.Rounds.{RoundsSays};

use super::first_in_head;
use arrayvec::ArrayVec;
use page::accept;
use page::refusal::Refusal;
use words::{read, row, rows};

// What one row adds to t: its rule of the reduct for `set`, if it has one and the positive body is in s. The cheap tests come first.
#[tactic(auto, using(crate::proofs::HeadFirst::fire_blocked, crate::proofs::HeadFirst::fire_waits))]
fn row_fire(row: u64, set: u16, s: u16, t: u16) -> u16
    ensures { result ≡ means.fire (reduct_row (rule_in row) set) s t }
{
    if row::neg_in(row, set) || !row::pos_in(row, s) {
        return t;
    }
    first_in_head(row, set).map_or(t, |atom| atoms::with_atom(t, atom))
}

// What all rows add to s in one round. They fire together: each body is tested in s, not in what the round has added.
fn rows_fire(rows: &[u64], set: u16, s: u16) -> u16
    ensures { result ≡ means.fire (reduct (rules_in rows.now) set) s s }
{
    rows.iter().fold(s, |t, &row| row_fire(row, set, s, t))
}

// One round: the rows, and the rows of the raised atoms. Such a row has its rule in the reduct where `set` holds the atom.
#[tactic(auto, using(crate::proofs::Rounds::fire_flags))]
fn round(rows: &[u64], flags: u16, set: u16, s: u16) -> u16
    ensures { result ≡ means.fire (reduct (rules_with rows.now flags) set) s s }
{
    atoms::union(rows_fire(rows, set, s), atoms::common(flags, set))
}

// The least set closed under the reduct for `set`. It lies inside `set`, so the rounds stop there, or when nothing is added.
// A round that adds something adds an atom of the set, so there are at most 16 rounds.
#[tactic(auto, using(lpod::proofs::LeastClosed::empty_inside, crate::proofs::Rounds::small_round, crate::proofs::Rounds::small_fixed, crate::proofs::Rounds::small_grows, crate::proofs::Rounds::small_whole))]
pub fn least_of(rows: &[u64], flags: u16, set: u16) -> u16
    ensures { result ≡ means.least (reduct (rules_with rows.now flags) set) }
{
    let mut s = 0;
    while s != set {
        let t = round(rows, flags, set, s);
        if t == s {
            return s;
        }
        s = t;
    }
    s
}

// The four tests of an answer set, in this order: no pair, rows, raised flags, support.
#[tactic(auto, using(crate::proofs::RaisedRows::satisfied_flags), unfolding(lpod::specs::Answer::answer, lpod::specs::Rule::rules, words::specs::Coded::rules_with, words::specs::Coded::program_in))]
pub fn is_answer(rows: &[u64], pairs: &[u16], flags: u16, set: u16) -> bool
    ensures { result ≡ answer (program_in rows.now pairs.now flags) set }
{
    rows::no_pair(pairs, set)
        && rows::rows_satisfied(rows, set)
        && atoms::part_of(flags, set)
        && least_of(rows, flags, set) == set
}

// The reduct test of a set: refusals 1 to 9, then the answer.
pub fn reduct_test(page: &[u8], flags: u16, set: u16) -> Result<bool, Refusal>
    ensures { ReductSays page.now flags set result }
{
    accept::check_test(page, flags, set)?;
    let mut rows = ArrayVec::new();
    read::put_rows(page, &mut rows);
    let pairs = read::pair_words(page);
    Ok(is_answer(&rows, &pairs, flags, set))
}

// How many rounds from the empty set add something. Each brings in an atom of `set`, so there are no more of them than the set has atoms;
// after as many the set itself is reached, to which nothing is added.
#[tactic(auto, using(crate::proofs::Rounds::made_start, crate::proofs::Rounds::made_quiet, crate::proofs::Rounds::made_whole))]
fn count_rounds(rows: &[u64], flags: u16, set: u16) -> u32
    ensures { result ≡ chain (reduct (rules_with rows.now flags) set) }
{
    let most = atoms::how_many(set);
    let mut reached = 0;
    for count in 0..most {
        let next = round(rows, flags, set, reached);
        if next == reached {
            return count;
        }
        reached = next;
    }
    most
}

// How many rounds add something on the way to a set, an answer set or not, by the reduct for it: refusals 1 to 9, then the count.
pub fn rounds(page: &[u8], flags: u16, to: u16) -> Result<u32, Refusal>
    ensures { RoundsSays page.now flags to result }
{
    accept::check_test(page, flags, to)?;
    let mut rows = ArrayVec::new();
    read::put_rows(page, &mut rows);
    Ok(count_rounds(&rows, flags, to))
}
