// The split test: how many split programs of a page and its flags have a set as answer set. A split program takes one option of each row.
ghost use Rattle.std.specs.Prelude.{◌≡◌, ◌+◌, ◌≤◌, max, ltb, length};
ghost use Rattle.lpod.specs.Lists.{every};
ghost use Rattle.lpod.specs.Least.{fire, least};
ghost use Rattle.lpod.specs.Split.{split_number, split_count, split_answer, gl_row, gl_reduct, bar_holds};
ghost use Rattle.words.specs.Coded.{rule_in, rules_in, program_in};
ghost use Rattle.routes.specs.Choice as choices;
ghost use Rattle.routes.specs.Split as means;

use arrayvec::ArrayVec;
use page::accept;
use page::refusal::Refusal;
use words::{read, row, rows};

// How many options a row has: one for each head atom. A row without head is its own one option.
fn option_count(row: u64) -> u8
    ensures { result ≡ max 1 (length (rule_in row).head) }
{
    row::head_count(row).max(1)
}

// There are more than 4,096 split programs. Their number is the product of the option counts; it needs up to 83 bits, so that
// counting stops above 4,096. A flag's row has one option.
#[tactic(auto, using(crate::proofs::SplitNumber::number_first, crate::proofs::SplitNumber::number_next, crate::proofs::SplitNumber::number_over, crate::proofs::SplitNumber::number_end))]
fn too_many(rows: &[u64]) -> bool
    ensures { result ≡ ltb 4096 (split_number (rules_in rows.now)) }
{
    let mut number: u32 = 1;
    for &row in rows {
        number *= u32::from(option_count(row));
        if 4096 < number {
            return true;
        }
    }
    false
}

// A row and which of its options is taken, counted from 0. A choice for several rows has the last row first, as they are chosen from the last one on.
#[derive(Clone, Copy, Default)]
struct Chosen {
    row: u64,
    option: u8,
}

impl Chosen {
    // What the option adds to t in a round from s. A row without head adds nothing, nor does an option of which a negative atom or an earlier
    // head atom is in the set. Else its head atom is added where the positive body is in s, whether or not that atom is in the set.
    #[tactic(auto, using(crate::proofs::SplitOption::fire_headless, crate::proofs::SplitOption::fire_denied, crate::proofs::SplitOption::fire_earlier, crate::proofs::SplitOption::fire_missed, crate::proofs::SplitOption::fire_added))]
    fn fire(self, set: u16, s: u16, t: u16) -> u16
        ensures { result ≡ fire (gl_row set (choices.chosen self)) s t }
    {
        if row::head_count(self.row) == 0 || row::neg_in(self.row, set) {
            return t;
        }
        let first = row::head_place(self.row, set);
        if 0 < first && first <= self.option || !row::pos_in(self.row, s) {
            return t;
        }
        atoms::with_atom(t, row::head_atom(self.row, self.option))
    }

    // A row without head is satisfied: its body does not hold in the set. Of a row with head nothing is asked here.
    #[tactic(auto, using(crate::proofs::SplitOption::bar_headed, crate::proofs::SplitOption::bar_headless))]
    fn bar_holds(self, set: u16) -> bool
        ensures { result ≡ bar_holds set (choices.chosen self) }
    {
        row::head_count(self.row) != 0 || !row::body_holds(self.row, set)
    }
}

// One round from s of the split program that is chosen: all its rules whose body holds in s fire together. A flag's rule has no body.
fn round(choice: &[Chosen], flags: u16, set: u16, s: u16) -> u16
    ensures { result ≡ fire (gl_reduct (choices.program_of choice.now flags) set) s s }
{
    let rows = choice
        .iter()
        .rev()
        .fold(s, |t, chosen| chosen.fire(set, s, t));
    atoms::union(rows, flags)
}

// The least set closed under the split program that is chosen: rounds from the empty set until one adds nothing, at most 17.
#[tactic(auto, using(lpod::proofs::LeastClosed::empty_inside, crate::proofs::Rounds::small_round, crate::proofs::Rounds::small_fixed, crate::proofs::Rounds::small_grows))]
fn least_closed(choice: &[Chosen], flags: u16, set: u16) -> u16
    ensures { result ≡ least (gl_reduct (choices.program_of choice.now flags) set) }
{
    let mut s = 0;
    loop {
        let t = round(choice, flags, set, s);
        if t == s {
            return s;
        }
        s = t;
    }
}

// All rows without head are satisfied. The first row, which the choice has last, is asked first.
fn bars_hold(choice: &[Chosen], set: u16) -> bool
    ensures { result ≡ every (bar_holds set) (choices.all_chosen choice.now) }
{
    choice.iter().rev().all(|chosen| chosen.bar_holds(set))
}

// The set is an answer set of the split program that is chosen.
#[tactic(auto, using(crate::proofs::SplitRound::bars_program), unfolding(lpod::specs::Split::split_answer))]
fn chosen_answer(choice: &[Chosen], flags: u16, set: u16) -> bool
    ensures { result ≡ split_answer (choices.program_of choice.now flags) set }
{
    bars_hold(choice, set) && least_closed(choice, flags, set) == set
}

// How many choices of options for the rows, with what is chosen for those after them, have the set as answer set. It goes through the options of
// the last row, and for each through those of the rows before it. At most 4,096 choices are tested.
fn count_from(rows: &[u64], flags: u16, set: u16, choice: &mut ArrayVec<Chosen, 32>) -> u16
    requires { (length choice.old.items + length rows.now ≤ 32) × (split_number (rules_in rows.now) ≤ 4096) }
    ensures count { result ≡ choices.count_from (rules_in rows.now) flags set (choices.all_chosen choice.old.items) }
    ensures kept { choice.new.items ≡ choice.old.items }
{
    let Some((&row, rest)) = rows.split_last() else {
        return u16::from(chosen_answer(choice, flags, set));
    };
    let mut total = 0;
    for option in 0..option_count(row) {
        choice.push(Chosen { row, option });
        total += count_from(rest, flags, set, choice);
        choice.pop();
    }
    total
}

// How many split programs have the set as answer set. Pairs are checked on the set.
#[tactic(auto, using(crate::proofs::SplitChoices::count_whole, crate::proofs::SplitChoices::count_paired), unfolding(crate::specs::Choice::all_chosen))]
fn split_count(rows: &[u64], pairs: &[u16], flags: u16, set: u16) -> u16
    requires { (length rows.now ≤ 32) × (split_number (rules_in rows.now) ≤ 4096) }
    ensures { result ≡ split_count (program_in rows.now pairs.now flags) set }
{
    if rows::no_pair(pairs, set) {
        return count_from(rows, flags, set, &mut ArrayVec::new());
    }
    0
}

// The split test of a set: refusals 1 to 9 and 12, then how many split programs have the set as answer set. It is one where the count is above 0.
// At most 4,096 split programs are tested. The page is put into words once.
pub fn split_test(page: &[u8], flags: u16, set: u16) -> Result<u16, Refusal>
    ensures { means.SplitSays page.now flags set result }
{
    accept::check_test(page, flags, set)?;
    let mut rows = ArrayVec::new();
    read::put_rows(page, &mut rows);
    if too_many(&rows) {
        return Err(Refusal::TooManySplits);
    }
    let pairs = read::pair_words(page);
    Ok(split_count(&rows, &pairs, flags, set))
}
