// The calls that lend no memory: the three tests, the rounds, the comparison, the pick, the row reader, the panel letter.
// A refused call gets the number of its refusal, and 0 or `no` where its value would stand.
use super::input::Case;
use engine::compare::Side;
use page::reader;
use page::refusal::Refusal;
use page::rows::Row;
use routes::{here_there, reduct, split};
use std::io;

// The number of an answer: 0 where the call is accepted.
pub fn number_of<T: Drop>(answer: Result<T, Refusal>) -> u16 {
    answer.err().map_or(0, |refusal| refusal.number())
}

fn yes_or_no(yes: bool) -> &'static str {
    if yes { "yes" } else { "no" }
}

// What a test said of one set.
fn say_verdict(
    rt: &impl Print,
    test: &str,
    set: u16,
    verdict: Result<bool, Refusal>,
) -> io::Result<()> {
    let number = number_of(verdict);
    let yes = yes_or_no(verdict.unwrap_or(false));
    println!(rt; "  {test} test of {set}: number {number}, {yes}")
}

// One set by the reduct.
pub fn reduct(rt: &impl Print, case: &Case, set: u16) -> io::Result<()> {
    let verdict = reduct::reduct_test(case.page, case.flags, set);
    say_verdict(rt, "reduct", set, verdict)
}

// One set by here-and-there.
pub fn here_there(rt: &impl Print, case: &Case, set: u16) -> io::Result<()> {
    let verdict = here_there::here_there_test(case.page, case.flags, set);
    say_verdict(rt, "here-and-there", set, verdict)
}

// One set by split programs.
pub fn split(rt: &impl Print, case: &Case, set: u16) -> io::Result<()> {
    let counted = split::split_test(case.page, case.flags, set);
    let number = number_of(counted);
    let count = counted.unwrap_or(0);
    let yes = yes_or_no(0 < count);
    println!(rt; "  split test of {set}: number {number}, {yes}, count {count}")
}

// How many rounds add something on the way to one set.
pub fn rounds(rt: &impl Print, case: &Case, set: u16) -> io::Result<()> {
    let counted = reduct::rounds(case.page, case.flags, set);
    let number = number_of(counted);
    let count = counted.unwrap_or(0);
    println!(rt; "  rounds to {set}: number {number}, count {count}")
}

// What the three tests say of one set: whether all are accepted and agree, and whether the set is an answer set.
#[derive(Clone, Copy)]
struct Three {
    agree: bool,
    yes: bool,
}

// One set by all three.
fn by_three(case: &Case, set: u16) -> Three {
    let by_reduct = reduct::reduct_test(case.page, case.flags, set);
    let by_here_there = here_there::here_there_test(case.page, case.flags, set);
    let by_split = split::split_test(case.page, case.flags, set).map(|count| 0 < count);
    Three {
        agree: by_reduct.is_ok() && by_reduct == by_here_there && by_reduct == by_split,
        yes: by_reduct.unwrap_or(false),
    }
}

// How often the three tests agree on the sets below a number, and how many of these sets are answer sets.
#[derive(Clone, Copy)]
struct Tally {
    agreed: u32,
    answers: u32,
}

fn agreement(case: &Case, below: u16) -> Tally {
    let mut agreed = 0;
    let mut answers = 0;
    for set in 0..below {
        let three = by_three(case, set);
        agreed += u32::from(three.agree);
        answers += u32::from(three.yes);
    }
    Tally { agreed, answers }
}

// All sets below a number, by all three tests.
pub fn all_three(rt: &impl Print, case: &Case, below: u16) -> io::Result<()> {
    let Tally { agreed, answers } = agreement(case, below);
    println!(rt; "  three tests of {below} sets: agreed {agreed}, yes {answers}")
}

// Two sets compared.
pub fn compare(rt: &impl Print, case: &Case, first: u16, second: u16) -> io::Result<()> {
    let compared = engine::compare::compare(case.page, case.flags, first, second);
    let number = number_of(compared);
    let side = match compared {
        Ok(Side::First) => "+1",
        Ok(Side::Second) => "-1",
        Ok(Side::Neither) | Err(_) => "0",
    };
    println!(rt; "  compare {first} with {second}: number {number}, side {side}")
}

// The pick.
pub fn pick(rt: &impl Print, case: &Case) -> io::Result<()> {
    let picked = engine::pick::pick(case.page, case.flags);
    let number = number_of(picked);
    let set = picked.unwrap_or(0);
    println!(rt; "  pick: number {number}, set {set}")
}

// What the row reader finds at a number.
fn row(rt: &impl Print, page: &[u8], n: u16) -> io::Result<()> {
    match reader::row_at(page, n) {
        Some(row) => {
            let Row {
                head,
                pos,
                neg,
                place,
            } = row;
            println!(rt;
                "  row {n}: head {head}, positive {pos}, negative {neg}, first literal at {place}"
            )
        }
        None => println!(rt; "  row {n}: past"),
    }
}

// The rows below a number, one after the other.
pub fn rows(rt: &impl Print, page: &[u8], below: u16) -> io::Result<()> {
    for n in 0..below {
        row(rt, page, n)?;
    }
    Ok(())
}

// The panel letter of a refusal number.
pub fn letter(rt: &impl Print, number: u16) -> io::Result<()> {
    let letter = char::from(page::letter::letter(number));
    println!(rt; "  letter of {number}: \"{letter}\"")
}
