// Reads a flag word (two bytes, low first) and a page from standard input, and prints the page's answer sets with their degrees, which of them
// are best, and the pick. A refusal is printed as its number.
#![tactic(auto)]

ghost use Rattle.std.specs.Prelude.{Some, ◌∷◌};
ghost use Rattle.std.specs.List.{flat_map};
ghost use Rattle.std.specs.Fmt.{decimal};

use page::refusal::Refusal;
use std::{fmt, io};

// Room for so many sets. A page with more is refused by 11.
const ROOM: usize = 32768;

// The degrees of an answer set, each after a space.
#[derive(Clone, Copy)]
struct Degrees<'a>(&'a [u8]);

impl fmt::Display for Degrees<'_> {
    ghost output = { λ d. Some (flat_map (λ x. 32 ∷ decimal x) d.0.now) };

    fn fmt<W: fmt::Write>(&self, f: &mut fmt::Formatter<W>) -> fmt::Result {
        for degree in self.0 {
            write!(f, " {degree}")?;
        }
        Ok(())
    }
}

// The line of a refusal.
fn say_refused(rt: &impl Print, refusal: Refusal) -> io::Result<()> {
    println!(rt; "refused {refusal}")
}

// The line of one answer set.
fn say_set(rt: &impl Print, page: &[u8], flags: u16, set: u16, is_best: bool) -> io::Result<()> {
    let mut degrees = [0u8; 32];
    match engine::degrees::degrees(page, flags, set, &mut degrees) {
        Ok(many) => {
            let degrees = Degrees(&degrees[..usize::from(many)]);
            let none = if many == 0 { " none" } else { "" };
            let best = if is_best { " best" } else { "" };
            println!(rt; "set {set} degrees{degrees}{none}{best}")
        }
        Err(refusal) => say_refused(rt, refusal),
    }
}

// The lines of all answer sets. Both lists rise and every best set is an answer set, so one pass through both finds which are best.
fn say_sets(
    rt: &impl Print,
    page: &[u8],
    flags: u16,
    sets: &[u16],
    best: &[u16],
) -> io::Result<()> {
    let mut best = best.iter().copied().peekable();
    for &set in sets {
        let is_best = best.next_if_eq(&set).is_some();
        say_set(rt, page, flags, set, is_best)?;
    }
    Ok(())
}

// The last line: the pick, or why there is none.
fn say_pick(rt: &impl Print, page: &[u8], flags: u16) -> io::Result<()> {
    match engine::pick::pick(page, flags) {
        Ok(set) => println!(rt; "pick {set}"),
        Err(refusal) => say_refused(rt, refusal),
    }
}

// The lines of a page's answer sets and of the pick.
fn say_answers(rt: &impl Print, page: &[u8], flags: u16, sets: &[u16]) -> io::Result<()> {
    let many = sets.len();
    println!(rt; "sets {many}")?;
    let mut best = [0u16; ROOM];
    match engine::best::best(page, flags, &mut best) {
        Ok(many_best) => {
            say_sets(rt, page, flags, sets, &best[..many_best as usize])?;
            say_pick(rt, page, flags)
        }
        Err(refusal) => say_refused(rt, refusal),
    }
}

// All that is printed of a page and a flag word.
fn say_page(rt: &impl Print, page: &[u8], flags: u16) -> io::Result<()> {
    let mut sets = [0u16; ROOM];
    match engine::list::list(page, flags, &mut sets) {
        Ok(many) => say_answers(rt, page, flags, &sets[..many as usize]),
        Err(refusal) => say_refused(rt, refusal),
    }
}

// The input: a flag word and the page.
fn say_input(rt: &impl Print, input: &[u8]) -> io::Result<()> {
    let Some((flags, page)) = input.split_first_chunk::<2>() else {
        return say_refused(rt, Refusal::TooShort);
    };
    say_page(rt, page, u16::from_le_bytes(*flags))
}

// The buffer takes 4,096 bytes, and what comes after them is not read. The longest page has 866, so a longer input is refused by a number from
// 1 to 4. These conditions look at the header, which is read whole, and at whether the length is the one that the header gives, which is at
// most 866: what was left unread changes neither, so the number is that of the whole input.
fn main(rt: HostRuntime) -> io::Result<()> {
    let mut input = [0u8; 4096];
    let got = intake::read_full(&mut rt.stdin(), &mut input)?;
    say_input(&rt, &input[..got])
}
