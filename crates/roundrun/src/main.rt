// Reads a flag word, a first and a last set (two bytes each, low first) and a page from standard input. For each set from the first to the last
// it prints the set's atoms and how many rounds add something on the way to the set. A refusal is printed as its number and ends the list.
#![tactic(auto)]

ghost use Rattle.std.specs.Prelude.{Some, ◌∷◌, filter};
ghost use Rattle.std.specs.List.{flat_map, range_with_len};
ghost use Rattle.std.specs.Fmt.{decimal};
ghost use Rattle.atoms.specs.Atoms.{has};

use page::refusal::Refusal;
use routes::reduct;
use std::{fmt, io};

// The atoms of a set, rising, each after a space.
#[derive(Clone, Copy)]
struct Atoms(u16);

impl fmt::Display for Atoms {
    ghost output = { λ s. Some (flat_map (λ a. 32 ∷ decimal a) (filter (has s.0) (range_with_len 0 16))) };

    fn fmt<W: fmt::Write>(&self, f: &mut fmt::Formatter<W>) -> fmt::Result {
        for atom in 0..16 {
            if atoms::holds(self.0, atom) {
                write!(f, " {atom}")?;
            }
        }
        Ok(())
    }
}

// The line of a refusal.
fn say_refused(rt: &impl Print, refusal: Refusal) -> io::Result<()> {
    println!(rt; "refused {refusal}")
}

// The line of one set.
fn say_set(rt: &impl Print, set: u16, rounds: u32) -> io::Result<()> {
    let atoms = Atoms(set);
    let none = if set == 0 { " none" } else { "" };
    println!(rt; "set {set} atoms{atoms}{none} rounds {rounds}")
}

// The lines from the first set to the last, or to the first that is refused. Where the last is below the first, the first alone.
fn say_sets(rt: &impl Print, page: &[u8], flags: u16, first: u16, last: u16) -> io::Result<()> {
    for set in first..=last.max(first) {
        match reduct::rounds(page, flags, set) {
            Ok(rounds) => say_set(rt, set, rounds)?,
            Err(refusal) => return say_refused(rt, refusal),
        }
    }
    Ok(())
}

// The input: a flag word, two sets and the page. Where it breaks off before the page, the page is too short.
fn say_input(rt: &impl Print, input: &[u8]) -> io::Result<()> {
    let Some((words, page)) = input.split_first_chunk::<6>() else {
        return say_refused(rt, Refusal::TooShort);
    };
    let flags = u16::from_le_bytes([words[0], words[1]]);
    let first = u16::from_le_bytes([words[2], words[3]]);
    let last = u16::from_le_bytes([words[4], words[5]]);
    say_sets(rt, page, flags, first, last)
}

// The buffer takes 4,096 bytes, and what comes after them is not read. The longest page has 866, so a longer input is refused by a number from 1 to 4,
// and these look only at the header and at whether the length is the right one.
fn main(rt: HostRuntime) -> io::Result<()> {
    let mut input = [0u8; 4096];
    let got = intake::read_full(&mut rt.stdin(), &mut input)?;
    say_input(&rt, &input[..got])
}
