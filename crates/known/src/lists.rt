// The calls that store in lent memory. The memory is filled before the call, and after it every entry is looked at: what is stored, and how
// many of the later ones are as they were.
ghost use Rattle.std.specs.Prelude.{◌≤◌, length};
ghost use Rattle.std.specs.Result.{result_unwrap_or};
ghost use Rattle.page.specs.Program.{program};
ghost use Rattle.lanes.specs.Sets.{wanted};
ghost use Rattle.engine.specs.Calls as means;

use super::calls::number_of;
use super::input::Case;
use engine::list::Which;
use page::refusal::Refusal;
use std::{fmt, io};

// Room for more sets than a page can have, and what each entry is before the call.
const ROOM: usize = 65536;

const UNTOUCHED: u16 = 4660;

// Sets, each after a space.
#[derive(Clone, Copy)]
struct Spaced<'a>(&'a [u16]);

impl fmt::Display for Spaced<'_> {
    fn fmt<W: fmt::Write>(&self, f: &mut fmt::Formatter<W>) -> fmt::Result {
        for set in self.0 {
            write!(f, " {set}")?;
        }
        Ok(())
    }
}

// A list of sets: all of a short one; of a long one its ends and its sum.
#[derive(Clone, Copy)]
struct Sets<'a>(&'a [u16]);

impl fmt::Display for Sets<'_> {
    fn fmt<W: fmt::Write>(&self, f: &mut fmt::Formatter<W>) -> fmt::Result {
        let sets = self.0;
        let count = sets.len();
        if count <= 8 {
            return Spaced(sets).fmt(f);
        }
        let first = Spaced(&sets[..4]);
        let last = Spaced(&sets[count - 4..]);
        let sum = sum_of(sets);
        write!(f, "{first} ..{last}, sum {sum}")
    }
}

// All bytes of a slice, side by side.
#[derive(Clone, Copy)]
struct Bytes<'a>(&'a [u8]);

impl fmt::Display for Bytes<'_> {
    fn fmt<W: fmt::Write>(&self, f: &mut fmt::Formatter<W>) -> fmt::Result {
        for byte in self.0 {
            write!(f, "{byte}")?;
        }
        Ok(())
    }
}

// A sum in which the order of the sets counts.
fn sum_of(sets: &[u16]) -> u32 {
    sets.iter().fold(0, |sum: u32, &set| {
        ((31 * u64::from(sum) + u64::from(set)) % 65521) as u32
    })
}

// What a call that lists sets into the first n entries answered, and what it stored.
fn say_listed(
    rt: &impl Print,
    word: &str,
    n: u16,
    listed: Result<u32, Refusal>,
    out: &[u16],
) -> io::Result<()>
    requires { result_unwrap_or listed 0 ≤ length out.now }
{
    let number = number_of(listed);
    let count = listed.unwrap_or(0);
    let (stored, rest) = out.split_at(count as usize);
    let sets = Sets(stored);
    let kept = rest.iter().filter(|&&set| set == UNTOUCHED).count();
    println!(rt; "  {word} into {n}: number {number}, count {count}, sets{sets}, kept {kept}")
}

// All answer sets, or the best of them, in lent memory: each by the call of its name.
#[tactic(auto, unfolding(lanes::specs::Sets::wanted))]
fn ask(case: &Case, which: Which, out: &mut [u16]) -> Result<u32, Refusal>
    ensures { means.SetsSay (wanted which (program case.now.page.now case.now.flags)) case.now.page.now case.now.flags out.old result out.new }
{
    match which {
        Which::All => engine::list::list(case.page, case.flags, out),
        Which::Best => engine::best::best(case.page, case.flags, out),
    }
}

// All answer sets, or the best of them, into a slice of n entries.
pub fn list(rt: &impl Print, case: &Case, which: Which, n: u16) -> io::Result<()> {
    let mut out = [UNTOUCHED; ROOM];
    let listed = ask(case, which, &mut out[..usize::from(n)]);
    let word = match which {
        Which::All => "list",
        Which::Best => "best",
    };
    say_listed(rt, word, n, listed, &out)
}

// The degrees of a set, into a slice of n entries. There is room for two more than a page can have rows; each entry is 9, which no degree
// is, before the call.
pub fn degrees(rt: &impl Print, case: &Case, set: u16, n: u16) -> io::Result<()> {
    let mut out = [9u8; 34];
    let room = usize::from(n).min(out.len());
    let graded = engine::degrees::degrees(case.page, case.flags, set, &mut out[..room]);
    let number = number_of(graded);
    let count = graded.unwrap_or(0);
    let memory = Bytes(&out);
    println!(rt; "  degrees of {set} into {n}: number {number}, count {count}, memory {memory}")
}
