// Reads three readings (four bytes each, low first: live, second, held), a flag word (two bytes, low first) and a page from standard input, and
// prints what the display shows: the case and the bits of its reading in hexadecimal, `no number`, or the number of a refusal.
#![tactic(auto)]

ghost use Rattle.std.specs.Prelude.{◌≡◌, ◌+◌, ◌≤◌, length};
ghost use Rattle.showrun.specs.Says as means;

use display::{Readings, Shown, reading};
use page::refusal::Refusal;
use std::io;

// The reading whose bits are the four bytes from a place on, the low one first.
fn reading_at(input: &[u8], at: usize) -> f32
    requires { at + 4 ≤ length input.now }
    ensures { result ≡ means.reading_at input.now at (at + 2) }
{
    let bytes = [input[at], input[at + 1], input[at + 2], input[at + 3]];
    reading::of_bits(u32::from_le_bytes(bytes))
}

// The name of the case that is shown.
#[tactic(auto, unfolding(crate::specs::Says::name_of))]
fn name_of(shown: Shown) -> &'static str
    ensures { result.now ≡ means.name_of shown }
{
    match shown {
        Shown::Live(_) => "live",
        Shown::Second(_) => "second",
        Shown::Held(_) => "held",
        Shown::NoNumber => "no number",
    }
}

// One line: the name, and the bits of the reading where there is one.
fn say_shown(rt: &impl Print, shown: Shown) -> io::Result<()> {
    let name = name_of(shown);
    match shown {
        Shown::Live(x) | Shown::Second(x) | Shown::Held(x) => {
            let bits = reading::bits_of(x);
            println!(rt; "{name} {bits:08x}")
        }
        Shown::NoNumber => println!(rt; "{name}"),
    }
}

// What the display says of an input: readings, flag word and page. One that is too short for a page to begin is refused by 1.
fn said(input: &[u8]) -> Result<Shown, Refusal>
    ensures { means.InputSays input.now result }
{
    let Some((header, page)) = input.split_first_chunk::<14>() else {
        return Err(Refusal::TooShort);
    };
    let readings = Readings {
        live: reading_at(input, 0),
        second: reading_at(input, 4),
        held: reading_at(input, 8),
    };
    let flags = u16::from_le_bytes([header[12], header[13]]);
    display::display(readings, page, flags)
}

fn say(rt: &impl Print, said: Result<Shown, Refusal>) -> io::Result<()> {
    match said {
        Ok(shown) => say_shown(rt, shown),
        Err(refusal) => println!(rt; "refused {refusal}"),
    }
}

// The buffer takes 4,096 bytes, and what comes after them is not read. A page has at most 866, so a longer input is refused by 2, 3 or 4, and which of
// these it is can be seen in its header.
fn main(rt: HostRuntime) -> io::Result<()> {
    let mut input = [0u8; 4096];
    let got = intake::read_full(&mut rt.stdin(), &mut input)?;
    say(&rt, said(&input[..got]))
}
