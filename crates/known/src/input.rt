// The cases as they stand in the input. A case is: the length of its name (one byte), the name, a flag word, the length of its page (two
// bytes each, low first), the page, how many calls there are (one byte), and the calls. A call is a letter and two words.
// A byte past the end reads as 0, so any bytes will do.
ghost use Rattle.std.specs.Prelude.{◌<◌, ◌≤◌, length, IfSome};

use engine::list::Which;

// A case, as far as the input has it: its name, its flag word, its page, how many calls it has, and their bytes.
#[derive(Clone, Copy)]
pub struct Case<'a> {
    pub name: &'a [u8],
    pub flags: u16,
    pub page: &'a [u8],
    pub many: u8,
    calls: &'a [u8],
}

// What to run, with its numbers.
#[derive(Clone, Copy)]
pub enum Call {
    List { which: Which, room: u16 },
    Degrees { set: u16, room: u16 },
    Reduct { set: u16 },
    Rounds { set: u16 },
    HereThere { set: u16 },
    Split { set: u16 },
    AllThree { below: u16 },
    Compare { first: u16, second: u16 },
    Pick,
    Rows { below: u16 },
    Letter { number: u16 },
}

// How many bytes a call has.
const CALL: usize = 5;

// The first byte, and what follows it.
fn byte(text: &[u8]) -> (u8, &[u8])
    ensures { length result.1.now ≤ length text.now }
{
    match text {
        [first, rest @ ..] => (*first, rest),
        [] => (0, text),
    }
}

// The first two bytes, the low one first, and what follows them.
fn word(text: &[u8]) -> (u16, &[u8])
    ensures { length result.1.now ≤ length text.now }
{
    let (low, rest) = byte(text);
    let (high, rest) = byte(rest);
    (u16::from_le_bytes([low, high]), rest)
}

// So many bytes, and what follows them. Where there are fewer, both are empty.
fn part(text: &[u8], count: usize) -> (&[u8], &[u8])
    ensures { length result.1.now ≤ length text.now }
{
    text.split_at_checked(count).unwrap_or((&[], &[]))
}

impl<'a> Case<'a> {
    // The first case, and what follows it. None at the end of the input.
    pub fn read(text: &'a [u8]) -> Option<(Case<'a>, &'a [u8])>
        ensures { IfSome result (λ r. length r.1.now < length text.now) }
    {
        let (&name_length, rest) = text.split_first()?;
        let (name, rest) = part(rest, usize::from(name_length));
        let (flags, rest) = word(rest);
        let (page_length, rest) = word(rest);
        let (page, rest) = part(rest, usize::from(page_length));
        let (many, rest) = byte(rest);
        let (calls, rest) = rest.split_at(rest.len().min(CALL * usize::from(many)));
        let case = Case {
            name,
            flags,
            page,
            many,
            calls,
        };
        Some((case, rest))
    }

    // Call k, and none where its letter is that of no call.
    pub fn call(&self, k: u8) -> Option<Call> {
        let rest = self.calls.get(CALL * usize::from(k)..);
        Call::read(rest.unwrap_or_default())
    }
}

impl Call {
    // The call that a letter and two words stand for. The letters are those of tests/known/make.py.
    fn read(text: &[u8]) -> Option<Call> {
        let (letter, rest) = byte(text);
        let (first, rest) = word(rest);
        let (second, _) = word(rest);
        match letter {
            b'l' => Some(Call::List {
                which: Which::All,
                room: first,
            }),
            b'b' => Some(Call::List {
                which: Which::Best,
                room: first,
            }),
            b'd' => Some(Call::Degrees {
                set: first,
                room: second,
            }),
            b'r' => Some(Call::Reduct { set: first }),
            b'n' => Some(Call::Rounds { set: first }),
            b'h' => Some(Call::HereThere { set: first }),
            b's' => Some(Call::Split { set: first }),
            b't' => Some(Call::AllThree { below: first }),
            b'c' => Some(Call::Compare { first, second }),
            b'p' => Some(Call::Pick),
            b'w' => Some(Call::Rows { below: first }),
            b'L' => Some(Call::Letter { number: first }),
            _ => None,
        }
    }
}
