// A program in words, as the searches take it.
ghost use Rattle.std.specs.Prelude.{◌≡◌, ◌+◌, ◌/◌, ◌≤◌, length, take};
ghost use Rattle.words.specs.Coded.{rules_in};
ghost use Rattle.lanes.specs.Tried.{top_of};

use crate::heads;
use crate::span::Span;

// At most 32 rows, the pairs and the raised atoms; and the raised atoms with all head atoms, beyond which no answer set goes.
#[derive(Clone, Copy)]
pub struct Program<'a> {
    pub rows: &'a [u64],
    pub pairs: &'a [u16],
    pub flags: u16,
    pub top: u16,
    pub ghost few: { length rows.now ≤ 32 },
    pub ghost highest: { top ≡ top_of (rules_in rows.now) flags },
}

impl<'a> Program<'a> {
    // Of more than 32 rows the first 32 count.
    pub fn new(rows: &'a [u64], pairs: &'a [u16], flags: u16) -> Program<'a>
        ensures { (result.rows.now ≡ take 32 rows.now) × (result.pairs.now ≡ pairs.now) × (result.flags ≡ flags) }
    {
        let rows = &rows[..rows.len().min(32)];
        Program {
            rows,
            pairs,
            flags,
            top: heads::top_of(rows, flags),
        }
    }

    // The blocks that may have an answer set.
    pub fn span(self) -> Span
        ensures { (result.low ≡ self.entry.flags / 64) × (result.high ≡ self.entry.top / 64) }
    {
        Span {
            low: self.flags / 64,
            high: self.top / 64,
        }
    }

    // How many words they need, from block 0 on.
    pub fn words(self) -> usize
        ensures { result ≡ self.entry.top / 64 + 1 }
    {
        (self.top / 64) as usize + 1
    }
}
