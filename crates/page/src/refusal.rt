// Why a call is refused. The numbers are those that C is given and that the programs print.
ghost use Rattle.std.specs.Prelude.{◌≡◌, Some};
ghost use Rattle.std.specs.Fmt.{decimal};
ghost use Rattle.page.specs.Answers as means;

use std::error::Error;
use std::fmt;

#[derive(Clone, Copy, Debug, PartialEq, Eq)]
pub enum Refusal {
    // 1: the page is shorter than its header.
    TooShort,
    // 2: its form is not 1.
    OtherForm,
    // 3: it has too many atoms, rows, literals or pairs, or no atom.
    CountsOut,
    // 4: an offset, or its whole length, is not as it must be.
    Misplaced,
    // 5: a row's counts are too large, or the counts do not add up.
    BadCounts,
    // 6: an atom number is not below the number of atoms.
    AtomsOut,
    // 7: the atoms of a body do not rise.
    Unsorted,
    // 8: pairs are out of order, or share an atom.
    BadPairs,
    // 9: a flag word or a set has an atom that the page does not have.
    BitsOut,
    // 10: there is no answer set.
    NoAnswerSet,
    // 11: what was lent is too short.
    NoRoom,
    // 12: there are more than 4,096 split programs.
    TooManySplits,
    // 13: the set is no answer set.
    NotAnAnswerSet,
    // 14: the pick does not choose one of the four outcomes.
    NoOutcome,
    // 15: the chosen reading is infinite or not a number.
    UnfitReading,
}

impl Refusal {
    pub fn number(self) -> u16
        ensures { result ≡ means.number self }
    {
        match self {
            Refusal::TooShort => 1,
            Refusal::OtherForm => 2,
            Refusal::CountsOut => 3,
            Refusal::Misplaced => 4,
            Refusal::BadCounts => 5,
            Refusal::AtomsOut => 6,
            Refusal::Unsorted => 7,
            Refusal::BadPairs => 8,
            Refusal::BitsOut => 9,
            Refusal::NoAnswerSet => 10,
            Refusal::NoRoom => 11,
            Refusal::TooManySplits => 12,
            Refusal::NotAnAnswerSet => 13,
            Refusal::NoOutcome => 14,
            Refusal::UnfitReading => 15,
        }
    }
}

// The number, as the programs print it.
impl fmt::Display for Refusal {
    ghost output = { λ e. Some (decimal (means.number e)) };

    fn fmt<W: fmt::Write>(&self, f: &mut fmt::Formatter<W>) -> fmt::Result {
        write!(f, "{}", self.number())
    }
}

impl Error for Refusal {}
