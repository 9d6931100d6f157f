// Which of two sets is preferred: what a comparison asks. The searches for best sets rank 64 sets at once, in lanes, by the same relation.
// It takes the rows in words, so that nothing of the page is read for a pair of sets. Any words, flag word and sets will do.
ghost use Rattle.std.specs.Prelude.{◌≡◌};
ghost use Rattle.lpod.specs.Degree.{degree};
ghost use Rattle.words.specs.Coded.{rule_in};
ghost use Rattle.engine.specs.Rank as means;

use words::row;

// Where two sets differ: the least degree that a row has in one of them alone; whether some row has it in the first set alone, and whether some
// row has it in the second alone.
#[derive(Clone, Copy)]
pub struct Difference {
    pub degree: u8,
    pub first: bool,
    pub second: bool,
}

// A row has this degree in one set alone: in the first, or else in the second. It counts where it is the least so far. A row that a set
// does not satisfy has no degree there, which is written 0.
#[tactic(auto, using(std::proofs::lemmas::Bool::Decides::nat_tests), unfolding(crate::specs::Rank::noted, crate::specs::Rank::added))]
fn noted(found: Option<Difference>, degree: u8, first: bool) -> Option<Difference>
    ensures { result ≡ means.noted found degree first }
{
    if degree == 0 {
        return found;
    }
    match found {
        Some(least) if least.degree < degree => found,
        Some(least) if least.degree == degree => Some(Difference {
            degree,
            first: least.first || first,
            second: least.second || !first,
        }),
        _ => Some(Difference {
            degree,
            first,
            second: !first,
        }),
    }
}

// One row more, with its degrees in the two sets.
#[tactic(auto, using(std::proofs::lemmas::Bool::Decides::nat_tests), unfolding(crate::specs::Rank::seen))]
fn seen(found: Option<Difference>, row: u64, m: u16, n: u16) -> Option<Difference>
    ensures { result ≡ means.seen found (degree m (rule_in row)) (degree n (rule_in row)) }
{
    let first = row::degree(row, m);
    let second = row::degree(row, n);
    if first == second {
        return found;
    }
    noted(noted(found, first, true), second, false)
}

// Where the rows of the raised atoms differ: such a row has degree 1 in a set that holds its atom, and no other degree.
#[tactic(auto, unfolding(crate::specs::Rank::raised_seen))]
fn raised(flags: u16, m: u16, n: u16) -> Option<Difference>
    ensures { result ≡ means.raised_seen flags m n }
{
    let first = !atoms::part_of(atoms::common(flags, m), n);
    let second = !atoms::part_of(atoms::common(flags, n), m);
    if first || second {
        Some(Difference {
            degree: 1,
            first,
            second,
        })
    } else {
        None
    }
}

// m is preferred to n: at the least degree where the two differ, some row has it in m alone and no row has it in n alone.
#[tactic(auto, using(crate::proofs::LeastKept::rows_next), unfolding(words::specs::Coded::rules_in))]
pub fn preferred(rows: &[u64], flags: u16, m: u16, n: u16) -> bool
    ensures { means.PreferredSays rows.now flags m n result }
{
    let mut found = raised(flags, m, n);
    for &row in rows {
        found = seen(found, row, m, n);
    }
    found.is_some_and(|least| least.first && !least.second)
}
