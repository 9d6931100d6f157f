// The display of one product, on whose pages atoms 0 to 3 are live, second, held and none: what it shows of the three current readings, by a page
// and a flag word. Of the page it knows only what public calls answer: the pick, and how many atoms there are.
#![tactic(auto)]

ghost use Rattle.std.specs.Prelude.{◌≡◌};
ghost use Rattle.std.specs.Float.{nan};
ghost use Rattle.display.specs.Shows as means;

pub mod reading;

use page::refusal::Refusal;

// The three current readings in NTU.
#[derive(Clone, Copy, Debug, PartialEq)]
pub struct Readings {
    pub live: f32,
    pub second: f32,
    pub held: f32,
}

// What stands on the display: one of the readings, or no number where the pick is "none".
#[derive(Clone, Copy, Debug, PartialEq)]
pub enum Shown {
    Live(f32),
    Second(f32),
    Held(f32),
    NoNumber,
}

impl Readings {
    // An outcome with its reading.
    #[tactic(auto, using(crate::proofs::OneOutcome::last_outcome), unfolding(crate::specs::Shows::shown_at))]
    fn shown_at(self, outcome: u32) -> Shown
        ensures { result ≡ means.shown_at outcome self }
    {
        match outcome {
            0 => Shown::Live(self.live),
            1 => Shown::Second(self.second),
            2 => Shown::Held(self.held),
            _ => Shown::NoNumber,
        }
    }

    // The outcome that the set holds, with its reading; the lowest where it holds several.
    #[tactic(auto, using(crate::proofs::OneOutcome::lowest_chosen), unfolding(crate::specs::Shows::shown_of))]
    fn shown_of(self, set: u16) -> Shown
        ensures { result ≡ means.shown_of set self }
    {
        self.shown_at(atoms::lowest(atoms::common(set, 15)))
    }
}

impl Shown {
    // The reading that is shown, where there is one.
    #[tactic(auto, unfolding(crate::specs::Shows::reading_of))]
    pub fn reading(self) -> Option<f32>
        ensures { result ≡ means.reading_of self }
    {
        match self {
            Shown::Live(x) | Shown::Second(x) | Shown::Held(x) => Some(x),
            Shown::NoNumber => None,
        }
    }

    // Its number is neither infinite nor not a number, or it has none.
    #[tactic(auto, unfolding(crate::specs::Shows::fit))]
    fn is_fit(self) -> bool
        ensures { result ≡ means.fit (means.reading_of self) }
    {
        self.reading().is_none_or(reading::is_finite)
    }
}

// The reading that is shown; a NaN where none is.
#[tactic(auto, unfolding(crate::specs::Shows::reading_or))]
pub fn reading_of(shown: Shown) -> f32
    ensures { result ≡ means.reading_or nan (means.reading_of shown) }
{
    shown.reading().unwrap_or(reading::not_a_number())
}

// Where one outcome is chosen: 15 if its reading is infinite or not a number, else what it shows.
#[tactic(auto, unfolding(page::specs::Answers::by_number, crate::specs::Shows::fit_no, crate::specs::Shows::unfit, page::specs::Refusals::first_that))]
fn fitted(shown: Shown) -> Result<Shown, Refusal>
    ensures { means.FitSays shown result }
{
    if !shown.is_fit() {
        return Err(Refusal::UnfitReading);
    }
    Ok(shown)
}

// A page of so many atoms whose pick is the set shows nothing: fewer than four, or not exactly one of the four in the set.
#[tactic(auto, using(crate::proofs::OneOutcome::how_many_chosen), unfolding(crate::specs::Shows::lacks_outcome, crate::specs::Shows::one_chosen))]
fn lacks_outcome(count: u16, set: u16) -> bool
    ensures { result ≡ means.lacks_outcome count set }
{
    (count < 4) | (atoms::how_many(atoms::common(set, 15)) != 1)
}

// The refusals of the pick, then 14 where the page has fewer than four atoms or the pick does not hold exactly one of the four, then 15 where the
// chosen reading is infinite or not a number; else what the pick shows.
#[tactic(auto, using(crate::proofs::Turns::by_outcome, crate::proofs::Turns::by_reading))]
pub fn display(readings: Readings, page: &[u8], flags: u16) -> Result<Shown, Refusal>
    ensures { means.DisplaySays readings page.now flags result }
{
    let set = engine::pick::pick(page, flags)?;
    if lacks_outcome(page::fields::atom_count(page), set) {
        return Err(Refusal::NoOutcome);
    }
    fitted(readings.shown_of(set))
}
