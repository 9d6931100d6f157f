// Whether a page is accepted: it is refused for the first condition of the list that holds. A flag word and a given set add a condition each.
ghost use Rattle.std.specs.Prelude.{◌≡◌};
ghost use Rattle.page.specs.Refusals as refusals;
ghost use Rattle.page.specs.Answers.{no};

use crate::fields;
use crate::refusal::Refusal;

mod content;
mod header;

// The page is accepted, or refused for the first condition that holds.
#[tactic(auto, unfolding(crate::specs::Refusals::page_no, crate::specs::Refusals::page_refusals, crate::specs::Refusals::first_that, crate::specs::Answers::no, crate::specs::Answers::number))]
pub fn check_page(page: &[u8]) -> Result<(), Refusal>
    ensures { no result ≡ refusals.page_no page.now }
{
    if header::too_short(page) {
        return Err(Refusal::TooShort);
    }
    if header::other_form(page) {
        return Err(Refusal::OtherForm);
    }
    if header::out_of_range(page) {
        return Err(Refusal::CountsOut);
    }
    if header::misplaced(page) {
        return Err(Refusal::Misplaced);
    }
    // One walk over the rows answers 5 and 7; each is given in its turn.
    let seen = content::rows_seen(page);
    if seen.misfit {
        return Err(Refusal::BadCounts);
    }
    if content::atoms_out(page) {
        return Err(Refusal::AtomsOut);
    }
    if seen.unsorted {
        return Err(Refusal::Unsorted);
    }
    if content::bad_pairs(page) {
        return Err(Refusal::BadPairs);
    }
    Ok(())
}

// The word s has a bit at place a or above.
fn bits_from(a: u16, s: u16) -> bool
    ensures { result ≡ refusals.bits_from a s }
{
    a < 16 && s >> a != 0
}

// A given set, or a flag word, is refused where it has a bit at A or above.
#[tactic(auto, unfolding(crate::specs::Refusals::set_no, crate::specs::Refusals::set_refusals, crate::specs::Refusals::set_out, crate::specs::Refusals::first_that, crate::specs::Answers::no, crate::specs::Answers::number))]
pub fn check_set(page: &[u8], set: u16) -> Result<(), Refusal>
    ensures { no result ≡ refusals.set_no page.now set }
{
    if bits_from(fields::atom_count(page), set) {
        return Err(Refusal::BitsOut);
    }
    Ok(())
}

// The refusals of a call with a page and a flag word.
pub fn check_flags(page: &[u8], flags: u16) -> Result<(), Refusal>
    ensures { no result ≡ refusals.flag_no page.now flags }
{
    check_page(page)?;
    check_set(page, flags)
}

// The refusals of a call with a page, a flag word and a set.
pub fn check_test(page: &[u8], flags: u16, set: u16) -> Result<(), Refusal>
    ensures { no result ≡ refusals.test_no page.now flags set }
{
    check_flags(page, flags)?;
    check_set(page, set)
}
