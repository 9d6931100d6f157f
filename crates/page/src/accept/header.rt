// What a page's header is refused for: conditions 1 to 4. Each takes every page.
ghost use Rattle.std.specs.Prelude.{◌≡◌};
ghost use Rattle.page.specs.Refusals as refusals;

use crate::{fields, ranges};

// 1: shorter than the header.
pub fn too_short(page: &[u8]) -> bool
    ensures { result ≡ refusals.short page.now }
{
    page.len() < 18
}

// 2: the form is not 1.
pub fn other_form(page: &[u8]) -> bool
    ensures { result ≡ refusals.other_form page.now }
{
    fields::form_of(page) != 1
}

// 3: atoms, rows, literals or pairs outside their range.
pub fn out_of_range(page: &[u8]) -> bool
    ensures { result ≡ refusals.out_of_range page.now }
{
    let atoms = usize::from(fields::atom_count(page));
    let rows = usize::from(fields::row_count(page));
    let literals = usize::from(fields::literal_count(page));
    let pairs = usize::from(fields::pair_count(page));
    ranges::counts_out(atoms, rows, literals, pairs)
}

// 4: an offset or the whole length is not as it must be, or is not the lent length.
pub fn misplaced(page: &[u8]) -> bool
    ensures { result ≡ refusals.misplaced page.now }
{
    let rows = u32::from(fields::word_at(page, 10)) == fields::rows_at(page);
    let literals = u32::from(fields::word_at(page, 12)) == fields::literals_at(page);
    let pairs = u32::from(fields::word_at(page, 14)) == fields::pairs_at(page);
    let whole = fields::word_at(page, 16);
    let end = u32::from(whole) == fields::end_of(page);
    let lent = usize::from(whole) == page.len();
    !(rows & (literals & (pairs & (end & lent))))
}
