// The row reader: it stands on the lent page at a row number and moves forward one row at a time. Past the last row it says so and stays.
ghost use Rattle.std.specs.Prelude.{◌≡◌, ◌+◌, ◌-◌, ◌<◌, OnSome};
ghost use Rattle.std.specs.Iterator.{at_most};
ghost use Rattle.page.specs.Fields.{row_count};
ghost use Rattle.page.specs.Refusals.{page_no};
ghost use Rattle.page.specs.Answers.{no};
ghost use Rattle.page.specs.Reader as reads;

use super::refusal::Refusal;
use super::rows::Row;
use super::{accept, fields, rows};

// A page and the number of the row that is read next.
#[derive(Clone, Copy)]
pub struct Reader<'a> {
    pub src: &'a [u8],
    pub at: u16,
}

// Opening answers whether the page is accepted, and a reader.
#[derive(Clone, Copy)]
pub struct Opened<'a> {
    pub accepted: Result<(), Refusal>,
    pub reader: Reader<'a>,
}

// There is a row n: the page is accepted, and n is below R.
fn has_row(page: &[u8], n: u16) -> bool
    ensures { result ≡ reads.has_row page.now n }
{
    accept::check_page(page).is_ok() && n < fields::row_count(page)
}

// Row n of the page, by its number, or nothing. This is the function to call where no reader is kept.
pub fn row_at(page: &[u8], n: u16) -> Option<Row>
    ensures row { reads.said result ≡ reads.row_said page.now n }
    ensures next_fits { OnSome result (n + 1 < 65536) }
{
    if has_row(page, n) {
        return Some(rows::row_from(page, n, rows::place_of(page, n)));
    }
    None
}

// Opens a page: whether it is accepted, and a reader at row 0. A refused page has no row, so there the reader is past its last one.
pub fn open<'a>(src: &'a [u8]) -> Opened<'a>
    ensures { (no result.accepted ≡ page_no src.now) × (result.reader.src ≡ src.entry) × (result.reader.at ≡ 0) }
{
    let accepted = accept::check_page(src);
    Opened {
        accepted,
        reader: Reader { src, at: 0 },
    }
}

// A step gives the row where the reader is, and the reader is then one row on. Past the last row it gives nothing, and the reader stays.
impl<'a> Iterator for Reader<'a> {
    type Item = Row;

    ghost next_gives = { λ s r t. (reads.said r ≡ reads.row_said s.src.now s.at) × (t.src ≡ s.src) × (t.at ≡ reads.number_after s.src.now s.at) };

    ghost remaining = { λ s. at_most (row_count s.src.now - s.at) };

    fn next(&mut self) -> Option<Row> {
        let row = row_at(self.src, self.at)?;
        self.at += 1;
        Some(row)
    }
}
