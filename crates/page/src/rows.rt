// The rows of a page, one at a time: a row's three counts and the place of its literals. A row is handed around by value. Every function takes any
// page and any row.
ghost use Rattle.std.specs.Prelude.{◌≡◌};
ghost use Rattle.page.specs.Fields.{literals_at};
ghost use Rattle.page.specs.Program.{literal_place};
ghost use Rattle.page.specs.Rows as means;

use super::fields;

// One row as it stands on the page: its three counts and the place of its first literal.
#[derive(Clone, Copy)]
pub struct Row {
    pub head: u8,
    pub pos: u8,
    pub neg: u8,
    pub place: u32,
}

// Row n, whose first literal stands at `place`.
pub fn row_from(page: &[u8], n: u16, place: u32) -> Row
    ensures { result ≡ means.row_from page.now n place }
{
    let at = 18 + 4 * usize::from(n);
    // One test for the row's counts, where the page has the whole row.
    if at + 3 < page.len() {
        let head = page[at];
        let pos = page[at + 1];
        let neg = page[at + 2];
        return Row {
            head,
            pos,
            neg,
            place,
        };
    }
    let head = fields::head_count(page, n);
    let pos = fields::pos_count(page, n);
    let neg = fields::neg_count(page, n);
    Row {
        head,
        pos,
        neg,
        place,
    }
}

// The place of the first literal of row 0.
pub fn first_place(page: &[u8]) -> u32
    ensures { result ≡ literals_at page.now }
{
    fields::literals_at(page)
}

// The place after the row's last literal: where the next row's first one stands. It goes round at 32 bits, which no row of a page comes near.
pub fn place_after(row: Row) -> u32
    ensures { result ≡ means.place_after row }
{
    let literals = u32::from(row.head) + u32::from(row.pos) + u32::from(row.neg);
    row.place.wrapping_add(literals)
}

// The place of the first literal of row n.
pub fn place_of(page: &[u8], n: u16) -> u32
    ensures { result ≡ literal_place page.now n }
{
    let mut place = first_place(page);
    for r in 0..n {
        place = place_after(row_from(page, r, place));
    }
    place
}
