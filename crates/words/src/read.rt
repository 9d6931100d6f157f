// From a page to words. This is the one place that reads literals and pairs for the tests of sets, each once for a call. Any page will do.
ghost use Rattle.std.specs.Prelude.{◌≡◌, ◌%◌, ◌^◌, ◌≤◌, length, take, drop};
ghost use Rattle.page.specs.Fields.{word_at};
ghost use Rattle.page.specs.Program.{literals};
ghost use Rattle.page.specs.Rows.{rule_of};
ghost use Rattle.words.specs.Coded as means;

use arrayvec::ArrayVec;
use page::{fields, rows};

// How many rows have a word: all rows of an accepted page.
pub fn row_total(page: &[u8]) -> usize
    ensures { (result ≡ means.row_total page.now) × (result ≤ 32) }
{
    usize::from(fields::row_count(page)).min(32)
}

// How many pairs have a word: all pairs of an accepted page.
pub fn pair_total(page: &[u8]) -> usize
    ensures { (result ≡ means.pair_total page.now) × (result ≤ 8) }
{
    usize::from(fields::pair_count(page)).min(8)
}

// The n literals from `from` on as a set.
fn set_of(page: &[u8], from: usize, n: u8) -> u16
    requires { from ≤ 2 ^ 33 }
    ensures { result ≡ means.atoms_of (literals page.now from n) }
{
    let mut s = 0;
    for k in 0..n {
        s = atoms::with_atom(s, fields::byte_at(page, from + usize::from(k)));
    }
    s
}

// The n literals from `from` on, four bits each, the first one lowest. It keeps 24 bits: the first six literals.
fn packed(page: &[u8], from: usize, n: u8) -> u32
    requires { from ≤ 2 ^ 33 }
    ensures { result ≡ means.packed (literals page.now from n) % 16777216 }
{
    let mut h: u32 = 0;
    for k in (0..n).rev() {
        let a = u32::from(fields::byte_at(page, from + usize::from(k)));
        h = (a % 16 + 16 * h) % 16777216;
    }
    h
}

// The word of a row.
fn row_word(page: &[u8], row: rows::Row) -> u64
    ensures { result ≡ means.row_word (rule_of page.now row) }
{
    let place = row.place as usize;
    let count = row.head;
    let body = place + usize::from(count);
    let pos = u64::from(set_of(page, body, row.pos));
    let neg = u64::from(set_of(page, body + usize::from(row.pos), row.neg));
    let head = u64::from(packed(page, place, count));
    pos + 65536 * neg + 4294967296 * u64::from(count) + 1099511627776 * head
}

// The word of each row, in row order, at the start of the lent array; the words after these stay as they were. A vector that is handed out is copied once
// more, which was a fifth of the list of a small page: so the calls that try all sets lend an array.
pub fn fill_rows(page: &[u8], words: &mut [u64; 32])
    ensures { (length words.new ≡ 32) × (take (means.row_total page.now) words.new ≡ means.row_words page.now) × (drop (means.row_total page.now) words.new ≡ drop (means.row_total page.now) words.old) }
{
    // As a slice the array is known to have 32 words.
    let out: &mut [u64] = words;
    let total = row_total(page);
    let mut place = rows::first_place(page);
    for r in 0..total {
        let row = rows::row_from(page, r as u16, place);
        out[r] = row_word(page, row);
        place = rows::place_after(row);
    }
}

// The word of each row, in row order, in place of what the lent vector had. The calls that test one set lend theirs, for the same reason.
pub fn put_rows(page: &[u8], words: &mut ArrayVec<u64, 32>)
    ensures { words.new.items ≡ means.row_words page.now }
{
    words.clear();
    let total = row_total(page);
    let mut place = rows::first_place(page);
    for n in 0..total {
        let row = rows::row_from(page, n as u16, place);
        words.push(row_word(page, row));
        place = rows::place_after(row);
    }
}

// The word of each row, in row order.
pub fn row_words(page: &[u8]) -> ArrayVec<u64, 32>
    ensures { result.items ≡ means.row_words page.now }
{
    let mut words = ArrayVec::new();
    put_rows(page, &mut words);
    words
}

// The word of a pair: one atom in the lower 8 bits, the other in the upper.
fn pair_word(page: &[u8], at: usize) -> u16
    requires { at ≤ 2 ^ 33 }
    ensures { result ≡ word_at page.now at }
{
    u16::from_le_bytes([fields::byte_at(page, at), fields::byte_at(page, at + 1)])
}

// The word of each pair, in the page's order.
pub fn pair_words(page: &[u8]) -> ArrayVec<u16, 8>
    ensures { result.items ≡ means.pair_words page.now }
{
    let from = fields::pairs_at(page) as usize;
    let mut words = ArrayVec::new();
    for n in 0..pair_total(page) {
        words.push(pair_word(page, from + 2 * n));
    }
    words
}
