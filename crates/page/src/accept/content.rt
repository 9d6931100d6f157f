// What a page's rows, literals and pairs are refused for: conditions 5 to 8. Each takes every page, also one that an earlier
// condition refuses.
ghost use Rattle.std.specs.Prelude.{◌≡◌, ◌≤◌, ◌&&◌, leb, eqb};
ghost use Rattle.lpod.specs.Lists.{every};
ghost use Rattle.page.specs.Program.{literals, pairs_from};
ghost use Rattle.page.specs.Refusals as refusals;
ghost use Rattle.page.specs.Rows.{rule_of};
ghost use Rattle.page.specs.Scan as scan;

use crate::{fields, rows};

// The counts of a row are small enough, and its fourth byte is zero.
fn row_fits(row: rows::Row, last: u8) -> bool
    ensures { result ≡ (leb row.head 6 && (leb row.pos 8 && (leb row.neg 8 && eqb last 0))) }
{
    let head = row.head <= 6;
    let pos = row.pos <= 8;
    let neg = row.neg <= 8;
    let spare = last == 0;
    head & (pos & (neg & spare))
}

// The n bytes from place `from` on, each `step` after the one before, rise strictly. No header can state a place that is
// as far as the bounds here and below.
fn rises_by(page: &[u8], step: u8, from: usize, n: u16) -> bool
    requires { from ≤ 6000000000 }
    ensures { result ≡ refusals.rises (scan.spaced page.now step from n) }
{
    let mut at = from;
    for k in 1..n {
        let next = at + usize::from(step);
        if fields::byte_at(page, next) <= fields::byte_at(page, at) {
            return false;
        }
        at = next;
    }
    true
}

// Both bodies of a row rise.
fn bodies_rise(page: &[u8], row: rows::Row) -> bool
    ensures { result ≡ refusals.bodies_rise (rule_of page.now row) }
{
    let pos_at = row.place as usize + row.head as usize;
    let neg_at = pos_at + row.pos as usize;
    let first = rises_by(page, 1, pos_at, u16::from(row.pos));
    let second = rises_by(page, 1, neg_at, u16::from(row.neg));
    first & second
}

// What one walk over the rows sees of conditions 5 and 7.
#[derive(Clone, Copy)]
pub struct Seen {
    pub misfit: bool,
    pub unsorted: bool,
}

// 5: a row that does not fit, or rows whose literals do not end where the pairs start. 7: a body list that does not rise
// strictly. Both are asked of every row, so one walk answers both.
pub fn rows_seen(page: &[u8]) -> Seen
    ensures misfit_value { result.misfit ≡ refusals.bad_counts page.now }
    ensures unsorted_value { result.unsorted ≡ refusals.unsorted page.now }
{
    let total = fields::row_count(page);
    let mut place = rows::first_place(page);
    let mut fit = true;
    let mut rise = true;
    for r in 0..total {
        let row = rows::row_from(page, r, place);
        fit = fit & row_fits(row, fields::spare_byte(page, r));
        rise = rise & bodies_rise(page, row);
        place = rows::place_after(row);
    }
    let end = place == fields::pairs_at(page);
    Seen {
        misfit: !(fit & end),
        unsorted: !rise,
    }
}

// The n bytes from place `from` on are all below the number of atoms.
fn all_below(page: &[u8], from: u32, n: u32, atoms: u16) -> bool
    ensures { result ≡ every (refusals.is_below atoms) (literals page.now from n) }
{
    let from = from as usize;
    for k in 0..n as usize {
        if atoms <= u16::from(fields::byte_at(page, from + k)) {
            return false;
        }
    }
    true
}

// 6: an atom number that is not below A.
pub fn atoms_out(page: &[u8]) -> bool
    ensures { result ≡ refusals.atoms_out page.now }
{
    let atoms = fields::atom_count(page);
    let literals = all_below(
        page,
        fields::literals_at(page),
        u32::from(fields::literal_count(page)),
        atoms,
    );
    let pairs = all_below(
        page,
        fields::pairs_at(page),
        2 * u32::from(fields::pair_count(page)),
        atoms,
    );
    !(literals & pairs)
}

// The n pairs from place `from` on share no atom with the pair of one and other.
fn apart_from(page: &[u8], one: u8, other: u8, from: usize, n: u16) -> bool
    requires { from ≤ 5000000000 }
    ensures { result ≡ every (refusals.apart (record { one = one; other = other })) (pairs_from page.now from n) }
{
    for k in 0..usize::from(n) {
        let i = from + 2 * k;
        let a = fields::byte_at(page, i);
        let b = fields::byte_at(page, i + 1);
        let fine = (one != a) & ((one != b) & ((other != a) & (other != b)));
        if !fine {
            return false;
        }
    }
    true
}

// Each of the n pairs from place `from` on is in order, and no atom stands in two of them.
fn pairs_hold(page: &[u8], from: u32, n: u16) -> bool
    ensures { result ≡ scan.pairs_hold (pairs_from page.now from n) }
{
    for k in 0..n {
        let i = from as usize + 2 * k as usize;
        let one = fields::byte_at(page, i);
        let other = fields::byte_at(page, i + 1);
        if other <= one {
            return false;
        }
        if !apart_from(page, one, other, i + 2, n - k - 1) {
            return false;
        }
    }
    true
}

// 8: a pair out of order, first members that do not rise, or an atom in two pairs.
pub fn bad_pairs(page: &[u8]) -> bool
    ensures { result ≡ refusals.bad_pairs page.now }
{
    let from = fields::pairs_at(page);
    let n = fields::pair_count(page);
    let rise = rises_by(page, 2, from as usize, n);
    let hold = pairs_hold(page, from, n);
    !(rise & hold)
}
