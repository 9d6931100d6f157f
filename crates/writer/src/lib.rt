// Writes pages: from a number of atoms, rows of three counts, literals and pairs to the bytes of the page, in lent memory. The page is made in memory
// of this call and checked as any page is; only where it is accepted, and there is room for it, is it copied to the lent slice.
#![tactic(auto)]

ghost use Rattle.std.specs.Prelude.{◌≡◌, false, ◌+◌, ◌*◌, ◌/◌, ◌≤◌, length};
ghost use Rattle.std.proofs.lemmas.List.Edits.{sets};
ghost use Rattle.lanes.specs.Entries.{over};
ghost use Rattle.writer.specs.Content.{header_numbers, two_bytes, four_bytes, encode};
ghost use Rattle.writer.specs.Given.{given};
ghost use Rattle.writer.specs.Writes as means;

use page::refusal::Refusal;
use page::{accept, ranges};

// What a page is made from: how many atoms, three counts for each row, the literals row after row, two atoms for each pair.
#[derive(Clone, Copy)]
pub struct Content<'a> {
    pub atoms: usize,
    pub rows: &'a [u8],
    pub literals: &'a [u8],
    pub pairs: &'a [u8],
}

impl<'a> Content<'a> {
    // 3: lengths that are no whole number of rows or of pairs, or numbers outside their range.
    #[tactic(auto, unfolding(crate::specs::Writes::sizes_out, crate::specs::Writes::ragged))]
    fn sizes_out(&self) -> bool
        ensures { result ≡ means.sizes_out (given self.now) }
    {
        let whole = (self.rows.len() % 3 == 0) & (self.pairs.len() % 2 == 0);
        let out = ranges::counts_out(
            self.atoms,
            self.rows.len() / 3,
            self.literals.len(),
            self.pairs.len() / 2,
        );
        !whole | out
    }
}

// Stores a part as it is, from place `at` on.
fn put(part: &[u8], at: usize, out: &mut [u8])
    requires { at + length part.now ≤ length out.old }
    ensures { out.new ≡ sets out.old at part.now }
{
    out[at..at + part.len()].copy_from_slice(part);
}

// Stores the header's numbers, each in two bytes, the low one first. The bytes have names, so that an edit can exchange them and nothing else.
fn put_header(numbers: [u16; 9], out: &mut [u8])
    requires { 18 ≤ length out.old }
    ensures { out.new ≡ sets out.old 0 (two_bytes numbers) }
{
    for (i, n) in numbers.iter().enumerate() {
        let [low, high] = n.to_le_bytes();
        put(&[low, high], 2 * i, &mut *out);
    }
}

// Stores the rows after the header: the three counts of each, and a zero.
fn put_rows(rows: &[u8], out: &mut [u8])
    requires { 18 + 4 * (length rows.now / 3) ≤ length out.old }
    ensures { out.new ≡ sets out.old 18 (four_bytes rows.now) }
{
    let (counts, _) = rows.as_chunks::<3>();
    for (i, &[head, pos, neg]) in counts.iter().enumerate() {
        put(&[head, pos, neg, 0], 18 + 4 * i, &mut *out);
    }
}

// A content whose sizes are in range, so that its page is at most 866 bytes long.
#[derive(Clone, Copy)]
struct InRange<'a> {
    content: Content<'a>,
    ghost atoms_most: { content.atoms ≤ 16 },
    ghost rows_most: { length content.rows.now ≤ 96 },
    ghost literals_most: { length content.literals.now ≤ 704 },
    ghost pairs_most: { length content.pairs.now ≤ 16 },
}

impl<'a> InRange<'a> {
    // The header's nine numbers.
    #[tactic(auto, unfolding(crate::specs::Content::header_fields))]
    fn numbers(&self) -> [u16; 9]
        ensures { result ≡ header_numbers (given self.now.content) }
    {
        let content = self.content;
        let atoms = content.atoms as u16;
        let rows = (content.rows.len() / 3) as u16;
        let literals = content.literals.len() as u16;
        let pairs = (content.pairs.len() / 2) as u16;
        let literals_at = 18 + 4 * rows;
        let pairs_at = literals_at + literals;
        let end = pairs_at + 2 * pairs;
        [
            1,
            atoms,
            rows,
            literals,
            pairs,
            18,
            literals_at,
            pairs_at,
            end,
        ]
    }

    // How long the page is.
    #[tactic(auto, using(crate::proofs::Bytes::length_page))]
    fn length(&self) -> usize
        ensures { (result ≡ length (encode (given self.now.content))) × (result ≤ 866) }
    {
        let content = self.content;
        18 + 4 * (content.rows.len() / 3) + content.literals.len() + content.pairs.len()
    }

    // Stores the page at the start of a slice that has room for it.
    #[tactic(auto, using(crate::proofs::Bytes::length_page))]
    fn fill(&self, out: &mut [u8])
        requires { length (encode (given self.now.content)) ≤ length out.old }
        ensures { out.new ≡ over (encode (given self.now.content)) out.old }
    {
        let content = self.content;
        let literals_at = 18 + 4 * (content.rows.len() / 3);
        let pairs_at = literals_at + content.literals.len();
        put_header(self.numbers(), &mut *out);
        put_rows(content.rows, &mut *out);
        put(content.literals, literals_at, &mut *out);
        put(content.pairs, pairs_at, &mut *out);
    }
}

// Makes the page at the start of the lent slice; later bytes keep their content. Refusals 3, 5, 6, 7, 8, then 11 for a slice that is too short;
// else how long the page is.
pub fn write(content: &Content, buffer: &mut [u8]) -> Result<u16, Refusal>
    ensures { means.WriteSays (given content.now) buffer.old result buffer.new }
{
    if content.sizes_out() {
        return Err(Refusal::CountsOut);
    }
    let fit = InRange { content: *content };
    let end = fit.length();
    let mut page = [0u8; 866];
    fit.fill(&mut page[..end]);
    accept::check_page(&page[..end])?;
    if buffer.len() < end {
        return Err(Refusal::NoRoom);
    }
    put(&page[..end], 0, buffer);
    Ok(end as u16)
}
