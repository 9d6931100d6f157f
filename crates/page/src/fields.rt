// The fields of a page and where its parts start. A byte past the end reads as 0, and nothing is read there.
ghost use Rattle.std.specs.Prelude.{◌≡◌, ◌+◌, ◌*◌};
ghost use Rattle.page.specs.Fields as fields;

// The byte at i, 0 past the end.
pub fn byte_at(page: &[u8], i: usize) -> u8
    ensures { result ≡ fields.byte_at page.now i }
{
    page.get(i).copied().unwrap_or(0)
}

// The two bytes from i on, the low one first.
pub fn word_at(page: &[u8], i: u8) -> u16
    ensures { result ≡ fields.word_at page.now i }
{
    let at = usize::from(i);
    u16::from_le_bytes([byte_at(page, at), byte_at(page, at + 1)])
}

pub fn form_of(page: &[u8]) -> u16
    ensures { result ≡ fields.form_of page.now }
{
    word_at(page, 0)
}

pub fn atom_count(page: &[u8]) -> u16
    ensures { result ≡ fields.atom_count page.now }
{
    word_at(page, 2)
}

pub fn row_count(page: &[u8]) -> u16
    ensures { result ≡ fields.row_count page.now }
{
    word_at(page, 4)
}

pub fn literal_count(page: &[u8]) -> u16
    ensures { result ≡ fields.literal_count page.now }
{
    word_at(page, 6)
}

pub fn pair_count(page: &[u8]) -> u16
    ensures { result ≡ fields.pair_count page.now }
{
    word_at(page, 8)
}

// Where the rows, the literals and the pairs start, and where the page ends. The counts are 16-bit numbers, so these
// fit 32 bits whatever the header says.
pub fn rows_at(page: &[u8]) -> u32
    ensures { result ≡ fields.rows_at page.now }
{
    18
}

pub fn literals_at(page: &[u8]) -> u32
    ensures { result ≡ fields.literals_at page.now }
{
    let rows = u32::from(row_count(page));
    18 + 4 * rows
}

pub fn pairs_at(page: &[u8]) -> u32
    ensures { result ≡ fields.pairs_at page.now }
{
    let rows = u32::from(row_count(page));
    let literals = u32::from(literal_count(page));
    18 + 4 * rows + literals
}

pub fn end_of(page: &[u8]) -> u32
    ensures { result ≡ fields.end_of page.now }
{
    let rows = u32::from(row_count(page));
    let literals = u32::from(literal_count(page));
    let pairs = u32::from(pair_count(page));
    18 + 4 * rows + literals + 2 * pairs
}

// Byte k of row r.
fn row_byte(page: &[u8], r: u16, k: u8) -> u8
    ensures { result ≡ fields.byte_at page.now (fields.rows_at page.now + 4 * r + k) }
{
    let at = rows_at(page) as usize;
    byte_at(page, at + 4 * usize::from(r) + usize::from(k))
}

// The counts of row r and the byte after them.
pub fn head_count(page: &[u8], r: u16) -> u8
    ensures { result ≡ fields.head_count page.now r }
{
    row_byte(page, r, 0)
}

pub fn pos_count(page: &[u8], r: u16) -> u8
    ensures { result ≡ fields.pos_count page.now r }
{
    row_byte(page, r, 1)
}

pub fn neg_count(page: &[u8], r: u16) -> u8
    ensures { result ≡ fields.neg_count page.now r }
{
    row_byte(page, r, 2)
}

pub fn spare_byte(page: &[u8], r: u16) -> u8
    ensures { result ≡ fields.spare_byte page.now r }
{
    row_byte(page, r, 3)
}

// How many literals row r has.
pub fn literals_of(page: &[u8], r: u16) -> u16
    ensures { result ≡ fields.literals_of page.now r }
{
    let head = u16::from(head_count(page, r));
    let pos = u16::from(pos_count(page, r));
    let neg = u16::from(neg_count(page, r));
    head + pos + neg
}
