// How many atoms, rows, literals and pairs a page may have. Reading and writing a page ask the same.
ghost use Rattle.std.specs.Prelude.{◌≡◌};
ghost use Rattle.page.specs.Refusals as refusals;

// The number n lies from low to high.
fn in_range(n: usize, low: usize, high: usize) -> bool
    ensures { result ≡ refusals.in_range low high n }
{
    (low..=high).contains(&n)
}

// One of the four numbers lies outside its range.
pub fn counts_out(atoms: usize, rows: usize, literals: usize, pairs: usize) -> bool
    ensures { result ≡ refusals.counts_out atoms rows literals pairs }
{
    let atoms_fit = in_range(atoms, 1, 16);
    let rows_fit = in_range(rows, 0, 32);
    let literals_fit = in_range(literals, 0, 704);
    let pairs_fit = in_range(pairs, 0, 8);
    !(atoms_fit & (rows_fit & (literals_fit & pairs_fit)))
}
