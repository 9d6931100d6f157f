// Sets of atoms in 16 bits: bit i is atom i. Every function takes every number.
#![tactic(auto)]

ghost use Rattle.std.specs.Prelude.{◌≡◌};
ghost use Rattle.atoms.specs.Atoms as sets;

// Atom a is in s. No number of 16 or more is.
pub fn holds(s: u16, a: u8) -> bool
    ensures { result ≡ sets.has s a }
{
    if a < 16 {
        return (s >> a) % 2 == 1;
    }
    false
}

// s with atom a. A number of 16 or more adds nothing.
pub fn with_atom(s: u16, a: u8) -> u16
    ensures { result ≡ sets.with_atom s a }
{
    if a < 16 {
        return s | (1 << a);
    }
    s
}

// Each atom of a is in b.
pub fn part_of(a: u16, b: u16) -> bool
    ensures { result ≡ sets.inside a b }
{
    a & b == a
}

// The atoms of a and those of b.
pub fn union(a: u16, b: u16) -> u16
    ensures { result ≡ sets.union a b }
{
    a | b
}

// The atoms that are in both.
pub fn common(a: u16, b: u16) -> u16
    ensures { result ≡ sets.common a b }
{
    a & b
}

// How many atoms s has.
pub fn how_many(s: u16) -> u32
    ensures { result ≡ sets.how_many s }
{
    u16::count_ones(s)
}

// The lowest atom of s, 16 where s is empty: a number and no `Option`, as `lowest` of specs/Atoms.antt says it and the library's call gives it.
pub fn lowest(s: u16) -> u32
    ensures { result ≡ sets.lowest s }
{
    u16::trailing_zeros(s)
}
