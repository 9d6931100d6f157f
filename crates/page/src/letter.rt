// The panel letter of a refusal number.
ghost use Rattle.std.specs.Prelude.{◌≡◌};
ghost use Rattle.page.specs.Letter.{letter_of};

// P for a page fault, C for a call fault, F for a finding, and a blank for 0 and every other number. C asks by a number, and by any: so this takes a
// number and no `Refusal`.
#[tactic(auto, using(std::proofs::lemmas::Bool::Decides::nat_tests), unfolding(crate::specs::Letter::letter_of))]
pub fn letter(number: u16) -> u8
    ensures { result ≡ letter_of number }
{
    match number {
        1..=8 => b'P',
        9 | 11..=12 => b'C',
        10 | 13 => b'F',
        _ => b' ',
    }
}
