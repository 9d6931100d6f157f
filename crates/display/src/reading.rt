// One reading: whether it can be shown, and its bits.
ghost use Rattle.std.specs.Prelude.{◌≡◌};
ghost use Rattle.std.specs.Float.{nan};
ghost use Rattle.display.specs.Readings as means;

// Neither infinite nor not a number.
#[tactic(auto, using(crate::proofs::Finite::finite_is))]
pub fn is_finite(x: f32) -> bool
    ensures { result ≡ means.finite x }
{
    x.is_finite()
}

// A NaN.
#[tactic(auto, using(crate::proofs::Finite::nan_pattern))]
pub fn not_a_number() -> f32
    ensures { result ≡ nan }
{
    f32::NAN
}

// Its bits. A NaN has those of the plain quiet NaN.
#[tactic(auto, using(crate::proofs::Finite::nan_bits_are))]
pub fn bits_of(x: f32) -> u32
    ensures { result ≡ means.bits_of x }
{
    if x.is_nan() {
        return 0x7fc0_0000;
    }
    x.to_bits()
}

// The reading that has these bits. Every pattern of a NaN gives a NaN; the library's call asks for one that is no NaN's.
#[tactic(auto, using(crate::proofs::Finite::no_nan_pattern, crate::proofs::Finite::nan_pattern))]
pub fn of_bits(bits: u32) -> f32
    ensures { result ≡ means.of_word bits }
{
    if bits % 0x8000_0000 <= 0x7f80_0000 {
        return f32::from_bits(bits);
    }
    not_a_number()
}
