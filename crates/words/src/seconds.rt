// The bits of a figure in seconds. Those of a not-a-number the language leaves open, so each type says which it gives.
ghost use Rattle.std.specs.Prelude.{◌≡◌, ℕ, Float};
ghost use Rattle.words.specs.Bits.{bits_of};

pub trait SecondsWord {
    ghost told: { Float → ℕ };

    // Ruled out: the word of another figure; another word for a not-a-number than the type says.
    fn word(seconds: f64) -> u64
        ensures { result ≡ told seconds };
}

// 0 for a not-a-number, which no figure of a replay is.
pub struct Finite;

impl SecondsWord for Finite {
    ghost told = { bits_of };

    // Ruled out: the bits of a not-a-number; those of 0 for -0.
    #[tactic(auto, unfolding(crate::specs::Bits::bits_of))]
    fn word(seconds: f64) -> u64 {
        if seconds.is_nan() {
            return 0;
        }
        seconds.to_bits()
    }
}
