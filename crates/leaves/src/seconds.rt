// A figure in seconds and its word, also for a not-a-number, whose bits the language leaves open: the word of the quiet one.
ghost use Rattle.std.specs.Prelude.{◌≡◌, from_bits, to_bits};
ghost use Rattle.std.specs.Float.{binary64};

use words::SecondsWord;

const EXPONENT: u64 = 4503599627370496;

const SIGN: u64 = 9223372036854775808;

const QUIET: u64 = 9221120237041090560;

pub(crate) fn seconds_of(word: u64) -> f64
    ensures { result ≡ from_bits binary64 word }
{
    // `&`: the proof has the test as one fact, that these are the bits of a not-a-number.
    if (word % SIGN / EXPONENT == 2047) & (word % EXPONENT != 0) {
        return f64::NAN;
    }
    f64::from_bits(word)
}

// The bits of every figure, so that a line can be read back.
pub(crate) struct AnyFigure;

impl SecondsWord for AnyFigure {
    ghost told = { to_bits binary64 };

    #[tactic(auto, using(crate::proofs::FloatWord::nan_told))]
    fn word(seconds: f64) -> u64 {
        if seconds.is_nan() {
            return QUIET;
        }
        seconds.to_bits()
    }
}
