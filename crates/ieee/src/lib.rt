// Floats of the replay: the larger and the smaller of two, the whole number toward zero and a count as a float. The laws on floats
// stand in proofs/. Two operands are two parameters, as in std.
#![tactic(auto)]

ghost use Rattle.std.specs.Prelude.{◌≡◌, pos};
ghost use Rattle.std.specs.Float.Ieee as Ieee;
ghost use Rattle.ieee.specs.MaxMin.{max_of, min_of, max_num};

// One comparison: Rust's `f64::max` where a is a number. Ruled out: the smaller one; the second of two that are equal.
// Not std's `max`: it has two comparisons (measured), and leaves open which of two equal operands it gives.
#[tactic(auto, unfolding(crate::specs::MaxMin::max_of))]
pub fn max(a: f64, b: f64) -> f64
    ensures { result ≡ max_of a b }
{
    if a < b {
        return b;
    }
    a
}

// One comparison: Rust's `f64::min` where a is a number. Ruled out: the larger one; the second of two that are equal.
// Not std's `min`, for the same reasons.
pub fn min(a: f64, b: f64) -> f64
    ensures { result ≡ min_of a b }
{
    if b < a {
        return b;
    }
    a
}

// Rust's `f64::max`. Ruled out: a not-a-number kept beside a number; the smaller one.
// Not std's `max`: of two equal operands this promises the first, where std's leaves it open.
#[tactic(auto, unfolding(crate::specs::MaxMin::max_num))]
pub fn max_num(a: f64, b: f64) -> f64
    ensures { result ≡ max_num a b }
{
    if a < b {
        return b;
    }
    if a != a {
        return b;
    }
    a
}

// A count as a float, as Rust's `as f64` of a `u64`: below 2^31 in one instruction, as a signed integer.
// Ruled out: a count from 2^63 on read as a negative number; one past 2^53 rounded toward zero.
// Not std's `nearest_u64_to_f64` alone: it takes more than the one instruction.
pub fn as_float(n: u64) -> f64
    ensures { result ≡ Ieee.of_int Ieee.binary64 (pos n) }
{
    if n < 0x8000_0000 {
        return (n as i64) as f64;
    }
    std::num::nearest_u64_to_f64(n)
}

// binary64 (IEEE 754, 3.4) stores 52 bits of the significand, below a leading one that is implicit, and above them the exponent field.
const IMPLICIT_BIT: u64 = 4503599627370496;

// What is to be taken off the exponent field where the significand is read as a whole number: the bias 1023, and 52 for its places.
const BIAS: u64 = 1023 + 52;

// The whole number toward zero, as Rust's `as u64` of an `f64`: 0 below zero and for a not-a-number, 2^64 - 1 from 2^64 on.
// Ruled out: the nearest whole number; the low 64 bits of a number past 2^64.
// By steps of its own, which the project's rules ask for, and not by a truncating cast.
pub fn to_u64(x: f64) -> u64
    ensures { result ≡ Ieee.to_unsigned 64 x }
{
    if x >= 18446744073709551616.0 {
        return u64::MAX;
    }
    if x >= 1.0 {
        // x is significand * 2^(exponent - BIAS)
        let bits = f64::to_bits(x);
        let exponent = bits / IMPLICIT_BIT;
        let significand = bits % IMPLICIT_BIT + IMPLICIT_BIT;
        if exponent <= BIAS {
            return significand >> (BIAS - exponent);
        }
        return significand << (exponent - BIAS);
    }
    0
}
