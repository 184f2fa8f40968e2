// Whole numbers of 40 bits and their operations (Report 3.3.4, whole numbers only).
ghost use Rattle.std.specs.Prelude.{◌≡◌, ◌≢◌, ◌<◌, ◌^◌, ◌↔◌, pos, nat_abs, int_div, IsSome, IfSome, ◌+ℤ◌, ◌-ℤ◌, ◌*ℤ◌, ◌≤ℤ◌, ◌<ℤ◌};
ghost use Rattle.std.specs.Int.{int_pow};
ghost use Rattle.gier_word.specs.Operations.{InRange, in_range_or_spill, sum_of, difference_of, product_of, quotient_of};
ghost use Rattle.gier_word.specs.Operations.{power_of, negative_of, modulus_of, sign_of};
ghost use Rattle.gier_word.specs.Words.{int_of_word, word_of_int};

use crate::Word40;
use std::marker::Model;

/// Why an operation has no result.
#[derive(Debug, Clone, Copy, PartialEq, Eq)]
pub enum Spoil {
    /// The result is outside the range.
    Spill,
    /// A division by 0.
    Division,
    /// A negative exponent, or 0 to the power 0.
    Power,
}

/// A whole number from -2^39 to 2^39 - 1.
#[derive(Debug, Clone, Copy, PartialEq, Eq, PartialOrd, Ord)]
pub struct Int40 {
    n: i64,
}

impl Model for Int40 {
    ghost use Rattle.std.specs.Prelude.{ℤ};
    ghost use Rattle.gier_word.specs.Operations.{InRange};

    ghost Value = { ℤ };

    ghost view = { λ a. a.n };

    ghost invariant = { λ a. InRange a.n };

    ghost inverse = { λ z. record { n = z } };
}

const LEAST: i64 = -(1 << 39);

const GREATEST: i64 = (1 << 39) - 1;

// How many words there are.
const WORDS: i64 = 1 << 40;

// The largest exponent with which a power of two or more can still be tried in 64 bits.
const LARGEST_TRIED: i64 = 64;

impl Int40 {
    /// The number, or None where it is outside the range.
    pub fn of(n: i64) -> Option<Int40>
        ensures some { IsSome result ↔ InRange n }
        ensures value { IfSome result (λ a. a ≡ n) }
    {
        if n >= LEAST && n <= GREATEST {
            Some(Int40 { n })
        } else {
            None
        }
    }

    // The number, which is known to be in the range.
    pub(crate) fn new(n: i64) -> Int40
        requires { InRange n }
        ensures { result ≡ n }
    {
        Int40 { n }
    }

    /// The number, from -2^39 to 2^39 - 1.
    pub fn get(self) -> i64
        ensures value { result ≡ self }
        ensures range { InRange self }
    {
        self.n
    }

    /// The word that stands for the number, in two's complement.
    pub fn word(self) -> Word40
        ensures value { result ≡ word_of_int self }
        ensures back { int_of_word result ≡ self }
    {
        Word40::new(word_of(self.n))
    }

    /// `a + b`; refused by `Spill` alone.
    pub fn add(self, b: Int40) -> Result<Int40, Spoil>
        ensures { result ≡ sum_of self b }
    {
        answer(self.n + b.n)
    }

    /// `a - b`; refused by `Spill` alone.
    pub fn sub(self, b: Int40) -> Result<Int40, Spoil>
        ensures { result ≡ difference_of self b }
    {
        answer(self.n - b.n)
    }

    /// `a * b`; refused by `Spill` alone.
    pub fn mul(self, b: Int40) -> Result<Int40, Spoil>
        ensures { result ≡ product_of self b }
    {
        match self.n.checked_mul(b.n) {
            Some(n) => answer(n),
            None => Err(Spoil::Spill),
        }
    }

    /// `a _div b`, the quotient without its fraction (Report 3.3.4.2); `Division` for `b = 0`, and `Spill`.
    pub fn div(self, b: Int40) -> Result<Int40, Spoil>
        ensures { result ≡ quotient_of self b }
    {
        if b.n == 0 {
            return Err(Spoil::Division);
        }
        answer(quotient(self.n, b.n))
    }

    /// `a ^ b` (Report 3.3.4.3); `Power` for `0 ^ 0` and for `b < 0`, and `Spill`.
    pub fn pow(self, b: Int40) -> Result<Int40, Spoil>
        ensures { result ≡ power_of self b }
    {
        if b.n < 0 || (self.n == 0 && b.n == 0) {
            return Err(Spoil::Power);
        }
        raised(self.n, b.n)
    }

    /// `-a`; refused by `Spill` alone.
    pub fn neg(self) -> Result<Int40, Spoil>
        ensures { result ≡ negative_of self }
    {
        answer(-self.n)
    }

    /// `abs(a)`; refused by `Spill` alone.
    pub fn abs(self) -> Result<Int40, Spoil>
        ensures { result ≡ modulus_of self }
    {
        answer(self.n.abs())
    }

    /// `sign(a)`: 1, 0 or -1 as the number is positive, zero or negative (Report 3.2.4).
    pub fn sign(self) -> Int40
        ensures { result ≡ sign_of self }
    {
        Int40 { n: self.n.signum() }
    }
}

// The number where it is in the range, and a spill elsewhere.
fn answer(n: i64) -> Result<Int40, Spoil>
    ensures { result ≡ in_range_or_spill n }
{
    match Int40::of(n) {
        Some(a) => Ok(a),
        None => Err(Spoil::Spill),
    }
}

// The bits that stand for a number of the range.
fn word_of(n: i64) -> u64
    requires { InRange n }
    ensures value { result ≡ word_of_int n }
    ensures range { result < 2 ^ 40 }
    ensures back { int_of_word result ≡ n }
{
    if n < 0 { (n + WORDS) as u64 } else { n as u64 }
}

fn quotient(a: i64, b: i64) -> i64
    requires range { InRange a }
    requires divisor { b ≢ pos 0 }
    ensures { result ≡ int_div a b }
{
    a / b
}

// The power where it is in the range, and a spill elsewhere.
fn raised(a: i64, b: i64) -> Result<Int40, Spoil>
    requires range { InRange a }
    requires exponent { pos 0 ≤ℤ b }
    ensures { result ≡ in_range_or_spill (int_pow a (nat_abs b)) }
{
    if b > LARGEST_TRIED {
        return large_power(a, b);
    }
    match a.checked_pow(b as u32) {
        Some(n) => answer(n),
        None => Err(Spoil::Spill),
    }
}

// A power whose exponent is so large that only 0, 1 and -1 stay in the range.
#[tactic(auto, using(crate::proofs::Powers::zero_power, crate::proofs::Powers::one_power, crate::proofs::Powers::large_power))]
fn large_power(a: i64, b: i64) -> Result<Int40, Spoil>
    requires { pos 64 <ℤ b }
    ensures { result ≡ in_range_or_spill (int_pow a (nat_abs b)) }
{
    if a == 0 {
        return Ok(Int40 { n: 0 });
    }
    if a == 1 {
        return Ok(Int40 { n: 1 });
    }
    if a == -1 {
        return if b % 2 == 0 {
            Ok(Int40 { n: 1 })
        } else {
            Ok(Int40 { n: -1 })
        };
    }
    Err(Spoil::Spill)
}
