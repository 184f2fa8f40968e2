// Words as numbers, and the orders that make a word of one or two others. No frames are touched here.
ghost use Rattle.std.specs.Prelude.{◌≡◌, ◌<◌, ◌^◌, true, IfOk};
ghost use Rattle.gier_word.specs.Words.{int_of_word, word_of_int};
ghost use Rattle.gier_word.specs.Operations.{negative_of, product_of, sign_of};
ghost use Rattle.gier_exec.specs.Numbers.{word_result, sign_result, arithmetic, is_test, test, is_combined, combination};

use gier_order::Operation;
use gier_word::{Alarm, Int40, Spoil, Word40};

/// The number that a word stands for.
#[inline(always)]
pub(crate) fn number_of(word: u64) -> Int40
    requires { word < 2 ^ 40 }
    ensures { result ≡ int_of_word word }
{
    match Word40::of(word) {
        Some(word) => word.int(),
        None => unreachable!(),
    }
}

/// The word of a number.
#[inline(always)]
pub(crate) fn word_of(number: Int40) -> u64
    ensures small { result < 2 ^ 40 }
    ensures value { result ≡ word_of_int number }
{
    number.word().bits()
}

// The word of a result, or the alarm in its place.
#[inline(always)]
fn answer(given: Result<Int40, Spoil>) -> Result<u64, Alarm>
    ensures value { result ≡ word_result given }
    ensures small { IfOk result (λ word. word < 2 ^ 40) }
{
    match given {
        Ok(number) => Ok(word_of(number)),
        Err(spoil) => Err(Alarm::from(spoil)),
    }
}

/// NEG.
pub(crate) fn negative(r: u64) -> Result<u64, Alarm>
    requires { r < 2 ^ 40 }
    ensures value { result ≡ word_result (negative_of (int_of_word r)) }
    ensures small { IfOk result (λ word. word < 2 ^ 40) }
{
    answer(number_of(r).neg())
}

/// TEST: 0 where `w * sign(r)` is above 0, else 1.
#[inline(always)]
pub(crate) fn tested(w: u64, r: u64) -> Result<u64, Alarm>
    requires w { w < 2 ^ 40 }
    requires r { r < 2 ^ 40 }
    ensures value { result ≡ sign_result (product_of (int_of_word w) (sign_of (int_of_word r))) }
    ensures small { IfOk result (λ word. word < 2 ^ 40) }
{
    match number_of(w).mul(number_of(r).sign()) {
        Ok(product) => Ok(u64::from(product.get() <= 0)),
        Err(spoil) => Err(Alarm::from(spoil)),
    }
}

/// ADD to POW; any other order is none of these and gives r.
#[inline(always)]
pub(crate) fn computed(operation: Operation, w: u64, r: u64) -> Result<u64, Alarm>
    requires w { w < 2 ^ 40 }
    requires r { r < 2 ^ 40 }
    ensures value { result ≡ arithmetic operation w r }
    ensures small { IfOk result (λ word. word < 2 ^ 40) }
{
    let a = number_of(w);
    let b = number_of(r);
    match operation {
        Operation::Add => answer(a.add(b)),
        Operation::Sub => answer(a.sub(b)),
        Operation::Mul => answer(a.mul(b)),
        Operation::Div => answer(a.div(b)),
        Operation::Pow => answer(a.pow(b)),
        _ => Ok(r),
    }
}

/// What an order on w and R makes of them; any other order is none of these.
#[inline(always)]
pub(crate) fn combination(operation: Operation, w: u64, r: u64) -> Result<u64, Alarm>
    requires w { w < 2 ^ 40 }
    requires r { r < 2 ^ 40 }
    ensures value { is_combined operation ≡ true → result ≡ combination operation w r }
    ensures small { IfOk result (λ word. word < 2 ^ 40) }
{
    match operation {
        Operation::Add | Operation::Sub | Operation::Mul | Operation::Div | Operation::Pow =>
            computed(operation, w, r),
        Operation::Test => tested(w, r),
        _ => Ok(u64::from(holds(operation, w, r))),
    }
}

/// LT to NE and AND to EQUIV: 1 or 0.
#[inline(always)]
pub(crate) fn holds(operation: Operation, w: u64, r: u64) -> bool
    requires w { w < 2 ^ 40 }
    requires r { r < 2 ^ 40 }
    ensures { is_test operation ≡ true → result ≡ test operation w r }
{
    let a = number_of(w).get();
    let b = number_of(r).get();
    match operation {
        Operation::Lt => a < b,
        Operation::Le => a <= b,
        Operation::Eq => a == b,
        Operation::Ge => a >= b,
        Operation::Gt => a > b,
        Operation::Ne => a != b,
        Operation::And => a != 0 && b != 0,
        Operation::Or => a != 0 || b != 0,
        Operation::Impl => a == 0 || b != 0,
        _ => (a == 0) == (b == 0),
    }
}
