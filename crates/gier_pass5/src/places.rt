// The places of declared quantities: addresses within an activation, and numbers of labels, switches and procedures.
ghost use Rattle.std.specs.Prelude.{◌≡◌, ◌<◌, ◌*◌, ◌^◌, min};
ghost use Rattle.gier_pass5.specs.Kinds.{class_at};
ghost use Rattle.gier_pass5.specs.Places.{behind, place_at, words_of, numbers_of};

use crate::kinds::{Class, class_at};
use gier_limits::ADDRESSES;

const GREATEST: u64 = ADDRESSES - 1;

/// The address of the first variable of a block.
pub(crate) const BLOCK_START: u64 = 3;

/// The address of the first formal of a procedure, or of the value of a function, whose formals stand behind it.
pub(crate) const PROCEDURE_START: u64 = 5;

// An array's descriptor has these words, and two for each dimension.
const DESCRIPTOR: u64 = 2;

/// The next address of the scope whose entries are read, and the next number.
#[derive(Debug, Clone, Copy)]
pub(crate) struct Counters {
    pub(crate) address: u64,
    pub(crate) number: u64,
    ghost address_small: { address < 2 ^ 24 },
    ghost number_small: { number < 2 ^ 24 },
}

/// The address behind so many more words. In a program without faults it stays below the greatest one.
pub(crate) fn behind(address: u64, words: u64) -> u64
    requires { address < 2 ^ 24 }
    ensures value { result ≡ behind address words }
    ensures small { result < 2 ^ 24 }
{
    (address + words.min(GREATEST)).min(GREATEST)
}

/// The words of an array's dimensions.
pub(crate) fn of_dimensions(count: u64) -> u64
    ensures { result ≡ 2 * min count 16777215 }
{
    2 * count.min(GREATEST)
}

/// Gives the place of a quantity whose kind has this number at this level, and counts it.
pub(crate) fn place(counters: &mut Counters, kind: u64, level: u8) -> u64
    ensures place { result ≡ place_at (class_at kind) level counters.old.address counters.old.number }
    ensures address { counters.new.address ≡ behind counters.old.address (words_of (class_at kind)) }
    ensures number { counters.new.number ≡ behind counters.old.number (numbers_of (class_at kind)) }
    ensures small { result < 2 ^ 40 }
{
    let base = u64::from(level) * ADDRESSES;
    match class_at(kind) {
        Class::Variable => base + take_address(counters, 1),
        Class::Array => base + take_address(counters, DESCRIPTOR),
        Class::Formal => base + take_address(counters, 2),
        Class::Numbered | Class::Procedure | Class::Function => base + take_number(counters),
        Class::Standard => 0,
    }
}

fn take_address(counters: &mut Counters, words: u64) -> u64
    ensures address { result ≡ counters.old.address }
    ensures small { result < 2 ^ 24 }
    ensures next { counters.new.address ≡ behind counters.old.address words }
    ensures number { counters.new.number ≡ counters.old.number }
{
    let address = counters.address;
    counters.address = behind(address, words);
    address
}

fn take_number(counters: &mut Counters) -> u64
    ensures number { result ≡ counters.old.number }
    ensures small { result < 2 ^ 24 }
    ensures next { counters.new.number ≡ behind counters.old.number 1 }
    ensures address { counters.new.address ≡ counters.old.address }
{
    let number = counters.number;
    counters.number = behind(number, 1);
    number
}
