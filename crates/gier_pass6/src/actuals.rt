// Which actual fits which formal.
ghost use Rattle.std.specs.Prelude.{◌≡◌};
ghost use Rattle.gier_pass6.specs.Actuals.{fit_number, wanted_type, value_fits, fits_if, name_fits_free, is_same_thing};
ghost use Rattle.gier_pass6.specs.Actuals.{meaning_fits, name_fits_formal, name_fits};

use crate::kind::{Kind, is_procedure, is_procedure_formal};
use crate::types::{ValueType, agree};
use crate::uses::{Meaning, alone, value_type};

// A declared procedure with more formals can't be an actual.
const MOST_FORMALS: u64 = 80;

// The number of `Fit::Free`, which is no kind's.
const FREE: u64 = 64;

/// What an actual is compared with.
#[derive(Debug, Clone, Copy, PartialEq, Eq)]
pub(crate) enum Fit {
    /// Nothing: there is no such formal, or nothing is known of the call.
    Anything,
    /// A formal procedure is called, whose formals aren't known.
    Free,
    /// A formal of this kind.
    Formal(Kind),
}

impl Fit {
    /// The fit with this number.
    pub(crate) fn of(number: u64) -> Fit {
        if number == FREE {
            return Fit::Free;
        }
        match Kind::of(number) {
            Kind::Undeclared => Fit::Anything,
            kind => Fit::Formal(kind),
        }
    }

    /// The fit's number.
    pub(crate) fn number(self) -> u64
        ensures { result ≡ fit_number self }
    {
        match self {
            Fit::Anything => 0,
            Fit::Free => FREE,
            Fit::Formal(kind) => kind.number(),
        }
    }
}

/// What an actual that is an identifier alone comes to.
#[derive(Debug, Clone, Copy, PartialEq, Eq)]
pub(crate) enum Passed {
    /// It fits.
    Fits,
    /// It fits, and is a call.
    Calls,
    /// It doesn't fit.
    Differs,
}

fn fits_if(good: bool) -> Passed
    ensures { result ≡ fits_if good }
{
    if good { Passed::Fits } else { Passed::Differs }
}

// The type of the expressions that fit a formal, or an unknown one where no expression does.
fn wanted_type(formal: Kind) -> ValueType
    ensures { result ≡ wanted_type formal }
{
    if formal == Kind::LabelFormal {
        ValueType::Label
    } else {
        value_type(formal)
    }
}

/// An identifier alone of this kind, with so many formals.
pub(crate) fn name_fits(fit: Fit, kind: Kind, count: u64) -> Passed
    ensures { result ≡ name_fits fit kind count }
{
    match fit {
        Fit::Anything => Passed::Fits,
        Fit::Free => name_fits_free(kind, count),
        Fit::Formal(formal) => name_fits_formal(formal, kind, count),
    }
}

fn name_fits_free(kind: Kind, count: u64) -> Passed
    ensures { result ≡ name_fits_free kind count }
{
    match kind {
        Kind::OutInteger | Kind::OutText | Kind::OutCr | Kind::OutChar => Passed::Differs,
        Kind::Abs | Kind::Sign => Passed::Differs,
        Kind::InInteger | Kind::InChar => Passed::Calls,
        _ => fits_if(!is_procedure(kind) || count <= MOST_FORMALS),
    }
}

fn name_fits_formal(formal: Kind, kind: Kind, count: u64) -> Passed
    ensures { result ≡ name_fits_formal formal kind count }
{
    match wanted_type(formal) {
        ValueType::Unknown => fits_if(is_same_thing(formal, kind, count)),
        wanted => meaning_fits(alone(kind, count), wanted),
    }
}

// An identifier as an expression.
fn meaning_fits(is: Meaning, wanted: ValueType) -> Passed
    ensures { result ≡ meaning_fits is wanted }
{
    if !agree(is.value, wanted) {
        return Passed::Differs;
    }
    if is.call { Passed::Calls } else { Passed::Fits }
}

// Arrays, switches, strings and procedures.
fn is_same_thing(formal: Kind, kind: Kind, count: u64) -> bool
    ensures { result ≡ is_same_thing formal kind count }
{
    match (formal, kind) {
        (Kind::IntegerArrayFormal, Kind::IntegerArray | Kind::IntegerArrayFormal) => true,
        (Kind::BooleanArrayFormal, Kind::BooleanArray | Kind::BooleanArrayFormal) => true,
        (Kind::SwitchFormal, Kind::Switch | Kind::SwitchFormal) => true,
        (Kind::StringFormal, Kind::StringFormal) => true,
        (Kind::ProcedureFormal, Kind::ProcedureFormal) => true,
        (Kind::IntegerProcedureFormal, Kind::IntegerProcedureFormal) => true,
        (Kind::BooleanProcedureFormal, Kind::BooleanProcedureFormal) => true,
        (Kind::ProcedureFormal, Kind::Procedure) => count <= MOST_FORMALS,
        (Kind::IntegerProcedureFormal, Kind::IntegerProcedure) => count <= MOST_FORMALS,
        (Kind::BooleanProcedureFormal, Kind::BooleanProcedure) => count <= MOST_FORMALS,
        _ => false,
    }
}

/// Whether an actual that isn't an identifier alone fits. One of unknown type does.
pub(crate) fn value_fits(fit: Fit, value: ValueType) -> bool
    ensures { result ≡ value_fits fit value }
{
    match fit {
        Fit::Anything | Fit::Free => true,
        Fit::Formal(Kind::StringFormal) => value.fits(ValueType::Text),
        Fit::Formal(formal) => value.fits(wanted_type(formal)),
    }
}

/// What the next actual of a call is compared with, where it is within the formals and they are known.
pub(crate) fn is_free(kind: Kind) -> bool {
    is_procedure_formal(kind)
}
