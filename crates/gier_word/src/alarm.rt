// The alarms with which a run can end, and their names.
ghost use Rattle.std.specs.Prelude.{◌≡◌};
ghost use Rattle.gier_word.specs.Alarm.{name_of, alarm_of};
ghost use Rattle.gier_word.specs.declared.int40.Spoil.{Spoil};

use crate::Spoil;

/// Why a run can't go on.
#[derive(Debug, Clone, Copy, PartialEq, Eq)]
pub enum Alarm {
    /// A result is outside the range of whole numbers.
    Spill,
    /// A division by 0.
    Division,
    /// A power with a negative exponent, or 0 to the power 0.
    Power,
    /// An upper bound lies below its lower bound.
    Bounds,
    /// Subscripts whose number differs from the array's, or one outside its bounds.
    Subscript,
    /// An assignment to a formal whose actual is no variable.
    Assignment,
    /// `outchar` of a number that is no byte.
    Character,
    /// `ininteger` where no integer of the range stands in the data.
    Data,
    /// More stack words are needed than permitted.
    Stack,
    /// The actuals of a formal procedure's call don't agree with the formals of the procedure.
    Parameters,
}

impl Alarm {
    /// The variant's name in lower-case letters, as it stands behind `alarm` on the printer.
    pub fn name(self) -> &'static str
        ensures { result.now ≡ name_of self }
    {
        match self {
            Alarm::Spill => "spill",
            Alarm::Division => "division",
            Alarm::Power => "power",
            Alarm::Bounds => "bounds",
            Alarm::Subscript => "subscript",
            Alarm::Assignment => "assignment",
            Alarm::Character => "character",
            Alarm::Data => "data",
            Alarm::Stack => "stack",
            Alarm::Parameters => "parameters",
        }
    }
}

impl From<Spoil> for Alarm {
    ghost from_gives = { λ spoil alarm. alarm ≡ alarm_of spoil };

    fn from(spoil: Spoil) -> Alarm {
        match spoil {
            Spoil::Spill => Alarm::Spill,
            Spoil::Division => Alarm::Division,
            Spoil::Power => Alarm::Power,
        }
    }
}
