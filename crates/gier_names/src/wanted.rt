// What is wanted of an evaluation, with the number that stands for it in the evaluation's words.
ghost use Rattle.std.specs.Prelude.{◌≡◌};
ghost use Rattle.gier_names.specs.Evaluations.{number_of, wanted_at};

/// What is wanted of an evaluation.
#[derive(Debug, Clone, Copy, PartialEq, Eq)]
pub enum Wanted {
    /// 1: the value of an expression or a variable.
    Value,
    /// 2: the place of a variable.
    Address,
    /// 3: a label.
    Label,
}

impl Wanted {
    /// The one with this number; None where it isn't 1 to 3.
    pub fn of(number: u64) -> Option<Wanted>
        ensures { result ≡ wanted_at number }
    {
        match number {
            1 => Some(Wanted::Value),
            2 => Some(Wanted::Address),
            3 => Some(Wanted::Label),
            _ => None,
        }
    }

    /// The number, 1 to 3. A procedure has 0 in its place.
    pub fn number(self) -> u8
        ensures { result ≡ number_of self }
    {
        match self {
            Wanted::Value => 1,
            Wanted::Address => 2,
            Wanted::Label => 3,
        }
    }
}
