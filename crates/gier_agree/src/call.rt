// When actuals agree with the formals of the procedure that is called through a formal.
ghost use Rattle.std.specs.Prelude.{◌↔◌, ◌<◌, IsTrue};
ghost use Rattle.gier_agree.specs.Kinds.{Fits};
ghost use Rattle.gier_agree.specs.Packed.{kind_in};
ghost use Rattle.gier_agree.specs.Agreement.{Agree, PairAgrees};

use crate::Kind;
use crate::packed::{PLACES, kind_at};

/// Whether an actual of the one kind fits a formal of the other. A number that is no kind fits nothing.
pub fn fits(formal: u8, actual: u8) -> bool
    ensures { IsTrue result ↔ Fits formal actual }
{
    match Kind::of(formal) {
        Some(kind) => kind.wanted().number() == actual,
        None => false,
    }
}

/// Whether all ten pairs of two packed words fit or are both 0.
pub fn agree(formals: u64, actuals: u64) -> bool
    ensures { IsTrue result ↔ Agree formals actuals }
{
    for at in 0..PLACES {
        if !pair_agrees(kind_at(formals, at), kind_at(actuals, at)) {
            return false;
        }
    }
    true
}

fn pair_agrees(formal: u8, actual: u8) -> bool
    ensures { IsTrue result ↔ PairAgrees formal actual }
{
    fits(formal, actual) || (formal == 0 && actual == 0)
}
