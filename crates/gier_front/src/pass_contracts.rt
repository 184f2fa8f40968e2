// What the five passes behind the first are handed and write.
ghost use Rattle.std.proofs.Common.{arith};
ghost use Rattle.gier_text.specs.declared.text.Way.TheVariants.{Forward, Backward};
ghost use Rattle.gier_text.specs.Potential.{IsWithinPotential};
ghost use Rattle.gier_text.specs.TablesModel.{tables_model};
ghost use Rattle.gier_pass2.specs.Invariant.{IsTextOne};
ghost use Rattle.gier_front.specs.Passes.{IsTextTwo};
ghost use Rattle.gier_front.specs.Handed.{assembled, meant_for, light_back, scoped};

use crate::pass_contract::PassContract;
use gier_pass2::Pass2;
use gier_pass3::Pass3;
use gier_pass4::Pass4;
use gier_pass5::Pass5;
use gier_pass6::Pass6;
use gier_text::{Tables, Way};

/// Assembling: text 1 to text 2.
impl PassContract for Pass2 {
    ghost bytes_of = { λ pass. pass.bytes };

    ghost wants = { IsTextOne };

    ghost gives = { IsTextTwo };

    ghost reads = { Forward };

    fn start(tables: &mut Tables, bytes: u32) -> Pass2 {
        Pass2::open(tables, bytes)
    }

    fn way() -> Way {
        Way::Forward
    }

    ghost expected = { λ pass list h. h };

    ghost given = { λ pass tables list written h relates. assembled pass (tables_model tables) list written h relates };

    ghost roomy = { λ pass. Prim.omega arith };

    ghost same = { λ a b h. Prim.omega (arith, h) };
}

/// Structure: text 2 to text 3.
impl PassContract for Pass3 {
    ghost bytes_of = { λ pass. pass.bytes };

    ghost wants = { IsTextTwo };

    ghost gives = { IsWithinPotential 3 };

    ghost reads = { Forward };

    fn start(tables: &mut Tables, bytes: u32) -> Pass3 {
        Pass3::open(tables, bytes)
    }

    fn way() -> Way {
        Way::Forward
    }

    ghost expected = { λ pass list h. meant_for pass.bytes list h };

    ghost given = { λ pass tables list written h relates. relates.light };

    ghost roomy = { λ pass. Prim.omega arith };

    ghost same = { λ a b h. Prim.omega (arith, h) };
}

/// Collecting declarations: text 3 to text 4.
impl PassContract for Pass4 {
    ghost bytes_of = { λ pass. pass.lists.bytes };

    ghost wants = { IsWithinPotential 3 };

    ghost gives = { IsWithinPotential 4 };

    ghost reads = { Backward };

    fn start(tables: &mut Tables, bytes: u32) -> Pass4 {
        Pass4::open(tables, bytes)
    }

    fn way() -> Way {
        Way::Backward
    }

    ghost expected = { λ pass list h. light_back 3 pass.lists.bytes list h };

    ghost given = { λ pass tables list written h relates. relates };

    ghost roomy = { λ pass. Prim.omega arith };

    ghost same = { λ a b h. Prim.omega (arith, h) };
}

/// Distributing descriptions: text 4 to text 5.
impl PassContract for Pass5 {
    ghost bytes_of = { λ pass. pass.bytes };

    ghost wants = { IsWithinPotential 4 };

    ghost gives = { IsWithinPotential 5 };

    ghost reads = { Backward };

    fn start(tables: &mut Tables, bytes: u32) -> Pass5 {
        Pass5::open(tables, bytes)
    }

    fn way() -> Way {
        Way::Backward
    }

    ghost expected = { λ pass list h. light_back 4 pass.bytes list h };

    ghost given = { λ pass tables list written h relates. scoped pass list written h relates };

    ghost roomy = { λ pass. Prim.omega arith };

    ghost same = { λ a b h. Prim.omega (arith, h) };
}

/// Types and Polish form: text 5 to text 6.
impl PassContract for Pass6 {
    ghost bytes_of = { λ pass. pass.work.bytes };

    ghost wants = { IsWithinPotential 5 };

    ghost gives = { IsWithinPotential 6 };

    ghost reads = { Forward };

    fn start(tables: &mut Tables, bytes: u32) -> Pass6 {
        Pass6::open(tables, bytes)
    }

    fn way() -> Way {
        Way::Forward
    }

    ghost expected = { λ pass list h. h };

    ghost given = { λ pass tables list written h relates. relates };

    ghost roomy = { λ pass. Prim.omega arith };

    ghost same = { λ a b h. Prim.omega (arith, h) };
}
