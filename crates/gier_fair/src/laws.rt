// The laws of fair programs. They have no code: each says what its contract says.
ghost use Rattle.gier_fair.specs.Examples.{AreExamples};
ghost use Rattle.gier_fair.specs.Hoisted.{ScopesAreFair};
ghost use Rattle.gier_fair.specs.Laws.{ExpressionsAreFair, ProgramsAreFair, TypesAreFair};

/// An expression whose identifiers are declared, and which has no faults of types, is fair and has its type.
pub fn law_fair_expressions()
    ensures { ExpressionsAreFair }
{}

/// A program whose scopes are right, and which has no faults of types, is fair.
pub fn law_fair_types()
    ensures { TypesAreFair }
{}

/// A statement without faults of scopes is in scope when it is hoisted, wherever places describe what is declared around it.
pub fn law_fair_scopes()
    ensures { ScopesAreFair }
{}

/// A program without faults of scopes is in scope when it is hoisted, and fair where it then has no faults of types. Its
/// identifiers are numbered below the fresh ones.
pub fn law_fair()
    ensures { ProgramsAreFair }
{}

/// A small program is fair, and programs with one thing wrong are not.
pub fn law_fair_examples()
    ensures { AreExamples }
{}
