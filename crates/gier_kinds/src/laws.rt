// The laws of types and of errors. They have no code: each says what its contract says.
ghost use Rattle.gier_kinds.specs.ErrorExamples.{AreErrors};
ghost use Rattle.gier_kinds.specs.LongExamples.{AreLong};
ghost use Rattle.gier_kinds.specs.TypeExamples.{AreTyped};
ghost use Rattle.gier_kinds.specs.UseExamples.{AreUsed};

/// Uses of identifiers, subscripts and actuals, by example: each fault with its line, in the order of the symbols.
pub fn law_uses()
    ensures { AreUsed }
{}

/// Types in declarations, statements and operators, by example.
pub fn law_types()
    ensures { AreTyped }
{}

/// Lists that are as long as they may be, and longer ones, by example.
pub fn law_long()
    ensures { AreLong }
{}

/// The errors of texts as they are printed, by example: one list alone, and too long a text alone.
pub fn law_errors()
    ensures { AreErrors }
{}
