// The laws of sizes. They have no code: each says what its contract says.
ghost use Rattle.gier_sizes.specs.SymbolExamples.{AreAsMany};
ghost use Rattle.gier_sizes.specs.Symbols.{AssembledSymbolsAreFew, NumbersAreSmall, ReadSymbolsAreFew};
ghost use Rattle.gier_sizes.specs.Text3.{Text3FitsItsBytes, Text3IsShort};
ghost use Rattle.gier_sizes.specs.Text3Examples.{IsMarked};

/// The symbols of any program text are at most as many as its bytes, and one more, before and after they are assembled; and the
/// numbers of its identifiers are below that count and the standard ones together.
pub fn law_symbols()
    ensures read { ReadSymbolsAreFew }
    ensures assembled { AssembledSymbolsAreFew }
    ensures numbers { NumbersAreSmall }
{}

/// Some texts give as many symbols, or an identifier with a number as great, or nearly so.
pub fn law_many_symbols()
    ensures { AreAsMany }
{}

/// Text 3 of a program has at most three symbols for each symbol of the program; so it has at most three for each byte of its
/// text, and three more.
pub fn law_text3()
    ensures symbols { Text3IsShort }
    ensures bytes { Text3FitsItsBytes }
{}

/// Text 3 of some program has more than twice as many symbols as the program.
pub fn law_many_marks()
    ensures { IsMarked }
{}
