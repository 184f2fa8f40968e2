// The laws of trees. They have no code: each says what its contract says.
ghost use Rattle.gier_tree.specs.Structure.{IsUnique};
ghost use Rattle.gier_tree.specs.CodeExamples.{AreCoded};
ghost use Rattle.gier_tree.specs.HoistExamples.{AreHoisted};
ghost use Rattle.gier_tree.specs.LineExamples.{AreLines};
ghost use Rattle.gier_tree.specs.RoomExamples.{AreRoomy};
ghost use Rattle.gier_tree.specs.SpellExamples.{AreSpelled};
ghost use Rattle.gier_tree.specs.StructureExamples.{AreStructured};
ghost use Rattle.gier_tree.specs.TextExamples.{AreTexts};

/// Trees are spelled as their programs are written.
pub fn law_spelling()
    ensures { AreSpelled }
{}

/// Where the fault of structure stands, and which tree is written, by example.
pub fn law_structured()
    ensures { AreStructured }
{}

/// Own quantities are hoisted, by example.
pub fn law_hoisted()
    ensures { AreHoisted }
{}

/// The words that activations take, by example.
pub fn law_rooms()
    ensures { AreRoomy }
{}

/// Two programs with one spelling are equal, and the table of the grammar reads each from its spelling.
pub fn law_unique()
    ensures { IsUnique }
{}

/// The texts 3 to 6 of programs, by example.
pub fn law_texts()
    ensures { AreTexts }
{}

/// The texts 7 and 8 and the objects of programs, by example.
pub fn law_code()
    ensures { AreCoded }
{}

/// The lines of the words of programs, and where these words stand in text 7, by example.
pub fn law_word_lines()
    ensures { AreLines }
{}
