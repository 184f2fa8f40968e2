// The laws of texts of the written program. They have no code: each says what its contract says.
ghost use Rattle.gier_written.specs.Framed.{IsFramed};
ghost use Rattle.gier_written.specs.Renamed.{StatementsAreUndone};

/// Text 4 of a hoisted statement is text 4 of the written one, whatever the places.
pub fn law_renaming_undone()
    ensures { StatementsAreUndone }
{}

/// Text 4 of a program is that of the program as it was written, in a block that declares its own quantities.
pub fn law_written_text4()
    ensures { IsFramed }
{}
