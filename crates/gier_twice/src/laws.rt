// The laws between definitions of one thing. They have no code: each says what its contract says.
ghost use Rattle.gier_twice.specs.ProgramRooms.{PlacesTellTheNeed, ProgramsAreEqual};
ghost use Rattle.gier_twice.specs.SameParts.{CountsAreEqual, FormalsAreEqual, LabelsAreEqual, LinesAreEqual, ProgramLabelsAreEqual};
ghost use Rattle.gier_twice.specs.SameRooms.{BlocksAreEqual, BlocksStayAlike, EvaluationsAreEqual};
ghost use Rattle.gier_twice.specs.SameRooms.{ProceduresAreEqual, ProceduresStayAlike, TurnsStayAlike};

/// The rooms of blocks, procedures and evaluations are those of text 7, where what a meaning asks of identifiers is what scopes
/// tell; within each scope it is so again. The room of a program is that of text 7, for any data and any permitted steps.
pub fn law_same_rooms()
    ensures evaluations { EvaluationsAreEqual }
    ensures blocks { BlocksAreEqual }
    ensures procedures { ProceduresAreEqual }
    ensures programs { ProgramsAreEqual }
    ensures places { PlacesTellTheNeed }
    ensures within_blocks { BlocksStayAlike }
    ensures within_procedures { ProceduresStayAlike }
    ensures within_turns { TurnsStayAlike }
{}

/// The kinds that formals want of their actuals are the same in text 7 and in the meaning.
pub fn law_same_formals()
    ensures { FormalsAreEqual }
{}

/// The labels of a statement's scope and of a program are the same in texts and in the meaning.
pub fn law_same_labels()
    ensures statements { LabelsAreEqual }
    ensures programs { ProgramLabelsAreEqual }
{}

/// The lines of first symbols are told alike by hoisting, by texts and by the meaning.
pub fn law_same_lines()
    ensures { LinesAreEqual }
{}

/// Hoisting and texts count the own quantities of a segment alike.
pub fn law_same_counts()
    ensures { CountsAreEqual }
{}
