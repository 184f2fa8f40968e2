// The laws of the reply. They have no code: each says what its contract says.
ghost use Rattle.gier_job.specs.CallExamples.{AreTold, AreCalls, AreJournals};
ghost use Rattle.gier_job.specs.ReplyExamples.{AreReplied};

/// What commands answer to tapes, by example.
pub fn law_reply()
    ensures { AreReplied }
{}

/// What is told of a run by the report of its flat run and the lines of text 7 is what the meaning tells, by example.
pub fn law_told()
    ensures { AreTold }
{}

/// What calls print and take, whole and in part, by example.
pub fn law_calls()
    ensures { AreCalls }
{}

/// What calls add to the drum's journal, by example.
pub fn law_journals()
    ensures { AreJournals }
{}
