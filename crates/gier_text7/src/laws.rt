// The laws of the pure pass. They have no code: each says what its contract says.
ghost use Rattle.gier_text7.specs.Laws.{ExpressionsAreCoded, EvaluationsAreCoded, SwitchesAreCoded};
ghost use Rattle.gier_text7.specs.Laws.{ElementsAreSeen, WhileIsSeen, StepIsSeen, StepsAreRecorded};
ghost use Rattle.gier_text7.specs.Outbox.{PutsBehind, OpensHole, FillsHole};

/// Over text 6 of an expression, of an actual that is evaluated, and of a switch the pure pass writes their code in text 7, if it
/// does so over calls, elements, and identifiers alone that are no variables and no formals.
pub fn law_code_written()
    ensures expressions { ExpressionsAreCoded }
    ensures evaluations { EvaluationsAreCoded }
    ensures switches { SwitchesAreCoded }
{}

/// What the pass sees ahead isn't changed by an expression; and the record of a step expression is its text.
pub fn law_seen_ahead()
    ensures elements { ElementsAreSeen }
    ensures whiles { WhileIsSeen }
    ensures steps { StepIsSeen }
    ensures records { StepsAreRecorded }
{}

/// The outbox is what is written before an answer: symbols and holes are put behind it, and a value fills its last hole.
pub fn law_outbox()
    ensures put { PutsBehind }
    ensures hole { OpensHole }
    ensures fill { FillsHole }
{}
