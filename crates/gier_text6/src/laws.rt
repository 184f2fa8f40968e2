// The laws of the pure pass.
ghost use Rattle.gier_text6.specs.JudgedAssignments.{AssignmentsAreJudged, TheseAssignmentsFit};
ghost use Rattle.gier_text6.specs.JudgedCalls.{TheseHeadsAreJudged, TheseHeadsFit};
ghost use Rattle.gier_text6.specs.JudgedExpressions.{ExpressionsAreJudged};
ghost use Rattle.gier_text6.specs.JudgedParts.{ThesePartsAreJudged, ThesePartsFit};

/// Over text 5 of an expression the pure pass finds its type and exactly its faults of types, and writes its text 6.
pub fn law_judged_expressions()
    ensures { ExpressionsAreJudged }
{}

/// So it does over targets, segments of array declarations and elements of for lists; their placed faults are the definition's.
pub fn law_judged_parts()
    ensures judged { ThesePartsAreJudged }
    ensures placed { ThesePartsFit }
{}

/// So it does over an assignment before a semicolon or an `_end`; its placed faults are those of the definition.
pub fn law_judged_assignments()
    ensures judged { AssignmentsAreJudged }
    ensures placed { TheseAssignmentsFit }
{}

/// So it does over a call that is a statement before a semicolon or an `_end`, over conditions and controlled variables.
pub fn law_judged_calls()
    ensures judged { TheseHeadsAreJudged }
    ensures placed { TheseHeadsFit }
{}
