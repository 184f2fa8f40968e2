// The laws of the places of labels. They have no code: each says what its contract says.
ghost use Rattle.gier_placed.specs.Examples.{AreExamples};
ghost use Rattle.gier_placed.specs.Fitting.{FittingAreComplete};
ghost use Rattle.gier_placed.specs.Laws.{LabelsAreAddresses, LabelsAreWithin};
ghost use Rattle.gier_placed.specs.Placed.{AreNumbered};
ghost use Rattle.gier_placed.specs.Written.{ProgramsHaveText7};

/// In the text 7 of a program whose scopes are right stand the labels that it declares, and those of its code, each once.
pub fn law_placed()
    ensures { AreNumbered }
{}

/// Where they are few enough, the address of each is the number of words before its place.
pub fn law_label_addresses()
    ensures { LabelsAreAddresses }
{}

/// Those that the program declares stand behind START and before STOP.
pub fn law_labels_within()
    ensures { LabelsAreWithin }
{}

/// A text 7 is complete where its sizes are those of so many bytes, its used labels stand, and its levels and rooms fit.
pub fn law_complete_where_fitting()
    ensures { FittingAreComplete }
{}

/// A small program has its labels' places in the order of its text, and what is asked of it holds.
pub fn law_placed_examples()
    ensures { AreExamples }
{}

/// The text 7 of a program without faults of scopes has its labels at their addresses, and is complete where it fits.
pub fn law_text7_placed()
    ensures { ProgramsHaveText7 }
{}
