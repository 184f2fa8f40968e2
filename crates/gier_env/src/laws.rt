// The meaning with environments, computed on examples in which a name means what it meant elsewhere: where a procedure was
// declared, where an actual or a label was passed on, in the turn that was entered. That it agrees with the copy rule on every
// program is the law of `gier_copy`.
ghost use Rattle.gier_env.specs.Meaning.{meaning};
ghost use Rattle.gier_meaning.specs.Example.{IsTold};
ghost use Rattle.gier_meaning.specs.examples.Loops.{labels_of_two_turns};
ghost use Rattle.gier_meaning.specs.examples.Procedures.{starts_at_zero, where_it_is_declared};
ghost use Rattle.gier_meaning.specs.examples.ByName.{name_of_a_name};
ghost use Rattle.gier_meaning.specs.examples.Labels.{label_of_its_activation};
ghost use Rattle.gier_meaning.specs.examples.Formals.{another_kind, remembers_its_activation};

/// Environments and closures give the examples' answers.
pub fn law_environments()
    ensures where_it_is_declared { IsTold meaning where_it_is_declared }
    ensures starts_at_zero { IsTold meaning starts_at_zero }
    ensures name_of_a_name { IsTold meaning name_of_a_name }
    ensures remembers_its_activation { IsTold meaning remembers_its_activation }
    ensures another_kind { IsTold meaning another_kind }
    ensures label_of_its_activation { IsTold meaning label_of_its_activation }
    ensures labels_of_two_turns { IsTold meaning labels_of_two_turns }
{}
