// The law on the flat run, for the part of the language for which it is proved so far.
ghost use Rattle.gier_tree.specs.Hoist.{hoist};
ghost use Rattle.gier_flat.specs.Example.{example, nested};
ghost use Rattle.gier_flat.specs.Law.{RunIsMeaning};
ghost use Rattle.gier_flat.specs.Premises.{Premises};
ghost use Rattle.gier_flat.specs.WrittenLaw.{FaultlessRuns, IsFaultless};

/// Of each program of that part whose premises hold, with all data, permitted steps and words of stack, the flat run of its code
/// tells the printed bytes, the ending, the steps charged, the greatest live words and the data left that the meaning with
/// environments tells; and where it stops, it does so at the line and with the live activations that the meaning tells.
pub fn law_flat()
    ensures { RunIsMeaning }
{}

/// The premises hold of a program with a label, a conditional statement with a go to it, and printing, also of a string.
pub fn law_flat_example()
    ensures { Premises (hoist example) }
{}

/// They hold of a program with a block in a block, variables of both, an own variable, and a go to that leaves the inner block.
pub fn law_flat_nested()
    ensures { Premises (hoist nested) }
{}

/// Of each program as it is written, without faults of scopes and types, that uses only the part of the language and isn't too
/// long, the flat run of its code tells what its meaning tells.
pub fn law_flat_programs()
    ensures { FaultlessRuns }
{}

/// The program of blocks in blocks meets these premises, as it is written.
pub fn law_flat_faultless()
    ensures { IsFaultless nested }
{}
