// The law of inserted faults. It has no code, and says what its contract says.
ghost use Rattle.gier_faults.specs.Insertion.{AnyOrderIsListed, InsertionsCommute, LateIsBefore, TablesInsert};

/// Faults at different positions can be found in any order: they are listed by position, and so the tables of passes keep them.
pub fn law_insertion()
    ensures any_order { AnyOrderIsListed }
    ensures commutes { InsertionsCommute }
    ensures late { LateIsBefore }
    ensures tables { TablesInsert }
{}
