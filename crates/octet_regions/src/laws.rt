//! The law of what is found of regions. It is the contract of a function that does nothing.
ghost use Rattle.octet_regions.specs.Laws.{OneAnswer};

/// The serial choice of accesses is one order; where it ends with regions left, the walk from there
/// comes to one cycle. So an order is answered exactly where the choice takes all regions, and that
/// order, and a cycle exactly else, and that cycle.
pub fn one_answer()
    ensures { OneAnswer }
{}
