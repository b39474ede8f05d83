//! The certificate of a table: four rules, each at one remainder, that it keeps exactly where it is the true table of its row.

ghost use Rattle.tables.specs.Rules.{Certificate};

/// States the certificate; there is nothing to run. Books rest on it: admitting a unit shows the rules of the new table, and
/// so that each entry is the least load of its remainder that the units make.
pub fn certificate_holds()
    ensures { Certificate }
{}
