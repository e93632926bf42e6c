//! What holds of every text and every name. These functions do nothing: the contract of each is a
//! law, which a caller knows once it has called the function.
ghost use Rattle.dnssec_base.specs.NameLaws.{SpellsOneName, SpellsNoFault, SpellsUnlessFault};
ghost use Rattle.dnssec_base.specs.NameLaws.{OneFaultStandsFirst, PrintsItsSpelling};

/// A law for proofs, which does nothing when it runs: a text spells at most one name.
pub fn spells_one_name()
    ensures { SpellsOneName }
{}

/// A law for proofs, which does nothing when it runs: a text that spells a name has no fault at any
/// place.
pub fn spells_no_fault()
    ensures { SpellsNoFault }
{}

/// A law for proofs, which does nothing when it runs: a text in which no fault stands spells a
/// name. So each text either spells a name or has a fault.
pub fn spells_unless_fault()
    ensures { SpellsUnlessFault }
{}

/// A law for proofs, which does nothing when it runs: of all faults in a text at most one stands
/// first, so `from_str` can answer no other.
pub fn one_fault_stands_first()
    ensures { OneFaultStandsFirst }
{}

/// A law for proofs, which does nothing when it runs: the text that `Display` writes for a name
/// spells this name.
pub fn prints_its_spelling()
    ensures { PrintsItsSpelling }
{}
