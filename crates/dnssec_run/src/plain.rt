//! What makes a list of calls plain, and what whole sets add. These functions do nothing: the
//! contract of each is a law, which a caller knows once it has called the function.
ghost use Rattle.dnssec_run.specs.ByAlgorithm.{EachChainIsOne, WholeRunsStaySafe};
ghost use Rattle.dnssec_run.specs.Plain.{StartsSuffice};

/// Does nothing. Its contract is a law: a list of calls is plain if it meets three conditions. No
/// call ends a roll early. An algorithm roll starts before each KSK roll or CSK roll. By hand the
/// list sets only whether keys of other signers are in the DNSKEY set. Plain asks more: that the
/// algorithm roll is past its first wait then. But the key set refuses KSK and CSK rolls until it
/// is, so the list need not see to this.
pub fn starts_suffice()
    ensures { StartsSuffice }
{}

/// Does nothing. Its contract is a law: in a plain list that keeps the sets whole, every position
/// is safe: all sets that caches may then still hold have a chain of trust, also by the keys of
/// each algorithm of the DS set alone. A list is plain if by hand it only puts in or takes out keys
/// of other signers, and the first wait of an algorithm roll is over before each KSK or CSK roll.
/// It keeps the sets whole if each start leaves ZSKs by all algorithms of the KSKs, and only an
/// algorithm roll brings the KSKs a new one. Keys count that aren't old and are in a set.
pub fn whole_runs_stay_safe()
    ensures { WholeRunsStaySafe }
{}

/// Does nothing. Its contract is a law: published sets that have a chain of trust by each algorithm
/// of the DS set have a chain of trust.
pub fn each_chain_is_one()
    ensures { EachChainIsOne }
{}
