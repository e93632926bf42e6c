//! What holds of a zone that rolls by itself. These functions do nothing: the contract of each is a
//! law, which a caller knows once it has called the function.
ghost use Rattle.dnssec_policy.specs.Laws.{AnswersAreSaid, AutomaticDeletionsFollow};
ghost use Rattle.dnssec_policy.specs.Laws.{AutomaticEndsFollow, AutomaticReportsAreByNotes};
ghost use Rattle.dnssec_policy.specs.Laws.{AutomaticRunsArePlain, AutomaticRunsGrow};
ghost use Rattle.dnssec_policy.specs.Laws.{AutomaticRunsAreUntouched};
ghost use Rattle.dnssec_policy.specs.Laws.{AutomaticRunsKeepWhole, AutomaticRunsReachResolvers};
ghost use Rattle.dnssec_policy.specs.Laws.{ChangesStartInTime, NextGoesOn, NextIsAccepted};
ghost use Rattle.dnssec_policy.specs.Laws.{NothingIsSilent};
ghost use Rattle.dnssec_policy.specs.Laws.{EndsAreInTime, RenewalsStartInTime, ReportsAreInTime};
ghost use Rattle.dnssec_policy.specs.Laws.{ReportsCountNoLonger, RestIsAsWanted};
ghost use Rattle.dnssec_policy.specs.Automatic.Said.{AnswersGoOn, SaidLinesAreRead};
ghost use Rattle.dnssec_policy.specs.Automatic.Said.{ScriptsNameKeys};
ghost use Rattle.dnssec_policy.specs.Delays.{KeysLeave, RollsEnd};
ghost use Rattle.dnssec_policy.specs.Kept.{AutomaticRunsServeKeepers, KeptAlgorithmsSign};

/// States two laws, and does nothing. If each call adds a key or was answered by `next` from true
/// notes, then by `plain` none sets a flag or a time by hand, and no KSK or CSK roll starts before
/// an algorithm roll has ended its first wait. By `whole`, after each start ZSKs have all
/// algorithms that KSKs have, and only an algorithm roll brings KSKs a new one. CSKs count as both,
/// and keys on their way out don't count.
pub fn automatic_runs_are_plain()
    ensures plain { AutomaticRunsArePlain }
    ensures whole { AutomaticRunsKeepWhole }
{}

/// States a law, and does nothing. If each call adds a key or was answered by `next` from true
/// notes, none counts as made by hand. So `next` never stops with `Why::ByHand`.
pub fn automatic_runs_are_untouched()
    ensures { AutomaticRunsAreUntouched }
{}

/// States a law, and does nothing. If each call adds a key or was answered by `next` from true
/// notes, each report has at least the TTL that the notes ask for. And no moment of a call lay
/// ahead of the clock when the call was made.
pub fn automatic_reports_are_by_notes()
    ensures { AutomaticReportsAreByNotes }
{}

/// States a law, and does nothing. If each call adds a key or was answered by `next` from true
/// notes, resolvers find a chain of trust at all times, and one by each algorithm of a DS set. It
/// takes for granted that servers give what was published, and never go back to sets older than
/// those that a roll's start or the end of its first wait left.
pub fn automatic_runs_reach_resolvers()
    ensures { AutomaticRunsReachResolvers }
{}

/// States two laws on validators that ask for a chain by each algorithm of a DS set, and keep these
/// algorithms with a DNSKEY set that they checked by it. It does nothing. If each call adds a key
/// or was answered by `next` from true notes, by `chain` they find one too, and by `sign` a key of
/// each kept algorithm signs what they hold of the zone. The notes have to have the highest TTL of
/// DNSKEY sets. Servers have to give what was published, and never go back to sets older than those
/// that a roll's start or the end of its first wait left.
pub fn automatic_runs_serve_keepers()
    ensures chain { AutomaticRunsServeKeepers }
    ensures sign { KeptAlgorithmsSign }
{}

/// States a law, and does nothing. The key set for which `next` answers a call accepts that call,
/// unless memory runs out.
#[tactic(auto, using(crate::proofs::Clear::accepted))]
pub fn next_is_accepted()
    ensures { NextIsAccepted }
{}

/// States a law, and does nothing. If each call adds a key or was answered by `next` from true
/// notes, and a roll is in progress, `next` answers a call, or what the operator has to do or to
/// see, or a moment that is to come. That moment is no later than the end of the roll's wait, or at
/// most a second away if the roll is in another phase. `next` is stuck only by a wait that ends
/// after the last moment of a `UnixTime`.
pub fn next_goes_on()
    ensures { NextGoesOn }
{}

/// States three laws about how long a roll takes, and does nothing. By `counts`, a report that
/// `next` answers has no higher TTL than the highest noted TTLs ask for. By `reports`, once the
/// notes say that all servers give the sets that a report is about, `next` answers this report, or
/// another call first. By `ends`, it answers the end of a roll, or another call first, once all
/// servers give the sets that the roll's last actions ask for.
///
/// So a roll takes the time until servers give the sets of its three steps, and its two waits.
/// These last no longer than `HighestTtls::roll_takes` answers. No noted moment may lie ahead of
/// the clock, the TTL of the report has to fit in 32 bits, and no call was made by hand.
pub fn rolls_are_in_time()
    ensures counts { ReportsCountNoLonger }
    ensures reports { ReportsAreInTime }
    ensures ends { EndsAreInTime }
{}

/// States a law, and does nothing. If each call adds a key or was answered by `next` from true
/// notes, and each answered call is made within a fixed time, the lag, a roll that has started is
/// done in a bounded time. That is at most the time that servers take to give the sets of its three
/// steps, its two waits, and one lag for each call made meanwhile, also of another roll.
pub fn rolls_end()
    ensures { RollsEnd }
{}

/// States a law, and does nothing. If each call adds a key or was answered by `next` from true
/// notes, a roll ends only once all servers give the sets that its last actions ask to wait for. It
/// takes for granted that no server goes back to an earlier version, and no version to older sets
/// than these.
pub fn automatic_ends_follow()
    ensures { AutomaticEndsFollow }
{}

/// States a law, and does nothing. If each call adds a key or was answered by `next` from true
/// notes, a key is deleted only if no roll in progress changes keys of its kind, and once all
/// servers give the sets that the last actions of each roll asked to wait for. It takes for granted
/// that no server goes back to an earlier version, and no version to older sets than these.
pub fn automatic_deletions_follow()
    ensures { AutomaticDeletionsFollow }
{}

/// States two laws, and does nothing. By `renewals`, `next` answers a call as long as some key at
/// work has to be renewed, for its lifetime or on demand, and no key in use has an algorithm or a
/// role that the policy doesn't want. By `changes`, it does as long as the policy wants the zone's
/// first keys, another algorithm or another scheme. Each time new keys have to be there, their roll
/// has to be free to begin, and no call was made by hand.
///
/// A key at work is in the DNSKEY set, signs, and isn't on its way out, and as a KSK or a CSK has
/// to have a DS at the parent too. In use is a key with a role that signs, is in the DNSKEY set, or
/// has to have a DS, and isn't on its way out.
pub fn starts_are_in_time()
    ensures renewals { RenewalsStartInTime }
    ensures changes { ChangesStartInTime }
{}

/// States a law, and does nothing. If each call adds a key or was answered by `next` from true
/// notes, and each answered call is made within a fixed time, the lag, a key whose lifetime is over
/// leaves in a bounded time. That is at most what its roll takes, and one lag for each call made
/// meanwhile. Until that roll starts a new key has to be there, and nothing may bar the roll: no
/// roll that excludes it, and no key whose algorithm or role isn't wanted, except roles on their
/// way out.
pub fn keys_leave()
    ensures { KeysLeave }
{}

/// States a law, and does nothing. If the policy wants a roll, for the zone's first keys, another
/// algorithm or scheme, or to renew a key, then `next` answers a call, a set to publish or a key to
/// make, or `stuck` answers a cause. If a roll in progress doesn't go on, or no roll takes out a
/// key on its way out, `stuck` always does. After a call made by hand, `next` answers only that.
#[tactic(auto, using(crate::proofs::Silence::outspoken))]
pub fn nothing_is_silent()
    ensures { NothingIsSilent }
{}

/// States a law, and does nothing. If `next` answers `Rest`, the zone is as the policy wants it,
/// for good. No roll is in progress, and no old key that signs nothing and is in no set is still in
/// the key set. The policy wants no other algorithm or scheme, and no key at work is ever to be
/// renewed. (At work is a key in the DNSKEY set that signs, isn't on its way out, and as a KSK or a
/// CSK has to have a DS.) `stuck` answers `None`.
#[tactic(auto, using(crate::proofs::Rests::as_wanted))]
pub fn rest_is_as_wanted()
    ensures { RestIsAsWanted }
{}

/// States a law, and does nothing. If each call so far adds a key or was answered by `next` from
/// true notes, and one more call adds a key or is what `next` answers after these calls, so it is
/// with that call too. A caller that makes only such calls may so use the laws about them.
pub fn automatic_runs_grow()
    ensures { AutomaticRunsGrow }
{}

/// States three laws, and does nothing. By `lines`, the line of a call that `next` answers is read
/// as that call, if a script can name each key of the zone. By `keys`, it can after calls of a
/// script. So by `script`, the script and the line of the call that `next` answers for it are a
/// script again, which makes that call last, if the notes are true.
pub fn said_lines_are_read()
    ensures lines { SaidLinesAreRead }
    ensures keys { ScriptsNameKeys }
    ensures script { AnswersGoOn }
{}

/// States a law, and does nothing. It says when a call counts as answered by `next`, as the laws
/// about automatic calls ask: `next` answered it for the state after the calls so far, the notes in
/// that state are true, and the clock has reached its moment when the call is made.
pub fn answers_are_said()
    ensures { AnswersAreSaid }
{}
