//! Runs of lists of calls, with their records.
ghost use Rattle.std.specs.Prelude.{◌≡◌, vec_len, IfOk, IfErr};
ghost use Rattle.dnssec_base.specs.declared.error.Error.TheVariants.{OutOfMemory};
ghost use Rattle.dnssec_run.specs.Asked.{ChangesAsAsked, RetiresAsAsked};
ghost use Rattle.dnssec_run.specs.EarlyEnds.{UndoesStarts};
ghost use Rattle.dnssec_run.specs.WholeRolls.{GoesOn, NeverMissesStamp, RollsFinish};
ghost use Rattle.dnssec_run.specs.WholeRolls.{SettlesBetweenRolls, WaitsExactly};
ghost use Rattle.dnssec_run.specs.Plain.{StaysSafe};
ghost use Rattle.dnssec_run.specs.ByAlgorithm.{StaysSafeByEach};
ghost use Rattle.dnssec_run.specs.Record.{IsRun, KeepsSidesApart};
ghost use Rattle.dnssec_run.specs.Record.{NeighboursMayBeExchanged, StaysSound, world_at};

use crate::call::Call;
use crate::record::Run;
use crate::running::Recorder;
use dnssec_base::Name;
use dnssec_keyset::Error;
use std::alloc::Global;

/// Makes the calls in turn on a new key set for the zone of this name, and records each.
///
/// The key set and the record take their memory from `alloc`. A refused call is recorded too, also
/// one that ran out of memory, and the run goes on.
///
/// A list is plain if it sets no flag and no time by hand, and the first wait of an algorithm roll
/// is over before the first roll of KSKs or CSKs. Another signer's key may be published and taken
/// out by hand at any time. In a plain list every position of the record is safe. That is: take any
/// DS set, DNSKEY set and zone signers that were published up to there, and that no report has
/// retired whose TTL has passed. Either there is no DS, or a key that the DS names is in that
/// DNSKEY set and signs it, and a key of that set signs the zone (RFC 4035, section 5).
///
/// A plain list keeps the sets whole if after each accepted start the algorithms of its KSKs are
/// among those of its ZSKs, and only an algorithm roll gives the KSKs a new one. Keys count that
/// aren't old and are in a set; a CSK counts as both. Then each algorithm of the DS set has such a
/// chain by its keys alone, for validators that ask for it (RFC 4035, section 2.2).
///
/// If nothing is set by hand but other signers' keys, no wait lacks a stamp. While no roll is in
/// progress, each role of a key is future (in no set, and not old), active (present, signing, not
/// old, and as a KSK with a DS) or stale (in no set, and old). A report, and the end of a roll, is
/// accepted in its phase. After that end each key that the roll listed as old is stale or was
/// deleted, and each that it listed as new is active. If also the moments never fall, a wait is
/// over once the TTL of its report has passed since that report. Both waits of a
/// `ZskDoubleSignatureRoll` count from its first report (RFC 7583, section 3).
///
/// An early end of a roll gives each key that the roll's start listed the flags that it had before
/// that start. Only a key that was deleted, or had a flag set by hand since, is left as it is. The
/// early end changes no other key, no stamp and no other roll.
///
/// Unless a flag is set by hand, what is published changes only if the reply asks to publish it.
///
/// # Errors
///
/// Only `OutOfMemory`, if there is no memory for the record. Then no part of the run is answered.
///
/// ```rust
/// let now = UnixTime::from(Timestamp::from(1_700_000_000));
/// let mut calls = Vec::new(alloc);
/// calls.push(Call::SetPresent { pubref: "Z1", value: true, now })?;
/// let run = run(alloc, name, calls)?;
/// if let Reply::Refused(cause) = &run.entries[0].reply {
///     // No key `Z1` was added before, so nothing was changed.
/// }
/// ```
pub fn run<'a>(alloc: Global, name: Name<Vec<u8>>, calls: Vec<Call<'a>>) -> Result<Run, Error>
    ensures run { IfOk result (λ run. IsRun name calls.entry.items run.entries.items) }
    ensures keyset { IfOk result (λ run. run.keyset
        ≡ (world_at name calls.entry.items run.entries.items (vec_len run.entries)).set) }
    ensures sound { IfOk result (λ run. StaysSound name calls.entry.items run.entries.items) }
    ensures sides { IfOk result (λ run. KeepsSidesApart name calls.entry.items run.entries.items) }
    ensures exchange { IfOk result (λ run. NeighboursMayBeExchanged name calls.entry.items
        run.entries.items) }
    ensures stamps { IfOk result (λ run. NeverMissesStamp name calls.entry.items
        run.entries.items) }
    ensures settled { IfOk result (λ run. SettlesBetweenRolls name calls.entry.items
        run.entries.items) }
    ensures waits { IfOk result (λ run. WaitsExactly name calls.entry.items run.entries.items) }
    ensures goes_on { IfOk result (λ run. GoesOn name calls.entry.items run.entries.items) }
    ensures finishes { IfOk result (λ run. RollsFinish name calls.entry.items run.entries.items) }
    ensures undoes { IfOk result (λ run. UndoesStarts name calls.entry.items run.entries.items) }
    ensures changes { IfOk result (λ run. ChangesAsAsked calls.entry.items run.entries.items) }
    ensures retires { IfOk result (λ run. RetiresAsAsked run.entries.items) }
    ensures chain { IfOk result (λ run. StaysSafe name calls.entry.items run.entries.items) }
    ensures each_chain { IfOk result (λ run. StaysSafeByEach name calls.entry.items
        run.entries.items) }
    ensures err { IfErr result (λ e. e ≡ OutOfMemory) }
{
    let mut entries = Vec::with_capacity(alloc, calls.len())?;
    let mut recorder = Recorder::new(alloc, name);
    for call in calls {
        entries.push_reserved(recorder.make(alloc, call)?);
    }
    Ok(Run {
        keyset: recorder.into_keyset(),
        entries,
    })
}
