//! Verdicts on records: of scripts, and of entries made by hand.
use crate::values::{MAX, TimeParts, duration};
use Further::{NoDnskey, StrangersDs};
use dnssec_keyset::{RollType, UnixTime};
use dnssec_record::{
    Broken, Entry, Mark, Published, PublishedKey, Reply, ScriptFault, audit, audit_window,
    record_script,
};
use std::alloc::{AllocError, Global};

/// A zone with its first keys: eight calls.
const FIRST: &str = "zone example.com
add-ksk K1 - 13 1 0 yes
add-zsk Z1 - 13 2 0 yes
start algorithm-roll - K1,Z1 0
report1 algorithm-roll 60 10
wait1 algorithm-roll 70
report2 algorithm-roll 60 80
wait2 algorithm-roll 140
done algorithm-roll
";

/// A KSK roll up to its first report, and its first wait.
const KSK_ROLL: &str = "add-ksk K2 - 13 3 0 yes
start ksk-roll K1 K2 200
report1 ksk-roll 60 210
";

const KSK_WAIT: &str = "wait1 ksk-roll 270
";

/// A KSK roll beside a ZSK roll, up to both second waits.
const SIDE_BY_SIDE: &str = "add-ksk K2 - 13 3 0 yes
add-zsk Z2 - 13 4 0 yes
start ksk-roll K1 K2 200
start zsk-roll Z1 Z2 201
report1 ksk-roll 60 210
report1 zsk-roll 60 215
wait1 ksk-roll 270
wait1 zsk-roll 274
wait1 zsk-roll 275
report2 ksk-roll 60 280
report2 zsk-roll 60 285
wait2 ksk-roll 340
wait2 zsk-roll 345
";

/// A call that changes nothing.
const REFUSED: &str = "done csk-roll
";

/// One that comes when the first report of the KSK roll is over.
const REFUSED_LATE: &str = "wait2 ksk-roll 1000
";

/// The position at which a record breaks, and those of the DS set, the DNSKEY set and the zone
/// signers that don't go together.
type Positions = [usize; 4];

/// What is published in another way after the last call of a script.
#[derive(Clone, Copy)]
enum Further {
    /// The DS of a stranger.
    StrangersDs,
    /// No DNSKEY set.
    NoDnskey,
}

/// Scripts in parts, each with a refused call at its end. A KSK roll has had its first report.
const REPORTED: &[&str] = &[FIRST, KSK_ROLL, REFUSED];

/// The same, and the TTL of the report is over.
const REPORTED_LONG_AGO: &[&str] = &[FIRST, KSK_ROLL, REFUSED_LATE];

/// Its first wait has come too.
const WAITED: &[&str] = &[FIRST, KSK_ROLL, KSK_WAIT, REFUSED];

/// A KSK roll and a ZSK roll have had their second waits.
const BOTH_WAITED: &[&str] = &[FIRST, SIDE_BY_SIDE, REFUSED];

/// Scripts, what is published in another way after their last calls, and where their records break.
/// One more position with the DS of a stranger meets the least DNSKEY set and zone signers that no
/// report has retired. One without a DNSKEY set meets the least DS set.
const UNRETIRED: &[(&[&str], Further, Positions)] = &[
    (REPORTED, StrangersDs, [12, 12, 3, 3]),
    (REPORTED, NoDnskey, [12, 5, 12, 3]),
    (REPORTED_LONG_AGO, StrangersDs, [12, 12, 10, 3]),
    (REPORTED_LONG_AGO, NoDnskey, [12, 5, 12, 3]),
    (WAITED, StrangersDs, [13, 13, 10, 3]),
    (WAITED, NoDnskey, [13, 5, 13, 3]),
    (BOTH_WAITED, StrangersDs, [22, 22, 12, 17]),
    (BOTH_WAITED, NoDnskey, [22, 15, 22, 17]),
];

/// Keys, each with the position of its add.
type KeyPositions = &'static [(&'static str, usize)];

/// An entry by hand: its mark, its moment, and the DS and DNSKEY sets. The key K signs the DNSKEY
/// set, and the key Z signs the zone.
type Row = (Mark, Option<TimeParts>, KeyPositions, KeyPositions);

/// The DNSKEY set of all entries.
const DNSKEY: KeyPositions = &[("K", 1), ("Z", 2)];

/// The roll that they record.
const ROLL: RollType = RollType::AlgorithmRoll;

/// Its start at the moment 0.
const START: Row = (Mark::Step(ROLL), Some((0, 0)), &[], DNSKEY);

/// Its first report, with a TTL of 0 and of 1.
const TTL_0: Mark = Mark::Report {
    roll: ROLL,
    second: false,
    ttl: 0,
};

const TTL_1: Mark = Mark::Report {
    roll: ROLL,
    second: false,
    ttl: 1,
};

/// This report at the moment 0, and at the greatest one.
const REPORT: Row = (TTL_0, Some((0, 0)), &[], DNSKEY);

const LAST_REPORT: Row = (TTL_0, Some(MAX), &[], DNSKEY);

const LAST_REPORT_TTL_1: Row = (TTL_1, Some(MAX), &[], DNSKEY);

/// One more position with the DS of the key K, and with that of a stranger.
const DS: Row = (Mark::Other, None, &[("K", 1)], DNSKEY);

const STRANGERS_DS: Row = (Mark::Other, None, &[("K", 9)], DNSKEY);

/// No run leaves these: a key says that it was added at position 0, where no call stands, and the
/// keys of a list change places.
const UNADDED_DS: Row = (Mark::Other, None, &[("K", 0)], DNSKEY);

const UNADDED_KEY: Row = (
    Mark::Other,
    None,
    &[("K", 1)],
    &[("K", 1), ("L", 0), ("Z", 2)],
);

const OTHER_PLACES: Row = (Mark::Other, None, &[], &[("Z", 2), ("K", 1)]);

/// Entries by hand, and where their record breaks.
const BY_HAND: &[(&[Row], Option<Positions>)] = &[
    (&[START, REPORT, DS], None),
    (&[START, REPORT, STRANGERS_DS], Some([3, 3, 1, 1])),
    (&[START, LAST_REPORT, DS], None),
    (&[START, LAST_REPORT_TTL_1, DS], Some([3, 3, 0, 0])),
    (&[START, REPORT, UNADDED_DS], Some([3, 3, 1, 1])),
    (&[START, REPORT, UNADDED_KEY], None),
    (&[START, REPORT, OTHER_PLACES, DS], None),
    (
        &[START, REPORT, OTHER_PLACES, STRANGERS_DS],
        Some([4, 4, 1, 1]),
    ),
];

/// Where each audit says that a record breaks.
type Verdicts = [Option<Positions>; 2];

fn verdicts(alloc: Global, entries: &[Entry]) -> Result<Verdicts, ScriptFault> {
    match audit_window(alloc, entries) {
        Ok(verdict) => Ok([positions(audit(entries)), positions(verdict)]),
        Err(_) => Err(ScriptFault::OutOfMemory),
    }
}

fn positions(verdict: Option<Broken>) -> Option<Positions> {
    match verdict {
        Some(broken) => Some([broken.at, broken.ds, broken.dnskey, broken.zone]),
        None => None,
    }
}

/// The record of a script in parts.
fn record(alloc: Global, parts: &[&str]) -> Result<Vec<Entry>, ScriptFault> {
    let script = parts.concat(alloc)?;
    Ok(record_script(alloc, script.as_str().as_bytes())?.entries)
}

/// The verdicts on the record of a script in parts, if this is published after its last call.
fn verdicts_on(alloc: Global, parts: &[&str], further: Further) -> Result<Verdicts, ScriptFault> {
    let mut entries = record(alloc, parts)?;
    if let Some(entry) = entries.last_mut() {
        match further {
            StrangersDs => entry.published.ds = keys(alloc, &[("nobody", 1)])?,
            NoDnskey => entry.published.dnskey = Vec::new(alloc),
        }
    }
    verdicts(alloc, &entries)
}

fn keys(alloc: Global, listed: KeyPositions) -> Result<Vec<PublishedKey>, AllocError> {
    let mut keys = Vec::new(alloc);
    for (reference, added) in listed {
        let reference = String::from_str(alloc, reference)?;
        keys.push(PublishedKey {
            reference,
            added: *added,
        })?;
    }
    Ok(keys)
}

fn entry(alloc: Global, row: Row) -> Result<Entry, AllocError> {
    let (mark, moment, ds, dnskey) = row;
    Ok(Entry {
        reply: Reply::Done,
        moment: match moment {
            Some(moment) => Some(UnixTime::from(duration(moment))),
            None => None,
        },
        mark,
        published: Published {
            ds: keys(alloc, ds)?,
            dnskey: keys(alloc, dnskey)?,
            dnskey_signers: keys(alloc, &[("K", 1)])?,
            zone_signers: keys(alloc, &[("Z", 2)])?,
        },
    })
}

/// The verdicts on the record of entries by hand.
fn verdicts_by_hand(alloc: Global, rows: &[Row]) -> Result<Verdicts, ScriptFault> {
    let mut entries = Vec::new(alloc);
    for row in rows {
        entries.push(entry(alloc, *row)?)?;
    }
    verdicts(alloc, &entries)
}

/// Whether a record stays safe after this many refused calls. (They are too many for `audit`.)
fn is_safe_after(alloc: Global, calls: usize) -> bool {
    let Ok(refused) = REFUSED.repeat(alloc, calls) else {
        return false;
    };
    match record(alloc, &[FIRST, refused.as_str()]) {
        Ok(entries) => audit_window(alloc, &entries) == Ok(None),
        Err(_) => false,
    }
}

#[test]
fn verdicts_name_the_least_unretired_positions(rt: HostRuntime) {
    for (index, (parts, further, broken)) in UNRETIRED.iter().enumerate() {
        let answer = verdicts_on(rt.alloc(), parts, *further);
        assert_eq!(rt; answer, Ok([Some(*broken); 2]), "in row {index}");
    }
}

#[test]
fn refused_calls_are_judged(rt: HostRuntime) {
    assert!(rt; is_safe_after(rt.alloc(), 500));
}

#[test]
fn entries_by_hand_are_judged(rt: HostRuntime) {
    for (index, (entries, broken)) in BY_HAND.iter().enumerate() {
        let answer = verdicts_by_hand(rt.alloc(), entries);
        assert_eq!(rt; answer, Ok([*broken; 2]), "in row {index}");
    }
}
