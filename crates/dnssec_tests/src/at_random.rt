//! Verdicts on records made at random, also on ones that no run leaves: those of `audit_window`,
//! and of a judge that gets what changes, against `audit`, which is the definition made to run.
use Oddity::{NoAdd, OneAdd, Places};
use RollType::AlgorithmRoll;
use dnssec_keyset::{Error, RollType, UnixTime};
use dnssec_record::{
    Broken, ByList, Change, Entry, Judge, Mark, Published, PublishedKey, Reply, audit, audit_window,
};
use dnssec_run::{Shown, Steps};
use rand::rngs::SmallRng;
use rand::seq::SliceRandom;
use rand::{RngExt, SeedableRng};
use std::alloc::{AllocError, Global};
use std::test::Fail;
use std::time::Duration;

/// How many entries a record has at most.
const LONGEST: u32 = 10;

/// How many of the first entries have no DS set at most.
const LATEST_DS: u32 = 4;

/// The records are the same in each run.
const SEED: u64 = 1;

const ROLLS: [RollType; 6] = [
    RollType::KskRoll,
    RollType::KskDoubleDsRoll,
    RollType::ZskRoll,
    RollType::ZskDoubleSignatureRoll,
    RollType::CskRoll,
    AlgorithmRoll,
];

/// How most records begin, at the moment 0. After the report caches hold none of the empty sets of
/// before.
const BEGINNING: [Mark; 2] = [
    Mark::Step(AlgorithmRoll),
    Mark::Report {
        roll: AlgorithmRoll,
        second: false,
        ttl: 0,
    },
];

/// The chances in 64 that a key has a DS, is in the DNSKEY set, signs that set, and signs the zone.
type Chances = [u32; 4];

/// Those of the last key: most sets share it.
const LAST: Chances = [56, 58, 58, 54];

/// What no run leaves.
#[derive(Clone, Copy, Debug, PartialEq)]
enum Oddity {
    /// The keys of a list change places, or stand there twice.
    Places,
    /// The first key names the add of the last one as its own.
    OneAdd,
    /// The first key says that it was added at position 0, where no call stands.
    NoAdd,
}

/// How many records are made, with how many keys, what is odd in them, and the chances of all keys
/// but the last.
type Batch = (u32, usize, Option<Oddity>, Chances);

/// A judge has one word for the first 64 keys, and more for the others. Where many keys are in few
/// lists, the chain hangs by the last one.
const BATCHES: &[Batch] = &[
    (2000, 5, None, [4, 32, 32, 8]),
    (500, 5, Some(Places), [4, 32, 32, 32]),
    (500, 4, Some(OneAdd), [20, 8, 16, 32]),
    (500, 5, Some(NoAdd), [4, 32, 32, 32]),
    (40, 80, None, [60, 0, 0, 0]),
    (40, 80, None, [0, 60, 0, 0]),
    (40, 80, None, [0, 0, 0, 60]),
    (20, 140, None, [0, 0, 60, 0]),
    (20, 80, Some(Places), [0, 60, 0, 0]),
];

/// A key, and which lists have it.
#[derive(Clone, Copy, Drop)]
struct DrawnKey {
    /// Counted from 1. A judge knows the key by it, whatever its add. Two keys in turn have one
    /// reference.
    number: usize,
    /// The position of its add.
    added: usize,
    chances: Chances,
    shown: ByList,
}

/// Every other roll is of algorithms, so that many reports find a step.
fn roll(rng: &mut SmallRng) -> RollType {
    let drawn = ROLLS.get(rng.random_range(0u32..10) as usize);
    drawn.copied().unwrap_or(AlgorithmRoll)
}

fn mark(rng: &mut SmallRng) -> Mark {
    match rng.random_range(0u32..8) {
        0..=1 => Mark::Step(roll(rng)),
        2..=5 => Mark::Report {
            roll: roll(rng),
            second: rng.random_range(0u32..2) == 0,
            ttl: rng.random_range(0u32..4),
        },
        _ => Mark::Other,
    }
}

/// None, or a moment. They come in any order, and a few are the greatest there is.
fn moment(rng: &mut SmallRng) -> Option<UnixTime> {
    match rng.random_range(0u64..40) {
        0..=9 => None,
        10 => Some(UnixTime::from(Duration::MAX)),
        seconds => Some(UnixTime::from(Duration::from_secs(seconds / 4))),
    }
}

/// Whether something happens that has this chance in 64.
fn happens(rng: &mut SmallRng, chance: u32) -> bool {
    rng.random_range(0u32..64) < chance
}

/// The keys of a batch, which no list has yet.
fn keys_of(alloc: Global, batch: Batch) -> Result<Vec<DrawnKey>, AllocError> {
    let (_, count, oddity, others) = batch;
    let mut keys = Vec::new(alloc);
    for number in 1..=count {
        let added = match oddity {
            Some(OneAdd) if number == 1 => count,
            Some(NoAdd) if number == 1 => 0,
            _ => number,
        };
        keys.push(DrawnKey {
            number,
            added,
            chances: if number == count { LAST } else { others },
            shown: ByList::NONE,
        })?;
    }
    Ok(keys)
}

/// Whether a list has a key now. With this `chance` it is drawn anew, and else it is as it `was`.
fn draw(rng: &mut SmallRng, chance: u32, was: bool, is: u32) -> bool {
    if happens(rng, chance) {
        happens(rng, is)
    } else {
        was
    }
}

/// Draws anew, with this chance for each list of each key, which lists have the keys. Answers what
/// that changes, and now and then names a key that is in the same lists as before.
fn change(
    rng: &mut SmallRng,
    alloc: Global,
    keys: &mut Vec<DrawnKey>,
    chance: u32,
    has_ds: bool,
) -> Result<Vec<Change>, AllocError> {
    let mut changes = Vec::new(alloc);
    for key in keys.iter_mut() {
        let (added, was) = (key.number, key.shown);
        let [ds, dnskey, signers, zone] = key.chances;
        let ds = if has_ds { ds } else { 0 };
        let shown = ByList::by_flags(
            draw(rng, chance, was.of(Shown::Ds), ds),
            draw(rng, chance, was.of(Shown::Dnskey), dnskey),
            draw(rng, chance, was.of(Shown::DnskeySigners), signers),
            draw(rng, chance, was.of(Shown::ZoneSigners), zone),
        );
        if was != shown || happens(rng, 8) {
            changes.push(Change { added, was, shown })?;
        }
        key.shown = shown;
    }
    Ok(changes)
}

/// The keys that this list has.
fn list(
    rng: &mut SmallRng,
    alloc: Global,
    keys: &[DrawnKey],
    shown: Shown,
    oddity: Option<Oddity>,
) -> Result<Vec<PublishedKey>, AllocError> {
    let is_odd = oddity == Some(Places) && happens(rng, 8);
    let mut published = Vec::new(alloc);
    for key in keys {
        let times = match key.shown.of(shown) {
            true if is_odd && happens(rng, 8) => 2,
            true => 1,
            false => 0,
        };
        for _ in 0..times {
            let Ok(reference) = format!(in alloc; "K{}", key.number / 2) else {
                return Err(AllocError);
            };
            let added = key.added;
            published.push(PublishedKey { added, reference })?;
        }
    }
    if is_odd {
        published.as_mut_slice().shuffle(rng);
    }
    Ok(published)
}

fn published(
    rng: &mut SmallRng,
    alloc: Global,
    keys: &[DrawnKey],
    oddity: Option<Oddity>,
) -> Result<Published, AllocError> {
    Ok(Published {
        ds: list(rng, alloc, keys, Shown::Ds, oddity)?,
        dnskey: list(rng, alloc, keys, Shown::Dnskey, oddity)?,
        dnskey_signers: list(rng, alloc, keys, Shown::DnskeySigners, oddity)?,
        zone_signers: list(rng, alloc, keys, Shown::ZoneSigners, oddity)?,
    })
}

/// A record in which only the last entries may have a DS set. First all keys are drawn, and later a
/// few, many or all. Unless keys change places, a judge got what each entry changes.
fn record(
    rng: &mut SmallRng,
    alloc: Global,
    batch: Batch,
) -> Result<(Vec<Entry>, Option<Judge>), Error> {
    let (_, _, oddity, _) = batch;
    let length = rng.random_range(0..=LONGEST);
    let without_ds = rng.random_range(0..=LATEST_DS);
    let has_beginning = happens(rng, 56);
    let mut keys = keys_of(alloc, batch)?;
    let mut entries = Vec::new(alloc);
    let mut judge = match oddity {
        Some(Places) => None,
        _ => Some(Judge::new(alloc)?),
    };
    for at in 0..length {
        let chance = match rng.random_range(0u32..8) {
            _ if at == 0 => 64,
            0..=3 => 3,
            4..=5 => 16,
            _ => 64,
        };
        let changes = change(rng, alloc, &mut keys, chance, without_ds <= at)?;
        let (mark, moment) = match BEGINNING.get(at as usize) {
            Some(mark) if has_beginning => (*mark, Some(UnixTime::from(Duration::from_secs(0)))),
            _ => (mark(rng), moment(rng)),
        };
        if let Some(judge) = &mut judge {
            judge.note(alloc, mark, moment, &changes)?;
        }
        entries.push(Entry {
            reply: Reply::Done,
            moment,
            mark,
            published: published(rng, alloc, &keys, oddity)?,
        })?;
    }
    Ok((entries, judge))
}

/// Whether a judge has this verdict on the entries that it got, and knows the rolls' last
/// steps.
fn has_judged(judge: &Judge, entries: &[Entry], verdict: Option<Broken>) -> bool {
    let (steps, wanted) = (judge.steps(), Steps::of_record(entries));
    for roll in ROLLS {
        match (steps.of(roll), wanted.of(roll)) {
            (None, None) => {}
            (Some(step), Some(other)) if step.at == other.at && step.origins == other.origins => {}
            _ => return false,
        }
    }
    judge.verdict() == verdict && judge.taken() == entries.len()
}

/// What is said of the records.
#[derive(Clone, Copy, Debug)]
struct Tally {
    /// How many are safe.
    safe: u32,
    /// How many are broken by the DNSKEY set of a call.
    later: u32,
    /// On how many all have one verdict.
    alike: u32,
}

fn judge_records(alloc: Global, batch: Batch) -> Result<Tally, Error> {
    let (records, ..) = batch;
    let mut rng = SmallRng::seed_from_u64(SEED);
    let mut tally = Tally {
        safe: 0,
        later: 0,
        alike: 0,
    };
    for _ in 0..records {
        let (entries, judge) = record(&mut rng, alloc, batch)?;
        let verdict = audit(&entries);
        match verdict {
            None => tally.safe = tally.safe.saturating_add(1),
            Some(broken) if broken.dnskey > 0 => tally.later = tally.later.saturating_add(1),
            Some(_) => {}
        }
        let is_told = match &judge {
            Some(judge) => has_judged(judge, &entries, verdict),
            None => true,
        };
        if is_told && audit_window(alloc, &entries) == Ok(verdict) {
            tally.alike = tally.alike.saturating_add(1);
        }
    }
    Ok(tally)
}

#[test]
fn records_at_random_are_judged_alike(rt: HostRuntime) -> Result<(), Fail> {
    let mut sum = 0u32;
    for (index, batch) in BATCHES.iter().enumerate() {
        let (records, ..) = *batch;
        let Ok(tally) = judge_records(rt.alloc(), *batch) else {
            panic!(rt; "no memory for a record of row {index}");
        };
        assert_eq!(rt; tally.alike, records, "in row {index}");
        // A good part of them gets each kind of verdict.
        let is_mixed = tally.safe > records / 10 && tally.later > records / 10;
        assert!(rt; is_mixed, "{tally:?} in row {index}");
        sum = sum.saturating_add(records);
    }
    println!(rt; "dnssec_tests: {sum} records at random")?;
    Ok(())
}
