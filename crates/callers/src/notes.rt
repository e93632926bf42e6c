//! A caller of `dnssec_network`.
use anyhow::{Result, bail};
use dnssec_keyset::{Half, RollType, UnixTime};
use dnssec_network::{Before, Moments, News, Notes, Origins, SetKind};
use std::alloc::Global;
use std::time::Duration;

/// Notes what is seen of a zone's DNSKEY sets while call 12 starts a KSK roll, and answers the TTL
/// of its first report.
pub fn first_report(alloc: Global) -> Result<String> {
    // Of the twelve calls only the last was given a moment. A session keeps them: see its
    // `moments`.
    let mut moments = Moments::new(alloc);
    for _ in 1..12 {
        moments.take(None)?;
    }
    moments.take(Some(at(90)))?;
    let mut notes = Notes::new(
        alloc,
        Before {
            ds: 3_600,
            dnskey: 43_200,
            zone: 3_600,
        },
    );
    // Before the first server gets it.
    let published = News::Published {
        position: 12,
        ttl: 7_200,
        moment: at(100),
    };
    notes.note(&moments, SetKind::Dnskey, published)?;
    // Once all servers were seen to give it.
    let everywhere = News::Everywhere { moment: at(130) };
    notes.note(&moments, SetKind::Dnskey, everywhere)?;
    // The call brought the DNSKEY set. The others are those of earlier calls.
    let origins = Origins {
        ds: 5,
        dnskey: 12,
        zone: 9,
    };
    match notes.ttl_due(RollType::KskRoll, Half::First, origins, at(150)) {
        Ok(ttl) => Ok(format!(in alloc; "report at 150 with a TTL of {ttl}")?),
        Err(kind) => bail!("{kind:?} isn't on all servers yet"),
    }
}

fn at(seconds: u64) -> UnixTime {
    UnixTime::from(Duration::from_secs(seconds))
}
