//! The first sets without a chain, once a test has failed: each window is searched in the order of
//! its spans. A set that fits all others is left out by one test, so that no other window is
//! searched for it.
ghost use Rattle.std.specs.{Prelude.◌≡◌, Option.option_copied};
ghost use Rattle.dnssec_judge.specs.Inner.Window.{dnskey_holds, ds_holds, first_broken};
ghost use Rattle.dnssec_judge.specs.Inner.Window.{first_failing, spans_of};
ghost use Rattle.dnssec_judge.specs.Sets.{sets_have_chain};

use super::spans::Span;
use super::{Link, Window};
use crate::sets::OpenSet;
use crate::verdict::Broken;

/// The first three sets without a chain of trust in the three windows, or `None` if all have one.
/// First are those with the least position of the DS set, then of the DNSKEY set, then of the zone
/// signers. `at` is the position at which caches may hold them. `are_signed` says that all DNSKEY
/// sets fit all zone signers.
pub(crate) fn find_broken(
    ds: &Window,
    dnskey: &Window,
    zone: &Window,
    are_signed: bool,
    at: usize,
) -> Option<Broken>
    ensures { result ≡ first_broken at are_signed ds.now dnskey.now zone.now }
{
    let named = find_ds(ds, dnskey, are_signed)?;
    let keys = find_keys(&named.set, dnskey, zone)?;
    let signers = find_zone(&named.set, &keys.set, zone)?;
    Some(Broken {
        at,
        ds: ds.floor.max(named.from),
        dnskey: dnskey.floor.max(keys.from),
        zone: zone.floor.max(signers.from),
    })
}

/// The first DS set of the window `ds` that has a key, and that doesn't fit all DNSKEY sets, unless
/// these don't fit all zone signers, so that `are_signed` is false. `None` if there is none.
fn find_ds<'a>(ds: &'a Window, dnskey: &Window, are_signed: bool) -> Option<&'a Span>
    ensures { option_copied result ≡ first_failing (ds_holds are_signed (spans_of dnskey.now))
        (spans_of ds.now) }
{
    ds.spans.list.iter().find(|span| {
        !(span.set.has_no_keys()
            || are_signed && dnskey.spans.all_hold(Link::Named, true, &span.set))
    })
}

/// The first DNSKEY set of the window `dnskey` that doesn't fit the DS set `ds`, or doesn't fit all
/// zone signers. `None` if there is none.
fn find_keys<'a>(ds: &OpenSet, dnskey: &'a Window, zone: &Window) -> Option<&'a Span>
    ensures { option_copied result ≡ first_failing (dnskey_holds ds.now (spans_of zone.now))
        (spans_of dnskey.now) }
{
    dnskey
        .spans
        .list
        .iter()
        .find(|span| !have_chains(ds, &span.set, zone))
}

/// Whether the DS set `ds` and the DNSKEY set `keys` have a chain of trust with all zone signers of
/// the window `zone`.
#[inline(always)]
fn have_chains(ds: &OpenSet, keys: &OpenSet, zone: &Window) -> bool
    ensures { result ≡ dnskey_holds ds.now (spans_of zone.now) keys.now }
{
    ds.has_no_keys() || ds.names_key_of(keys) && zone.spans.all_hold(Link::Signed, true, keys)
}

/// The first zone signers of the window `zone` that have no chain of trust with the DS set `ds` and
/// the DNSKEY set `keys`. `None` if all have one.
fn find_zone<'a>(ds: &OpenSet, keys: &OpenSet, zone: &'a Window) -> Option<&'a Span>
    ensures { option_copied result ≡ first_failing (sets_have_chain ds.now keys.now)
        (spans_of zone.now) }
{
    zone.spans
        .list
        .iter()
        .find(|span| !ds.has_chain(keys, &span.set))
}
