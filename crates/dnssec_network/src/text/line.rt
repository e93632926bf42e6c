//! What a line of notes says.
ghost use Rattle.std.specs.Prelude.{◌≡◌, List};
ghost use Rattle.std.specs.Option.{option_map};
ghost use Rattle.dnssec_script.specs.Script.{values_of};
ghost use Rattle.dnssec_network.specs.Text.Lines.{as_before, as_fact, before_forms, before_says};
ghost use Rattle.dnssec_network.specs.Text.Lines.{either_named, fact_says, kind_at, kind_name};
ghost use Rattle.dnssec_network.specs.Text.Lines.{kind_named, news_after, news_says, word_at};

use crate::fact::{Before, Fact, News};
use dnssec_record::Fields;
use dnssec_run::{ByKind, SetKind};

/// The names of the kinds of sets.
const KIND_NAMES: ByKind<&str> = ByKind {
    ds: "ds",
    dnskey: "dnskey",
    zone: "zone",
};

/// The words of facts.
#[derive(Clone, Copy)]
pub(crate) enum FactWord {
    Published,
    Everywhere,
}

/// The value that is called `name`, of two pairs of a name and its value. `one` goes first if both
/// have this name. `None` if neither has it.
pub fn either_named<T: Copy>(name: &[u8], one: (&[u8], T), other: (&[u8], T)) -> Option<T>
    ensures { result ≡ either_named name.now (one.entry.0.now, one.entry.1)
        (other.entry.0.now, other.entry.1) }
{
    if name == one.0 {
        Some(one.1)
    } else if name == other.0 {
        Some(other.1)
    } else {
        None
    }
}

/// The kind of sets that notes call `name`: `ds`, `dnskey` or `zone`. `None` for any other name.
#[tactic(auto, unfolding(crate::specs::Text::Lines::kind_named))]
fn kind_named(name: &[u8]) -> Option<SetKind>
    ensures { result ≡ kind_named name.now }
{
    if name == KIND_NAMES.ds.as_bytes() {
        Some(SetKind::Ds)
    } else if name == KIND_NAMES.dnskey.as_bytes() {
        Some(SetKind::Dnskey)
    } else if name == KIND_NAMES.zone.as_bytes() {
        Some(SetKind::ZoneSigners)
    } else {
        None
    }
}

/// The name of a kind of sets in notes: `ds`, `dnskey` or `zone`.
pub fn kind_name(kind: SetKind) -> &'static str
    ensures { result.now ≡ kind_name kind }
{
    KIND_NAMES.of(kind)
}

/// Reads the first field of a line as the word of a fact, `published` or `everywhere`. It answers
/// the word and the fields after it. `None` if there is no field, or it is another word.
#[tactic(auto, unfolding(crate::specs::Text::Lines::word_named))]
fn first_word<'a>(fields: Fields<'a>) -> Option<(FactWord, Fields<'a>)>
    ensures { option_map (λ x. (x.0, x.1)) result ≡ word_at fields.entry }
{
    let (name, fields) = fields.next()?;
    let published = (b"published".as_slice(), FactWord::Published);
    let everywhere = (b"everywhere".as_slice(), FactWord::Everywhere);
    Some((either_named(name, published, everywhere)?, fields))
}

/// Reads the first of these fields as a kind of sets: `ds`, `dnskey` or `zone`. It answers the kind
/// and the fields after it. `None` if there is no field, or it names no kind.
fn first_kind<'a>(fields: Fields<'a>) -> Option<(SetKind, Fields<'a>)>
    ensures { option_map (λ x. (x.0, x.1)) result ≡ kind_at fields.entry }
{
    let (name, fields) = fields.next()?;
    Some((kind_named(name)?, fields))
}

/// Reads a line of notes that states a fact. `published dnskey 12 3600 100` says that a DNSKEY set
/// is published as it is due after call 12, with a TTL of at most 3600 seconds, at second 100 since
/// 1970. `everywhere dnskey 130` says that at second 130 all servers gave what was published last.
/// `None` if the line has neither form. Whether notes take the fact, `Notes::note` says.
///
/// ```rust
/// if let Some(fact) = read_fact(b"published dnskey 12 3600 100") {
///     let (kind, news) = (fact.kind, fact.news);
/// }
/// ```
#[tactic(auto, unfolding(crate::specs::Text::Lines::as_fact))]
pub fn read_fact(line: &[u8]) -> Option<Fact>
    ensures { option_map fact_says result ≡ as_fact line.now }
{
    let (word, fields) = first_word(Fields::of(line))?;
    let (kind, fields) = first_kind(fields)?;
    let news = read_news(word, fields)?;
    Some(Fact { kind, news })
}

/// Reads the fields of a fact's line that follow its `word` and its kind: for `published` the
/// number of a call, a TTL in seconds and a second since 1970, for `everywhere` a second since 1970
/// alone. `None` if they don't have this form.
fn read_news(word: FactWord, fields: Fields<'_>) -> Option<News>
    ensures { option_map news_says result ≡ news_after word fields.entry }
{
    match word {
        FactWord::Published => published(fields),
        FactWord::Everywhere => everywhere(fields),
    }
}

/// Reads the fields after `published` and a kind: the number of a call, a TTL in seconds, and a
/// moment as a second since 1970. `None` if they don't have this form.
fn published(fields: Fields<'_>) -> Option<News>
    ensures { option_map news_says result ≡ news_after FactWord.Published fields.entry }
{
    let (position, fields) = fields.number(u64::MAX)?;
    let (ttl, fields) = fields.ttl()?;
    let (moment, fields) = fields.time()?;
    fields.end()?;
    Some(News::Published {
        position: position as usize,
        ttl,
        moment,
    })
}

/// Reads the fields after `everywhere` and a kind, and answers the news that all servers gave the
/// newest version at the moment that they name. They have to be one field: a second since 1970.
/// `None` if they have another form.
fn everywhere(fields: Fields<'_>) -> Option<News>
    ensures { option_map news_says result ≡ news_after FactWord.Everywhere fields.entry }
{
    let (moment, fields) = fields.time()?;
    fields.end()?;
    Some(News::Everywhere { moment })
}

/// Reads the first line of notes, as `before 3600 3600 3600`: the highest TTLs, in seconds, of DS
/// sets, DNSKEY sets and other sets before the first call. `None` if the line doesn't have this
/// form.
///
/// ```rust
/// let before = read_before(b"before 3600 3600 3600");
/// ```
#[tactic(auto, unfolding(crate::specs::Text::Lines::as_before))]
pub fn read_before(line: &[u8]) -> Option<Before>
    ensures { option_map before_says result ≡ as_before line.now }
{
    let (word, fields) = Fields::of(line).next()?;
    if word == b"before".as_slice() {
        before(fields)
    } else {
        None
    }
}

/// Reads the fields after `before`: the TTLs, in seconds, of DS sets, DNSKEY sets and other sets
/// before the first call. `None` if they aren't three TTLs.
fn before(fields: Fields<'_>) -> Option<Before>
    ensures { option_map before_says result ≡ values_of before_forms fields.entry }
{
    let (ds, fields) = fields.ttl()?;
    let (dnskey, fields) = fields.ttl()?;
    let (zone, fields) = fields.ttl()?;
    fields.end()?;
    Some(Before { ds, dnskey, zone })
}
