//! As many keys as there are key tags, by the key set's own calls. No contract says that memory is
//! found, so a call that gives up on many keys is proved.
use crate::values::new_set;
use dnssec_base::SecurityAlgorithm;
use dnssec_keyset::{Available, Error, KeySet, UnixTime};
use std::alloc::Global;
use std::test::Fail;
use std::time::Duration;

/// How many more keys are added, each with a tag that a key has.
const LATE: u16 = 464;

/// The kinds of keys take turns at the tags; each begins one of so many sets, so that each is asked
/// for at each tag.
const KINDS: u16 = 4;

/// Adds a key of the kind whose turn it is, with a reference of this letter and its tag.
fn add(alloc: Global, set: &mut KeySet, letter: char, tag: u16, turn: u16) -> Result<(), Error> {
    let Ok(reference) = format!(in alloc; "{letter}{tag}") else {
        return Err(Error::OutOfMemory);
    };
    let algorithm = SecurityAlgorithm::from_int(13);
    let created = UnixTime::from(Duration::from_secs(u64::from(tag)));
    let available = Available::Available;
    match tag.wrapping_add(turn) % KINDS {
        0 => set.add_key_ksk(reference, None, algorithm, tag, created, available),
        1 => set.add_key_zsk(reference, None, algorithm, tag, created, available),
        2 => set.add_key_csk(reference, None, algorithm, tag, created, available),
        _ => set.add_public_key(reference, algorithm, tag, created, true),
    }
}

#[test]
fn each_tag_has_a_key(rt: HostRuntime) -> Result<(), Fail> {
    for turn in 0..KINDS {
        let Some(mut set) = new_set(rt.alloc(), "example.com") else {
            panic!(rt; "no memory for a set");
        };
        for tag in 0..=u16::MAX {
            let answer = add(rt.alloc(), &mut set, 'K', tag, turn);
            assert_eq!(rt; answer, Ok(()), "at the tag {tag}");
        }
        for tag in 0..LATE {
            let answer = add(rt.alloc(), &mut set, 'L', tag, turn);
            assert_eq!(rt; answer, Err(Error::DuplicateKeyTag), "at the tag {tag}");
        }
        assert_eq!(rt; set.keys().len(), 65_536);
    }
    let adds = usize::from(KINDS) * (65_536 + usize::from(LATE));
    println!(rt; "dnssec_tests: {adds} adds")?;
    Ok(())
}
