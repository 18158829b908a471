//! Names and refusals by their public calls.

use registry_values::{Name, NameFault, Refusal, Stage};
use std::test::Fail;

const FAULTS: [(&[u8], NameFault); 4] = [
    (b"", NameFault::Empty),
    (b"abcdefghijklmnop", NameFault::TooLong),
    (b"0wm", NameFault::BadByte(0)),
    (b"wm-0", NameFault::BadByte(2)),
];

#[test]
fn parses_names(rt: HostRuntime) {
    for text in [b"a".as_slice(), b"wm0", b"abcdefghijklmno"] {
        assert!(rt; Name::parse(text).is_ok(), "a name of {} bytes", text.len());
    }
    for (text, fault) in FAULTS {
        assert_eq!(rt; Name::parse(text), Err(fault));
    }
}

#[test]
fn words_of_a_name(rt: HostRuntime) -> Result<(), Fail> {
    let name = Name::parse(b"abcdefgh1")?;
    let words = (0x6162636465666768, 0x3100000000000000);
    assert_eq!(rt; name.words(), words);
    assert_eq!(rt; Name::from_words(words.0, words.1), Some(name));
    let longest = Name::parse(b"abcdefghijklmno")?;
    assert_eq!(rt;
        Name::from_words(0x6162636465666768, 0x696a6b6c6d6e6f00),
        Some(longest)
    );
    Ok(())
}

/// The refusals in the order of their numbers, and what each says.
const REFUSALS: &[(Refusal, &str)] = &[
    (Refusal::NoMemory, "out of memory"),
    (Refusal::BadSettings, "a setting is out of its range"),
    (Refusal::NameTaken, "a live entry has this kind and name"),
    (Refusal::NoSlot, "no slot is vacant"),
    (
        Refusal::HistoryFull,
        "the history has no room for this attach and the detaches to come",
    ),
    (Refusal::NotFound, "no live entry has this kind and name"),
    (Refusal::Inside, "this CPU is inside a section"),
    (
        Refusal::SectionsSpent,
        "this CPU has begun as many sections as it may",
    ),
    (Refusal::NothingFound, "this CPU has no last found entry"),
    (
        Refusal::PassiveFull,
        "this CPU has as many passive references to the entry as it may",
    ),
    (Refusal::WrongCpu, "the reference is another CPU's"),
    (
        Refusal::NotHeld,
        "this CPU holds no passive reference to that entry",
    ),
    (
        Refusal::LocalFull,
        "this CPU's net count of local references to the entry is at its limit",
    ),
    (Refusal::NotRetired, "no retired entry has this number"),
    (
        Refusal::MissingCpu,
        "the CPUs given aren't all CPUs in their order",
    ),
    (
        Refusal::StillHeld(Stage::Grace(3)),
        "the entry is still held",
    ),
    (Refusal::Waiting(3), "CPU 3 is still inside its section"),
    (
        Refusal::TooDeep,
        "this CPU's section is nested as deep as it may be",
    ),
    (
        Refusal::NeedsDriver,
        "an interface needs a reference to a driver",
    ),
];

#[test]
fn refusals_have_numbers_and_texts(rt: HostRuntime) -> Result<(), Fail> {
    for (i, (refusal, text)) in REFUSALS.iter().enumerate() {
        let said = format!(in rt.alloc(); "{refusal}")?;
        assert!(rt; said.as_str() == *text, "the text of refusal {i}");
        assert!(rt;
            usize::from(refusal.number()) == i + 1,
            "the number of refusal {i}"
        );
    }
    assert!(rt; REFUSALS.len() == 19, "all refusals");
    Ok(())
}
