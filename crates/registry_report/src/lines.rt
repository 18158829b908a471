//! The lines of a report.

ghost use Rattle.std.specs.Prelude.{◌≡◌, ◌<◌, ◌+◌, ◌++◌, IfOk, IfErr, IsErrOf, None, Some, map, string_bytes, ◌∷◌, [], codes};
ghost use Rattle.std.specs.Fmt.{signed_decimal};
ghost use Rattle.registry_values.specs.Common.{tally_shown};
ghost use Rattle.registry_report.specs.Lines.{line_of_words, line_of_text, spaced_words, domain_line, limits_line, attached_line, retired_line, found_line, section_line, label_line, held_line, reading_line, destroyed_line, balance_line, audit_text, stage_words, refused_line, hitch_line};

use super::hitch::Hitch;
use super::session::Reading;
use registry_language::{Label, RunFault};
use registry_values::{Balance, Entry, Refusal, Stage};
use std::alloc::Global;

/// These words, and the end of the line.
pub fn said(alloc: Global, words: &str) -> Result<String, RunFault>
    ensures line { IfOk result (λ text. string_bytes text ≡ line_of_text words.now) }
    ensures memory { IfErr result (λ fault. fault ≡ RunFault.Memory) }
{
    Ok(format!(in alloc; "{words}\n")?)
}

/// The registry has so many CPUs and slots.
pub fn opened(alloc: Global, cpus: u8, slots: u8) -> Result<String, RunFault>
    ensures line { IfOk result (λ text. string_bytes text ≡ domain_line cpus slots) }
    ensures memory { IfErr result (λ fault. fault ≡ RunFault.Memory) }
{
    Ok(format!(in alloc; "domain {cpus} {slots}\n")?)
}

/// So many changes, outermost sections, passive references and net counts are the limits.
pub fn limited(
    alloc: Global,
    changes: u64,
    sections: u64,
    passive: u64,
    count: u64,
) -> Result<String, RunFault>
    ensures line { IfOk result (λ text. string_bytes text ≡ limits_line changes sections passive count) }
    ensures memory { IfErr result (λ fault. fault ≡ RunFault.Memory) }
{
    Ok(format!(in alloc; "limits {changes} {sections} {passive} {count}\n")?)
}

/// The entry was attached.
pub fn attached(alloc: Global, entry: Entry) -> Result<String, RunFault>
    ensures line { IfOk result (λ text. string_bytes text ≡ attached_line entry) }
    ensures memory { IfErr result (λ fault. fault ≡ RunFault.Memory) }
{
    Ok(format!(in alloc; "attached {} slot {}\n", entry.number, entry.slot)?)
}

/// The entry was detached.
pub fn retired(alloc: Global, entry: Entry) -> Result<String, RunFault>
    ensures line { IfOk result (λ text. string_bytes text ≡ retired_line entry) }
    ensures memory { IfErr result (λ fault. fault ≡ RunFault.Memory) }
{
    Ok(format!(in alloc; "retired {} slot {}\n", entry.number, entry.slot)?)
}

/// What a lookup found.
pub fn found(alloc: Global, answer: Option<Entry>) -> Result<String, RunFault>
    ensures line { IfOk result (λ text. string_bytes text ≡ found_line answer) }
    ensures memory { IfErr result (λ fault. fault ≡ RunFault.Memory) }
{
    match answer {
        Some(entry) => found_entry(alloc, entry),
        None => said(alloc, "none"),
    }
}

fn found_entry(alloc: Global, entry: Entry) -> Result<String, RunFault>
    ensures line { IfOk result (λ text. string_bytes text ≡ found_line (Some entry)) }
    ensures memory { IfErr result (λ fault. fault ≡ RunFault.Memory) }
{
    let value = entry.rec.value;
    Ok(format!(in alloc;
        "found {} slot {} value {value}\n",
        entry.number, entry.slot
    )?)
}

/// Whether the CPU's section stays open.
pub fn section(alloc: Global, stays: bool) -> Result<String, RunFault>
    ensures line { IfOk result (λ text. string_bytes text ≡ section_line stays) }
    ensures memory { IfErr result (λ fault. fault ≡ RunFault.Memory) }
{
    if stays {
        said(alloc, "inside")
    } else {
        said(alloc, "outside")
    }
}

/// The word, the label, and the number that its reference is to.
pub fn labelled(alloc: Global, word: &str, label: Label, number: u64) -> Result<String, RunFault>
    requires { label.place < 26 }
    ensures line { IfOk result (λ text. string_bytes text ≡ label_line word.now label.place number) }
    ensures memory { IfErr result (λ fault. fault ≡ RunFault.Memory) }
{
    let letter = char::from(b'a' + label.place);
    Ok(format!(in alloc; "{word} {letter} {number}\n")?)
}

/// Whether the CPU holds a passive reference.
pub fn held(alloc: Global, held: bool) -> Result<String, RunFault>
    ensures line { IfOk result (λ text. string_bytes text ≡ held_line held) }
    ensures memory { IfErr result (λ fault. fault ≡ RunFault.Memory) }
{
    if held {
        said(alloc, "yes")
    } else {
        said(alloc, "no")
    }
}

/// The word, and what was read.
pub fn reading(alloc: Global, word: &str, reading: Reading) -> Result<String, RunFault>
    ensures line { IfOk result (λ text. string_bytes text ≡ reading_line word.now reading.number reading.value) }
    ensures memory { IfErr result (λ fault. fault ≡ RunFault.Memory) }
{
    Ok(format!(in alloc; "{word} {} value {}\n", reading.number, reading.value)?)
}

/// The slot is vacant again.
pub fn destroyed(alloc: Global, slot: u8) -> Result<String, RunFault>
    ensures line { IfOk result (λ text. string_bytes text ≡ destroyed_line slot) }
    ensures memory { IfErr result (λ fault. fault ≡ RunFault.Memory) }
{
    Ok(format!(in alloc; "destroyed slot {slot}\n")?)
}

/// The lines of all balances, or that there is none.
pub fn audited(alloc: Global, balances: &[Balance]) -> Result<String, RunFault>
    ensures line { IfOk result (λ text. string_bytes text ≡ audit_text (map tally_shown balances.now)) }
    ensures memory { IfErr result (λ fault. fault ≡ RunFault.Memory) }
{
    if balances.is_empty() {
        return said(alloc, "empty");
    }
    let mut text = String::new(alloc);
    for balance in balances {
        let line = balanced(alloc, balance)?;
        text.push_str(&line)?;
    }
    Ok(text)
}

fn balanced(alloc: Global, balance: &Balance) -> Result<String, RunFault>
    ensures line { IfOk result (λ text. string_bytes text ≡ balance_line (tally_shown balance.now)) }
    ensures memory { IfErr result (λ fault. fault ≡ RunFault.Memory) }
{
    let locals = numbers(alloc, &balance.locals)?;
    Ok(format!(in alloc;
        "slot {} number {} held {} locals{locals} total {}\n",
        balance.slot, balance.number, balance.held, balance.total
    )?)
}

/// The numbers, a space before each.
fn numbers(alloc: Global, numbers: &[i64]) -> Result<String, RunFault>
    ensures words { IfOk result (λ text. string_bytes text ≡ spaced_words (map signed_decimal numbers.now)) }
    ensures memory { IfErr result (λ fault. fault ≡ RunFault.Memory) }
{
    let mut text = String::new(alloc);
    for number in numbers {
        let word = format!(in alloc; " {number}")?;
        text.push_str(&word)?;
    }
    Ok(text)
}

/// How far a destruction has come, after some words in front.
pub fn stage(alloc: Global, front: &str, stage: Stage) -> Result<String, RunFault>
    ensures line { IfOk result (λ text. string_bytes text ≡ front.now ++ line_of_words (stage_words stage)) }
    ensures memory { IfErr result (λ fault. fault ≡ RunFault.Memory) }
{
    let line = match stage {
        Stage::Grace(cpu) => format!(in alloc; "{front}grace cpu {cpu}\n")?,
        Stage::Passive(cpu) => format!(in alloc; "{front}passive cpu {cpu}\n")?,
        Stage::Local(held) => format!(in alloc; "{front}local {held}\n")?,
        Stage::Freed(slot) => format!(in alloc; "{front}freed slot {slot}\n")?,
    };
    Ok(line)
}

/// The line of a command that has no answer. Out of memory has no line.
pub fn hitched(alloc: Global, hitch: Hitch) -> Result<String, RunFault>
    ensures line { IfOk result (λ text. string_bytes text ≡ hitch_line hitch) }
    ensures silent { hitch ≡ Hitch.Refused Refusal.NoMemory → IsErrOf result RunFault.Memory }
    ensures memory { IfErr result (λ fault. fault ≡ RunFault.Memory) }
{
    match hitch {
        Hitch::NoLabel => said(alloc, "no label"),
        Hitch::LabelTaken => said(alloc, "label taken"),
        Hitch::NotInside => said(alloc, "not inside"),
        Hitch::Refused(refusal) => refused(alloc, refusal),
    }
}

/// The refusal's name and what it carries. Out of memory has no line.
fn refused(alloc: Global, refusal: Refusal) -> Result<String, RunFault>
    ensures line { IfOk result (λ text. string_bytes text ≡ refused_line refusal) }
    ensures silent { refusal ≡ Refusal.NoMemory → IsErrOf result RunFault.Memory }
    ensures memory { IfErr result (λ fault. fault ≡ RunFault.Memory) }
{
    match refusal {
        Refusal::NoMemory => Err(RunFault::Memory),
        Refusal::BadSettings => refused_as(alloc, "BadSettings"),
        Refusal::NameTaken => refused_as(alloc, "NameTaken"),
        Refusal::NoSlot => refused_as(alloc, "NoSlot"),
        Refusal::HistoryFull => refused_as(alloc, "HistoryFull"),
        Refusal::NotFound => refused_as(alloc, "NotFound"),
        Refusal::Inside => refused_as(alloc, "Inside"),
        Refusal::SectionsSpent => refused_as(alloc, "SectionsSpent"),
        Refusal::NothingFound => refused_as(alloc, "NothingFound"),
        Refusal::PassiveFull => refused_as(alloc, "PassiveFull"),
        Refusal::WrongCpu => refused_as(alloc, "WrongCpu"),
        Refusal::NotHeld => refused_as(alloc, "NotHeld"),
        Refusal::LocalFull => refused_as(alloc, "LocalFull"),
        Refusal::NotRetired => refused_as(alloc, "NotRetired"),
        Refusal::MissingCpu => refused_as(alloc, "MissingCpu"),
        Refusal::StillHeld(held) => stage(alloc, "refused StillHeld ", held),
        Refusal::Waiting(cpu) => waiting(alloc, cpu),
        Refusal::TooDeep => refused_as(alloc, "TooDeep"),
        Refusal::NeedsDriver => refused_as(alloc, "NeedsDriver"),
    }
}

fn refused_as(alloc: Global, name: &str) -> Result<String, RunFault>
    ensures line { IfOk result (λ text. string_bytes text ≡ line_of_words (codes "refused" ∷ name.now ∷ [])) }
    ensures memory { IfErr result (λ fault. fault ≡ RunFault.Memory) }
{
    Ok(format!(in alloc; "refused {name}\n")?)
}

fn waiting(alloc: Global, cpu: u8) -> Result<String, RunFault>
    ensures line { IfOk result (λ text. string_bytes text ≡ refused_line (Refusal.Waiting cpu)) }
    ensures memory { IfErr result (λ fault. fault ≡ RunFault.Memory) }
{
    Ok(format!(in alloc; "refused Waiting cpu {cpu}\n")?)
}
