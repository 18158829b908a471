//! The words after a command's first: CPUs, kinds, names, labels and turns.

ghost use Rattle.std.specs.Prelude.{◌≡◌, IfOk, IsTrue, map, ◌<◌};
ghost use Rattle.registry_language.specs.Grammar.{cpu_of, kind_from_text, name_if, turns_of, label_of, cpu_alone_of, cpu_key_of, cpu_key_words, cpu_label_of, cpu_label_words};
ghost use Rattle.registry_language.specs.Program.{is_label, are_turns};
ghost use Rattle.registry_values.specs.Common.{name_of_bytes, is_lawful};

use crate::fault::Cause;
use crate::label::Label;
use crate::words::number;
use registry_values::{Kind, Name, Settings};

/// A number below the number of CPUs.
#[tactic(auto, unfolding(crate::specs::Grammar::cpu_of))]
pub fn cpu(settings: Settings, word: &[u8]) -> Result<u8, Cause>
    ensures said { result ≡ cpu_of settings.cpus word.now }
    ensures below { IfOk result (λ n. n < settings.cpus) }
{
    match number(word) {
        Some(n) if n < u64::from(settings.cpus) => Ok(n as u8),
        _ => Err(Cause::BadCpu),
    }
}

/// `iface` or `driver`.
pub fn kind(word: &[u8]) -> Result<Kind, Cause>
    ensures { result ≡ kind_from_text word.now }
{
    if word == b"iface".as_slice() {
        Ok(Kind::Iface)
    } else if word == b"driver".as_slice() {
        Ok(Kind::Driver)
    } else {
        Err(Cause::BadKind)
    }
}

/// The name of an entry.
pub fn name(word: &[u8]) -> Result<Name, Cause>
    ensures value { result ≡ name_if (name_of_bytes word.now) }
    ensures lawful { IfOk result (λ name. IsTrue (is_lawful name)) }
{
    match Name::parse(word) {
        Ok(name) => Ok(name),
        Err(_) => Err(Cause::BadName),
    }
}

/// A letter `a` to `z`.
pub fn label(word: &[u8]) -> Result<Label, Cause>
    ensures said { result ≡ label_of word.now }
    ensures letter { IfOk result (λ label. IsTrue (is_label label)) }
{
    match word {
        [letter] if letter.is_ascii_lowercase() => Ok(Label {
            place: *letter - b'a',
        }),
        _ => Err(Cause::BadLabel),
    }
}

/// A number of turns, 1 to 1000.
#[tactic(auto, unfolding(crate::specs::Grammar::turns_of))]
pub fn turns(word: &[u8]) -> Result<u32, Cause>
    ensures said { result ≡ turns_of word.now }
    ensures within { IfOk result (λ n. IsTrue (are_turns n)) }
{
    match number(word) {
        Some(n) if 1 <= n && n <= 1000 => Ok(n as u32),
        _ => Err(Cause::BadNumber),
    }
}

/// A CPU alone.
/// Refused: `BadCpu`; `WrongCount` if this isn't one word.
#[tactic(auto, unfolding(crate::specs::Grammar::cpu_alone_of))]
pub fn cpu_alone(settings: Settings, arguments: &[&[u8]]) -> Result<u8, Cause>
    ensures said { result ≡ cpu_alone_of settings (map (λ x. x.now) arguments.now) }
    ensures below { IfOk result (λ n. n < settings.cpus) }
{
    let [word] = arguments else {
        return Err(Cause::WrongCount);
    };
    cpu(settings, word)
}

/// A CPU, a kind and a name. Refused by the first word that is none: `BadCpu`, `BadKind`, `BadName`; `WrongCount` if these aren't three
/// words.
pub fn cpu_and_key(settings: Settings, arguments: &[&[u8]]) -> Result<(u8, Kind, Name), Cause>
    ensures said { result ≡ cpu_key_of settings (map (λ x. x.now) arguments.now) }
    ensures below { IfOk result (λ p. p.0 < settings.cpus) }
{
    match arguments {
        [cpu, kind, name] => cpu_key_words(settings, cpu, kind, name),
        _ => Err(Cause::WrongCount),
    }
}

#[tactic(auto, unfolding(crate::specs::Grammar::cpu_key_words))]
fn cpu_key_words(
    settings: Settings,
    first: &[u8],
    second: &[u8],
    third: &[u8],
) -> Result<(u8, Kind, Name), Cause>
    ensures said { result ≡ cpu_key_words settings first.now second.now third.now }
    ensures below { IfOk result (λ p. p.0 < settings.cpus) }
{
    let cpu = cpu(settings, first)?;
    let kind = kind(second)?;
    let name = name(third)?;
    Ok((cpu, kind, name))
}

/// A CPU and a label. Refused by the first word that is none: `BadCpu`, `BadLabel`; `WrongCount` if these aren't two words.
pub fn cpu_and_label(settings: Settings, arguments: &[&[u8]]) -> Result<(u8, Label), Cause>
    ensures said { result ≡ cpu_label_of settings (map (λ x. x.now) arguments.now) }
    ensures below { IfOk result (λ p. p.0 < settings.cpus) }
    ensures letter { IfOk result (λ p. IsTrue (is_label p.1)) }
{
    match arguments {
        [cpu, label] => cpu_label_words(settings, cpu, label),
        _ => Err(Cause::WrongCount),
    }
}

#[tactic(auto, unfolding(crate::specs::Grammar::cpu_label_words))]
fn cpu_label_words(settings: Settings, first: &[u8], second: &[u8]) -> Result<(u8, Label), Cause>
    ensures said { result ≡ cpu_label_words settings first.now second.now }
    ensures below { IfOk result (λ p. p.0 < settings.cpus) }
    ensures letter { IfOk result (λ p. IsTrue (is_label p.1)) }
{
    let cpu = cpu(settings, first)?;
    let label = label(second)?;
    Ok((cpu, label))
}
