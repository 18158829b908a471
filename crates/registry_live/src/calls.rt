//! The calls of a session over a running registry, each on one CPU and at the place of one label.

ghost use Rattle.std.specs.Prelude.{◌≡◌, ◌≢◌, ◌↔◌, ◌<◌, IfErr, IfOk, IsTrue, None, Some, false, is_some, true};
ghost use Rattle.cpu_words.specs.Common.{AreWordsOf, key_with, references_to};
ghost use Rattle.local_count.specs.{HasAcquired, why_not_acquired_local};
ghost use Rattle.name_registry.specs.Common.{HasLearned, HasSeenAttach, IsLetGo};
ghost use Rattle.registry_values.specs.Common.{is_key, is_iface};
ghost use Rattle.name_registry.specs.Types.{Record};
ghost use Rattle.passive_list.specs.Common.{HasFound, HasExitedOn};
ghost use Rattle.passive_ref.specs.{HasOneLess, IsAcquired, IsCopied, IsRead, why_not_acquired, why_not_copied, why_unusable};
ghost use Rattle.registry_live.specs.{Decides, Has, IsPlugHitch, hitch_of, unless_free, unless_taken, why_outside};

use cpu_words::{Domain, Words};
use local_count::{LocalRef, acquire_local};
use name_registry::Registry;
use passive_list::{Cpu, exit, find};
use passive_ref::{Psref, acquire, copy, held, read, release};
use registry_report::{Hitch, Reading};
use registry_values::{Entry, Kind, Name, Record};
use std::sync::Wait;

/// The CPU exits its section; whether the section stays open. Outside no call is made.
pub fn leave<D: Domain>(words: &Words, cpu: &mut Cpu<D>) -> Result<bool, Hitch>
    requires words { AreWordsOf words.now D.table D.settings }
    ensures answer { Decides (why_outside cpu.old) (λ stays. HasExitedOn cpu.old cpu.new × (IsTrue stays ↔ cpu.new.view.begin ≢ None)) result }
    ensures refused { IfErr result (λ _. cpu.new ≡ cpu.old) }
    ensures id { cpu.new.view.id ≡ cpu.old.view.id }
    ensures references { cpu.new.view.references ≡ cpu.old.view.references }
{
    if !cpu.inside() {
        return Err(Hitch::NotInside);
    }
    exit(words, cpu);
    Ok(cpu.inside())
}

/// What the CPU finds inside its section. Outside no call is made.
pub fn look_up<D: Domain>(
    words: &Words,
    cpu: &mut Cpu<D>,
    kind: Kind,
    name: &Name,
) -> Result<Option<Entry>, Hitch>
    requires words { AreWordsOf words.now D.table D.settings }
    ensures answer { Decides (why_outside cpu.old) (HasFound (key_with kind name.now) cpu.old cpu.new) result }
    ensures refused { IfErr result (λ _. cpu.new ≡ cpu.old) }
    ensures id { cpu.new.view.id ≡ cpu.old.view.id }
    ensures references { cpu.new.view.references ≡ cpu.old.view.references }
{
    if !cpu.inside() {
        return Err(Hitch::NotInside);
    }
    Ok(find(words, cpu, kind, name))
}

/// Puts a reference in a place that is free.
pub fn fill<X>(place: &mut Option<X>, reference: X)
    requires { place.old ≡ None }
    ensures { place.new ≡ Some reference }
{
    if let Some(_) = place.replace(reference) {
        unreachable!()
    }
}

/// Fills the place with a passive reference to what the CPU found last; the number that it is to. Where the place is
/// taken no call is made.
pub fn refer<D: Domain>(
    words: &Words,
    cpu: &mut Cpu<D>,
    place: &mut Option<Psref>,
) -> Result<u64, Hitch>
    requires words { AreWordsOf words.now D.table D.settings }
    ensures answer { Decides (unless_taken (is_some place.old) (why_not_acquired cpu.old.view cpu.old.view.found)) (λ n. Has place.new (λ p. (p.number ≡ n) × IsAcquired cpu.old cpu.new p)) result }
    ensures refused { IfErr result (λ _. (place.new ≡ place.old) × (cpu.new ≡ cpu.old)) }
    ensures id { cpu.new.view.id ≡ cpu.old.view.id }
{
    if place.is_some() {
        return Err(Hitch::LabelTaken);
    }
    let psref = acquire(words, cpu)?;
    let number = psref.number();
    fill(place, psref);
    Ok(number)
}

/// A second passive reference of the source's, for a place that is taken or free. No call is made where the source is
/// free, or else where that place is taken.
pub fn copied<D: Domain>(
    words: &Words,
    cpu: &mut Cpu<D>,
    source: &Option<Psref>,
    taken: bool,
) -> Result<Psref, Hitch>
    requires words { AreWordsOf words.now D.table D.settings }
    ensures answer { Decides (unless_free source.now (λ q. unless_taken taken (why_not_copied cpu.old.view q.number (why_unusable cpu.old.view q)))) (λ p. Has source.now (λ q. IsCopied q.number cpu.old cpu.new p)) result }
    ensures refused { IfErr result (λ _. cpu.new ≡ cpu.old) }
    ensures id { cpu.new.view.id ≡ cpu.old.view.id }
{
    let Some(psref) = source else {
        return Err(Hitch::NoLabel);
    };
    if taken {
        return Err(Hitch::LabelTaken);
    }
    Ok(copy(words, cpu, psref)?)
}

/// Whether the CPU holds a passive reference to the target of the one in the place.
pub fn holds<D: Domain>(cpu: &Cpu<D>, place: &Option<Psref>) -> Result<bool, Hitch>
    ensures { Decides (unless_free place.now (λ _. None)) (λ yes. Has place.now (λ p. IsTrue yes ↔ 0 < references_to p.number cpu.now.view.references)) result }
{
    let Some(psref) = place else {
        return Err(Hitch::NoLabel);
    };
    Ok(held(cpu, psref))
}

/// What the CPU reads by the passive reference in the place.
pub fn read_by<D: Domain>(
    words: &Words,
    cpu: &mut Cpu<D>,
    place: &Option<Psref>,
) -> Result<Reading, Hitch>
    requires words { AreWordsOf words.now D.table D.settings }
    ensures answer { Decides (unless_free place.now (λ p. hitch_of (why_unusable cpu.old.view p))) (λ seen. Has place.now (λ p. (seen.number ≡ p.number) × (rec : Record) × IsRead p.number cpu.old cpu.new rec × (seen.value ≡ rec.value))) result }
    ensures refused { IfErr result (λ _. cpu.new ≡ cpu.old) }
    ensures id { cpu.new.view.id ≡ cpu.old.view.id }
    ensures references { cpu.new.view.references ≡ cpu.old.view.references }
{
    let Some(psref) = place else {
        return Err(Hitch::NoLabel);
    };
    let rec = read(words, cpu, psref)?;
    Ok(Reading {
        number: psref.number(),
        value: rec.value,
    })
}

/// The CPU releases the passive reference in the place, which is free then; the number that it was to. A refused one
/// stays in its place.
pub fn let_go<D: Domain>(
    words: &Words,
    cpu: &mut Cpu<D>,
    place: &mut Option<Psref>,
) -> Result<u64, Hitch>
    requires words { AreWordsOf words.now D.table D.settings }
    ensures answer { Decides (unless_free place.old (λ p. hitch_of (why_unusable cpu.old.view p))) (λ n. Has place.old (λ p. (p.number ≡ n) × HasOneLess n cpu.old cpu.new)) result }
    ensures free { IfOk result (λ _. place.new ≡ None) }
    ensures refused { IfErr result (λ _. (place.new ≡ place.old) × (cpu.new ≡ cpu.old)) }
    ensures id { cpu.new.view.id ≡ cpu.old.view.id }
{
    let Some(psref) = place.take() else {
        return Err(Hitch::NoLabel);
    };
    let number = psref.number();
    match release(words, cpu, psref) {
        Ok(()) => Ok(number),
        Err((refusal, back)) => {
            fill(place, back);
            Err(Hitch::Refused(refusal))
        }
    }
}

/// Fills the place with a local reference to what the CPU found last; the number that it is to. Where the place is
/// taken no call is made.
pub fn count_one<D: Domain>(
    words: &Words,
    cpu: &mut Cpu<D>,
    place: &mut Option<LocalRef<D>>,
) -> Result<u64, Hitch>
    requires words { AreWordsOf words.now D.table D.settings }
    ensures answer { Decides (unless_taken (is_some place.old) (why_not_acquired_local cpu.old.view cpu.old.view.found)) (λ n. Has place.new (λ v. (v.entry.number ≡ n) × HasAcquired cpu.old cpu.new v)) result }
    ensures refused { IfErr result (λ _. (place.new ≡ place.old) × (cpu.new ≡ cpu.old)) }
    ensures id { cpu.new.view.id ≡ cpu.old.view.id }
    ensures references { cpu.new.view.references ≡ cpu.old.view.references }
{
    if place.is_some() {
        return Err(Hitch::LabelTaken);
    }
    let reference = acquire_local(words, cpu)?;
    let number = reference.number();
    fill(place, reference);
    Ok(number)
}

/// The record that the local reference in the place is to. It stays there.
pub fn peek_at<D: Domain>(words: &Words, place: &mut Option<LocalRef<D>>) -> Result<Reading, Hitch>
    requires words { AreWordsOf words.now D.table D.settings }
    ensures answer { Decides (unless_free place.old (λ _. None)) (λ seen. Has place.old (λ v. (seen.number ≡ v.entry.number) × (seen.value ≡ v.entry.rec.value))) result }
    ensures same { place.new ≡ place.old }
{
    let Some(mut reference) = place.take() else {
        return Err(Hitch::NoLabel);
    };
    let number = reference.number();
    let rec = reference.record(words);
    fill(place, reference);
    Ok(Reading {
        number,
        value: rec.value,
    })
}

/// The CPU releases the local reference in the place, which is free then; the number that it was to.
pub fn uncount_one<D: Domain, R: Wait>(
    rt: &R,
    registry: &Registry<D>,
    cpu: &mut Cpu<D>,
    place: &mut Option<LocalRef<D>>,
) -> Result<u64, Hitch>
    ensures answer { Decides (unless_free place.old (λ _. None)) (λ n. Has place.old (λ v. (v.entry.number ≡ n) × IsLetGo cpu.old v cpu.new)) result }
    ensures free { place.new ≡ None }
    ensures refused { IfErr result (λ _. cpu.new ≡ cpu.old) }
    ensures id { cpu.new.view.id ≡ cpu.old.view.id }
    ensures references { cpu.new.view.references ≡ cpu.old.view.references }
{
    let Some(reference) = place.take() else {
        return Err(Hitch::NoLabel);
    };
    let number = reference.number();
    registry.release_local(rt, cpu, reference);
    Ok(number)
}

/// The CPU attaches the interface on the driver that the local reference in the place is to, and the place is free
/// then. Where the call is refused the reference stays in its place.
pub fn plug_in<D: Domain, R: Wait>(
    rt: &R,
    registry: &Registry<D>,
    cpu: &mut Cpu<D>,
    rec: Record,
    place: &mut Option<LocalRef<D>>,
) -> Result<Entry, Hitch>
    requires key { IsTrue (is_key rec.name) }
    requires iface { is_iface rec.kind ≡ true }
    ensures ok { IfOk result (λ e. Has place.old (λ v. is_iface v.entry.rec.kind ≡ false) × (e.rec ≡ rec) × HasLearned cpu.old cpu.new × HasSeenAttach cpu.old cpu.new e) }
    ensures free { IfOk result (λ _. place.new ≡ None) }
    ensures refused { IfErr result (λ _. (place.new ≡ place.old) × (cpu.new ≡ cpu.old)) }
    ensures why { IfErr result (IsPlugHitch cpu.old place.old) }
    ensures id { cpu.new.view.id ≡ cpu.old.view.id }
    ensures references { cpu.new.view.references ≡ cpu.old.view.references }
{
    let Some(reference) = place.take() else {
        return Err(Hitch::NoLabel);
    };
    match registry.attach_iface(rt, cpu, rec, reference) {
        Ok(entry) => Ok(entry),
        Err((refusal, unspent)) => {
            fill(place, unspent);
            Err(Hitch::Refused(refusal))
        }
    }
}
