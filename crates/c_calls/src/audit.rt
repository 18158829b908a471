//! The audit of local references, through the handles: it is lent one CPU at a time, and takes no memory.

ghost use Rattle.std.specs.Prelude.{◌≡◌, ◌≢◌, ℕ, ⊤, Some};
ghost use Rattle.passive_list.specs.Common.{OnPlainCpu};
ghost use Rattle.cpu_words.specs.Common.{AreWordsOf};
ghost use Rattle.name_registry.specs.Common.{HasListened, HasToldAll, HaveHeardAndTold};
ghost use Rattle.c_handles.specs.Heap.{IsLong};
ghost use Rattle.c_handles.specs.declared.values.plain.TheConstants.{DONE};
ghost use Rattle.c_calls.specs.Calls.{Through};
ghost use Rattle.c_calls.specs.Audits.{AreAllOf, Audits, AuditsList, AuditsRows, HaveHeard, balance_in, cpu_in, cpus_in, filled_up, table_in};
ghost use Rattle.c_calls.specs.Opening.{bodies_of, body_at};
ghost use Rattle.c_handles.specs.values.Places.{row_in};

use c_handles::KeeperBody;
use c_handles::answer::AuditAnswer;
use c_handles::handle::{CpuHandle, KeeperHandle};
use c_handles::heap::CHandle;
use c_handles::rows::CpusPlace;
use c_handles::values::place::NumberPlace;
use c_handles::values::plain::{CBalance, DONE, EMPTY_HANDLE, NO_ROOM, NULL, refused};
use c_handles::values::rows::BalancesPlace;
use cpu_words::{NoteSeat, Words};
use name_registry::{
    ReachesCpu, WritesBalance, are_all, count_entries, gather, local_on, write_balances,
};
use passive_list::{Keeper, hear_on, tell_on};
use registry_values::{MOST_CPUS, Refusal};

/// `kupaldiz_audit` of the header.
pub fn audit_registry(
    keeper: &mut KeeperHandle,
    mut cpus: CpusPlace,
    count: usize,
    mut list: BalancesPlace,
    room: usize,
    mut length: NumberPlace,
) -> AuditAnswer
    requires count { IsLong cpus.value count }
    requires room { IsLong list.value room }
    requires words { AreAllOf keeper.old.body (bodies_of (row_in cpus.value)) }
    ensures places { (result.cpus.at ≡ cpus.at) × (result.list.at ≡ list.at) × (result.place.at ≡ length.at) }
    ensures call { Through keeper.old.body keeper.new.body result.number ((result.cpus.value ≡ cpus.value) × (result.list.value ≡ list.value) × (result.place.value ≡ length.value))
        (λ a b. AuditsRows a b result.number count cpus.value result.cpus.value room list.value result.list.value length.value result.place.value) }
{
    let answer = match keeper.body_mut() {
        None => EMPTY_HANDLE,
        Some(body) => audit_into(body, &mut cpus, count, &mut list, room, &mut length),
    };
    AuditAnswer::of(length.answer(answer).with_list(list), cpus)
}

/// Audits with the CPUs, if there are any or needn't be.
fn audit_into(
    keeper: &mut KeeperBody,
    cpus: &mut CpusPlace,
    count: usize,
    list: &mut BalancesPlace,
    room: usize,
    length: &mut NumberPlace,
) -> u32
    requires count { IsLong cpus.old.value count }
    requires room { IsLong list.old.value room }
    requires same { (c : ℕ) (b : OnPlainCpu) → body_at (bodies_of (row_in cpus.old.value)) c ≡ Some b → b.words ≡ keeper.old.words }
    ensures places { (cpus.new.at ≡ cpus.old.at) × (list.new.at ≡ list.old.at) × (length.new.at ≡ length.old.at) }
    ensures call { AuditsRows keeper.old keeper.new result count cpus.old.value cpus.new.value room list.old.value list.new.value length.old.value length.new.value }
{
    if !cpus.is_null() {
        return audit_list(keeper, cpus.row_mut(count), list, room, length);
    }
    if count != 0 {
        return NULL;
    }
    audit_list(keeper, &mut [], list, room, length)
}

/// Audits into the list, if there is one or needn't be.
fn audit_list(
    keeper: &mut KeeperBody,
    cpus: &mut [CpuHandle],
    list: &mut BalancesPlace,
    room: usize,
    length: &mut NumberPlace,
) -> u32
    requires room { IsLong list.old.value room }
    requires same { (c : ℕ) (b : OnPlainCpu) → body_at (bodies_of cpus.old) c ≡ Some b → b.words ≡ keeper.old.words }
    ensures places { (list.new.at ≡ list.old.at) × (length.new.at ≡ length.old.at) }
    ensures call { AuditsList keeper.old keeper.new result (bodies_of cpus.old) (bodies_of cpus.new) room list.old.value list.new.value length.old.value length.new.value }
{
    if !list.is_null() {
        return audit_body(keeper, cpus, list.row_mut(room), length);
    }
    if room != 0 {
        return NULL;
    }
    audit_body(keeper, cpus, &mut [], length)
}

fn audit_body(
    keeper: &mut KeeperBody,
    cpus: &mut [CpuHandle],
    list: &mut [CBalance],
    length: &mut NumberPlace,
) -> u32
    requires { (c : ℕ) (b : OnPlainCpu) → body_at (bodies_of cpus.old) c ≡ Some b → b.words ≡ keeper.old.words }
    ensures keeper { (keeper.new.words ≡ keeper.old.words) × HasListened keeper.old.keeper keeper.new.keeper }
    ensures cpus { HaveHeard (bodies_of cpus.old) (bodies_of cpus.new) }
    ensures notes { result ≡ DONE → HaveHeardAndTold (cpus_in (bodies_of cpus.old)) (cpus_in (bodies_of cpus.new)) }
    ensures told { result ≡ DONE → HasToldAll keeper.old.keeper (cpus_in (bodies_of cpus.new)) keeper.new.keeper }
    ensures unchanged { result ≢ DONE → (keeper.new ≡ keeper.old) × (bodies_of cpus.new ≡ bodies_of cpus.old) }
    ensures place { length.new.at ≡ length.old.at }
    ensures answer { Audits keeper.old.words.settings keeper.old.keeper (bodies_of cpus.old) result list.old list.new length.old.value length.new.value }
{
    audit_all(&keeper.words, &mut keeper.keeper, cpus, list, length)
}

fn audit_all(
    words: &Words,
    keeper: &mut Keeper,
    cpus: &mut [CpuHandle],
    list: &mut [CBalance],
    length: &mut NumberPlace,
) -> u32
    requires words { AreWordsOf words.now keeper.old.words.table keeper.old.words.settings }
    requires same { (c : ℕ) (b : OnPlainCpu) → body_at (bodies_of cpus.old) c ≡ Some b → b.words ≡ keeper.old.words }
    ensures keeper { (keeper.new.words ≡ keeper.old.words) × HasListened keeper.old.keeper keeper.new.keeper }
    ensures cpus { HaveHeard (bodies_of cpus.old) (bodies_of cpus.new) }
    ensures notes { result ≡ DONE → HaveHeardAndTold (cpus_in (bodies_of cpus.old)) (cpus_in (bodies_of cpus.new)) }
    ensures told { result ≡ DONE → HasToldAll keeper.old.keeper (cpus_in (bodies_of cpus.new)) keeper.new.keeper }
    ensures unchanged { result ≢ DONE → (keeper.new ≡ keeper.old) × (bodies_of cpus.new ≡ bodies_of cpus.old) }
    ensures place { length.new.at ≡ length.old.at }
    ensures answer { Audits keeper.old.words.settings keeper.old.keeper (bodies_of cpus.old) result list.old list.new length.old.value length.new.value }
{
    if !are_all::<ByHandle>(keeper.settings().cpus, cpus) {
        return refused(Refusal::MissingCpu);
    }
    let count = count_entries(keeper);
    length.put(count as u64);
    if list.len() < count {
        return NO_ROOM;
    }
    gather::<ByHandle>(words, keeper, cpus);
    write_balances::<ByHandle, ToC>(keeper, cpus, list);
    DONE
}

/// The CPU behind C's handle, if the handle isn't empty.
struct ByHandle;

impl ReachesCpu for ByHandle {
    type Lent = CpuHandle;

    ghost cpu = { λ h. cpu_in h.body };

    ghost table = { λ h. table_in h.body };

    fn is_cpu(lent: &mut CpuHandle, id: u8) -> bool {
        match lent.body_mut() {
            None => false,
            Some(body) => body.cpu.id() == id,
        }
    }

    fn pass_on(lent: &mut CpuHandle, words: &Words, note: NoteSeat) -> NoteSeat {
        match lent.body_mut() {
            None => unreachable!(),
            Some(body) => {
                hear_on(words, &mut body.cpu, note);
                tell_on(words, &mut body.cpu)
            }
        }
    }

    fn local(lent: &mut CpuHandle, keeper: &Keeper, t: u8, number: u64) -> i64 {
        match lent.body_mut() {
            None => unreachable!(),
            Some(body) => local_on(keeper, &body.cpu, t, number),
        }
    }
}

/// Writes each balance as C has it, with zeros past the last CPU.
struct ToC;

impl WritesBalance for ToC {
    type Place = CBalance;

    ghost fits = { λ n b. ⊤ };

    ghost shown = { balance_in };

    ghost kept = { filled_up };

    fn write(place: &mut CBalance, number: u64, slot: u8, held: i64, locals: &[i64], total: i64) {
        place.number = number;
        place.slot = u64::from(slot);
        place.held = held;
        place.locals = [0; MOST_CPUS];
        place.locals[..locals.len()].copy_from_slice(locals);
        place.total = total;
    }
}
