//! A registry is opened: the keeper, and its CPUs. And they are closed.

ghost use Rattle.std.specs.Prelude.{◌≡◌, length, true, false, IfOk, IfErr, IsTrue, Some, None};
ghost use Rattle.registry_values.specs.Common.{are_fit};
ghost use Rattle.cpu_words.specs.Common.{AreSeats, keeper_with};
ghost use Rattle.passive_list.specs.Common.{OnPlainCpu, OnPlainKeeper};
ghost use Rattle.c_handles.specs.Heap.{IsLong};
ghost use Rattle.c_calls.specs.Opening.{AreEmpty, AreGiven, AreOutside, Closes, ClosesRow, HasOpened, IsFull, IsSomeFull, IsSomeInside, Opens, OpensBy, OpensFree, OpensInto, OpensNowhere, StaysClosed, bodies_of, boxed, is_inside_of, keeper_of, opened_down, opened_keeper};
ghost use Rattle.c_handles.specs.values.Texts.{settings_in};

use c_handles::answer::{ClosedAnswer, OpenedAnswer};
use c_handles::handle::{CpuHandle, KeeperHandle};
use c_handles::heap::CHandle;
use c_handles::keeper_place::KeeperPlace;
use c_handles::rows::CpusPlace;
use c_handles::values::given::GivenSettings;
use c_handles::values::plain::{CSettings, DONE, FULL_HANDLE, NULL, refused, settings_in};
use c_handles::{CpuBody, KeeperBody};
use cpu_words::{CpuSeat, KeeperSeat, Words};
use passive_list::{CpuRows, Keeper, KeeperRows, PlainCpu};
use registry_values::{Refusal, Settings};
use std::alloc::{AllocError, Global};
use std::sync::Arc;

/// `kupaldiz_open` of the header.
pub fn open_registry(
    alloc: Global,
    mut settings: GivenSettings,
    keeper: &mut KeeperHandle,
    mut cpus: CpusPlace,
    count: usize,
) -> OpenedAnswer
    requires count { IsLong cpus.value count }
    ensures given { result.settings ≡ settings }
    ensures place { result.cpus.at ≡ cpus.at }
    ensures call { OpensInto settings.settings keeper.old.body keeper.new.body count cpus.value result.cpus.value result.number }
{
    let answer = open_at(alloc, &mut settings, keeper, &mut cpus, count);
    OpenedAnswer::of(settings.answer(answer), cpus)
}

/// Opens a registry into the handles, if there are any or needn't be.
fn open_at(
    alloc: Global,
    settings: &mut GivenSettings,
    keeper: &mut KeeperHandle,
    cpus: &mut CpusPlace,
    count: usize,
) -> u32
    requires count { IsLong cpus.old.value count }
    ensures given { settings.new ≡ settings.old }
    ensures place { cpus.new.at ≡ cpus.old.at }
    ensures call { OpensInto settings.old.settings keeper.old.body keeper.new.body count cpus.old.value cpus.new.value result }
{
    if !cpus.is_null() {
        return open_given(alloc, settings, keeper, cpus.row_mut(count));
    }
    if count != 0 {
        return open_nowhere(keeper);
    }
    open_given(alloc, settings, keeper, &mut [])
}

/// The answer where there are no handles of CPUs, though there should be.
#[tactic(auto, using(crate::proofs::Opened::nowhere_full, crate::proofs::Opened::nowhere_null))]
fn open_nowhere(keeper: &mut KeeperHandle) -> u32
    ensures { OpensNowhere keeper.old.body keeper.new.body result }
{
    if !keeper.is_empty() {
        return FULL_HANDLE;
    }
    NULL
}

/// Opens a registry with the settings, if there are any, into the handles, if all are empty.
#[tactic(auto, using(crate::proofs::Opened::came_to_open, crate::proofs::Opened::full_handle))]
fn open_given(
    alloc: Global,
    settings: &mut GivenSettings,
    keeper: &mut KeeperHandle,
    cpus: &mut [CpuHandle],
) -> u32
    ensures given { settings.new ≡ settings.old }
    ensures call { Opens settings.old.settings keeper.old.body keeper.new.body (bodies_of cpus.old) (bodies_of cpus.new) result }
{
    if !are_all_empty(keeper, cpus) {
        return FULL_HANDLE;
    }
    open_free(alloc, settings.settings(), keeper, cpus)
}

/// Opens a registry with the settings, if there are any. Condition: all handles are empty.
fn open_free(
    alloc: Global,
    settings: Option<CSettings>,
    keeper: &mut KeeperHandle,
    cpus: &mut [CpuHandle],
) -> u32
    requires empty { (keeper.old.body ≡ None) × AreEmpty (bodies_of cpus.old) }
    ensures { OpensBy settings keeper.old.body keeper.new.body (bodies_of cpus.old) (bodies_of cpus.new) result }
{
    match settings {
        None => NULL,
        Some(given) => open_by(alloc, &given, keeper, cpus),
    }
}

/// Opens a registry with these settings. Condition: all handles are empty.
#[tactic(auto, using(crate::proofs::Handles::count_bodies, crate::proofs::Opened::bad_settings, crate::proofs::Opened::fit_opened, crate::proofs::Opened::missing_cpu))]
fn open_by(
    alloc: Global,
    settings: &CSettings,
    keeper: &mut KeeperHandle,
    cpus: &mut [CpuHandle],
) -> u32
    requires empty { (keeper.old.body ≡ None) × AreEmpty (bodies_of cpus.old) }
    ensures { OpensFree settings.now keeper.old.body keeper.new.body (bodies_of cpus.old) (bodies_of cpus.new) result }
{
    let settings = match fit_settings(settings) {
        Ok(settings) => settings,
        Err(refusal) => return refused(refusal),
    };
    let count = settings.cpus as usize;
    if cpus.len() != count {
        return refused(Refusal::MissingCpu);
    }
    open_into(alloc, settings, keeper, cpus)
}

/// Opens a registry into the handles, which are empty. The answer is that it is done, or that there was no memory.
fn open_into(
    alloc: Global,
    settings: Settings,
    keeper: &mut KeeperHandle,
    cpus: &mut [CpuHandle],
) -> u32
    requires fit { IsTrue (are_fit settings) }
    requires count { length cpus.old ≡ settings.cpus }
    requires empty { (keeper.old.body ≡ None) × AreEmpty (bodies_of cpus.old) }
    ensures { HasOpened settings keeper.old.body keeper.new.body (bodies_of cpus.old) (bodies_of cpus.new) result }
{
    match open(alloc, settings) {
        Ok((made, bodies)) => {
            give_cpus(cpus, bodies);
            keeper.give_box(made);
            DONE
        }
        Err(refusal) => refused(refusal),
    }
}

/// The settings, where they fit a registry. Refused: `BadSettings`.
fn fit_settings(given: &CSettings) -> Result<Settings, Refusal>
    ensures ok { IfOk result (λ settings. (settings ≡ settings_in given.now) × (are_fit (settings_in given.now) ≡ true)) }
    ensures err { IfErr result (λ refusal. (refusal ≡ Refusal.BadSettings) × (are_fit (settings_in given.now) ≡ false)) }
{
    let settings = settings_in(given)?;
    settings.check_fit()?;
    Ok(settings)
}

/// Whether all the handles are empty.
fn are_all_empty(keeper: &mut KeeperHandle, cpus: &mut [CpuHandle]) -> bool
    ensures same { StaysClosed keeper.old.body keeper.new.body (bodies_of cpus.old) (bodies_of cpus.new) }
    ensures empty { result ≡ true → (keeper.old.body ≡ None) × AreEmpty (bodies_of cpus.old) }
    ensures full { result ≡ false → IsFull keeper.old.body (bodies_of cpus.old) }
{
    keeper.is_empty() && are_empty(cpus)
}

/// Whether all of them are empty.
fn are_empty(cpus: &mut [CpuHandle]) -> bool
    ensures same { bodies_of cpus.new ≡ bodies_of cpus.old }
    ensures empty { result ≡ true → AreEmpty (bodies_of cpus.old) }
    ensures full { result ≡ false → IsSomeFull (bodies_of cpus.old) }
{
    for c in 0..cpus.len() {
        if !cpus[c].is_empty() {
            return false;
        }
    }
    true
}

/// Puts each box behind its handle, which is empty. The boxes come with the last handle's first.
fn give_cpus(cpus: &mut [CpuHandle], mut bodies: Vec<Box<CpuBody, Global>>)
    requires count { length bodies.items ≡ length cpus.old }
    requires empty { AreEmpty (bodies_of cpus.old) }
    ensures { AreGiven (boxed bodies.items) (length cpus.old) (bodies_of cpus.new) (length cpus.old) }
{
    for c in 0..cpus.len() {
        let Some(body) = bodies.pop() else {
            unreachable!()
        };
        cpus[c].give_box(body);
    }
}

/// The keeper, and its CPUs, the last one first, each in a box of its own. Refused: `NoMemory`.
pub fn open(
    alloc: Global,
    settings: Settings,
) -> Result<(Box<KeeperBody, Global>, Vec<Box<CpuBody, Global>>), Refusal>
    requires { IsTrue (are_fit settings) }
    ensures settings { IfOk result (λ made. made.0.value.words.settings ≡ settings) }
    ensures keeper { IfOk result (λ made. made.0.value ≡ opened_keeper made.0.value.words made.0.value.keeper.log) }
    ensures cpus { IfOk result (λ made. boxed made.1.items ≡ opened_down made.0.value.words settings.cpus settings.cpus) }
    ensures err { IfErr result (λ refusal. refusal ≡ Refusal.NoMemory) }
{
    let Ok((words, keeper, seats)) = Words::opening(alloc, settings) else {
        return Err(Refusal::NoMemory);
    };
    let Ok(words) = Arc::new(alloc, words) else {
        return Err(Refusal::NoMemory);
    };
    match open_on(alloc, words, keeper, seats) {
        Ok(made) => Ok(made),
        Err(_) => Err(Refusal::NoMemory),
    }
}

/// The same over these words.
fn open_on(
    alloc: Global,
    words: Arc<Words, Global>,
    keeper: KeeperSeat,
    seats: Vec<CpuSeat>,
) -> Result<(Box<KeeperBody, Global>, Vec<Box<CpuBody, Global>>), AllocError>
    requires fit { IsTrue (are_fit words.value.settings) }
    requires keeper { (keeper.table ≡ words.value.table) × (keeper.view ≡ keeper_with words.value.settings words.value.settings.cpus) }
    requires seats { AreSeats words.value.table words.value.settings words.value.settings.cpus seats.items }
    ensures words { IfOk result (λ made. made.0.value.words ≡ words.value) }
    ensures keeper { IfOk result (λ made. made.0.value ≡ opened_keeper words.value made.0.value.keeper.log) }
    ensures cpus { IfOk result (λ made. boxed made.1.items ≡ opened_down words.value words.value.settings.cpus words.value.settings.cpus) }
{
    let cpus = cpus_of(alloc, &words, seats)?;
    let rows = KeeperRows::new(alloc, words.settings())?;
    let keeper = Keeper::of_seat(keeper, words.settings(), rows);
    let keeper = Box::new(alloc, KeeperBody { words, keeper })?;
    Ok((keeper, cpus))
}

/// The CPUs, each in a box of its own, with rows of its own.
fn cpus_of(
    alloc: Global,
    words: &Arc<Words, Global>,
    mut seats: Vec<CpuSeat>,
) -> Result<Vec<Box<CpuBody, Global>>, AllocError>
    requires fit { IsTrue (are_fit words.now.value.settings) }
    requires seats { AreSeats words.now.value.table words.now.value.settings words.now.value.settings.cpus seats.items }
    ensures { IfOk result (λ cpus. boxed cpus.items ≡ opened_down words.now.value words.now.value.settings.cpus words.now.value.settings.cpus) }
{
    let mut cpus = Vec::new(alloc);
    while let Some(seat) = seats.pop() {
        let id = seats.len() as u8;
        let rows = CpuRows::new(alloc, words.settings().slots)?;
        let share = Arc::try_clone(words)?;
        let cpu = PlainCpu::of_seat(seat, id, rows);
        let body = CpuBody::of(share, cpu);
        cpus.push(Box::new(alloc, body)?)?;
    }
    Ok(cpus)
}

/// `kupaldiz_close` of the header.
pub fn close(
    alloc: Global,
    mut keeper: KeeperPlace,
    mut cpus: CpusPlace,
    count: usize,
) -> ClosedAnswer
    requires count { IsLong cpus.value count }
    ensures places { (result.keeper.at ≡ keeper.at) × (result.cpus.at ≡ cpus.at) }
    ensures call { ClosesRow keeper.value result.keeper.value count cpus.value result.cpus.value result.number }
{
    let answer = close_at(alloc, &mut keeper, &mut cpus, count);
    ClosedAnswer::of(keeper.answer(answer), cpus)
}

/// Closes the handles, if there are any or needn't be.
fn close_at(alloc: Global, keeper: &mut KeeperPlace, cpus: &mut CpusPlace, count: usize) -> u32
    requires count { IsLong cpus.old.value count }
    ensures places { (keeper.new.at ≡ keeper.old.at) × (cpus.new.at ≡ cpus.old.at) }
    ensures call { ClosesRow keeper.old.value keeper.new.value count cpus.old.value cpus.new.value result }
{
    if !cpus.is_null() {
        return close_row(alloc, keeper, cpus.row_mut(count));
    }
    if count != 0 {
        return NULL;
    }
    close_row(alloc, keeper, &mut [])
}

/// Closes the handles, if no CPU is inside.
#[tactic(auto, using(crate::proofs::Opened::closes_all, crate::proofs::Opened::closes_none))]
fn close_row(alloc: Global, keeper: &mut KeeperPlace, cpus: &mut [CpuHandle]) -> u32
    ensures place { keeper.new.at ≡ keeper.old.at }
    ensures call { Closes keeper.old.value keeper.new.value (bodies_of cpus.old) (bodies_of cpus.new) result }
{
    if !are_outside(cpus) {
        return refused(Refusal::Inside);
    }
    close_cpus(alloc, cpus);
    close_keeper(alloc, keeper);
    DONE
}

/// Whether no CPU of the row is inside a section.
fn are_outside(cpus: &mut [CpuHandle]) -> bool
    ensures same { bodies_of cpus.new ≡ bodies_of cpus.old }
    ensures outside { result ≡ true → AreOutside (bodies_of cpus.old) }
    ensures inside { result ≡ false → IsSomeInside (bodies_of cpus.old) }
{
    for c in 0..cpus.len() {
        if is_inside(&mut cpus[c]) {
            return false;
        }
    }
    true
}

/// Whether the CPU behind the handle, if there is one, is inside a section.
fn is_inside(cpu: &mut CpuHandle) -> bool
    ensures same { cpu.new.body ≡ cpu.old.body }
    ensures value { result ≡ is_inside_of cpu.old.body }
{
    match cpu.body_mut() {
        None => false,
        Some(body) => body.is_inside(),
    }
}

/// Closes all of them.
fn close_cpus(alloc: Global, cpus: &mut [CpuHandle])
    ensures { AreEmpty (bodies_of cpus.new) }
{
    for c in 0..cpus.len() {
        drop(cpus[c].take_box(alloc));
    }
}

/// Closes the keeper, if there is one.
fn close_keeper(alloc: Global, keeper: &mut KeeperPlace)
    ensures place { keeper.new.at ≡ keeper.old.at }
    ensures empty { keeper_of keeper.new.value ≡ None }
{
    if let Some(handle) = keeper.handle_mut() {
        drop(handle.take_box(alloc));
    }
}
