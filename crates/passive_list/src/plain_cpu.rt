//! A virtual CPU that names its table by its own seat: what a call on a CPU does is done with one, whoever makes it.

ghost use Rattle.std.specs.Prelude.{◌≡◌, ◌≢◌, ◌↔◌, ◌<◌, IfOk, IsTrue, None};
ghost use Rattle.registry_values.specs.Common.{are_fit};
ghost use Rattle.cpu_words.specs.Common.{new_cpu};
ghost use Rattle.passive_list.specs.Cpus.{HoldsFound};
ghost use Rattle.passive_list.specs.Memories.{no_memory};

use crate::memory::Memory;
use crate::place::{Found, NumberedCount};
use cpu_words::{CpuSeat, Row};
use std::alloc::{AllocError, Global};
use std::marker::Model;

/// What a new CPU has on the heap: nothing is held or remembered. It is made before the CPU's seat is taken, since it takes memory. To a contract it
/// is the number of the slots that it is for.
#[derive(Drop)]
pub struct CpuRows {
    slots: u8,
    passive: Vec<NumberedCount>,
    net: Vec<NumberedCount>,
    memory: Memory,
}

impl Model for CpuRows {
    ghost use Rattle.std.specs.Prelude.{ℕ};
    ghost use Rattle.passive_list.specs.Cpus.{AreNewRows};

    ghost Value = { ℕ };

    ghost view = { λ r. r.slots };

    ghost invariant = { λ r. AreNewRows r.slots r.passive.items r.net.items r.memory };
}

impl CpuRows {
    /// The rows of one CPU of a table with so many slots.
    pub fn new(alloc: Global, slots: u8) -> Result<CpuRows, AllocError>
        requires { 0 < slots }
        ensures { IfOk result (λ rows. rows ≡ slots) }
    {
        Ok(CpuRows {
            slots,
            passive: vec![in alloc; NumberedCount::NONE; slots as usize]?,
            net: vec![in alloc; NumberedCount::NONE; slots as usize]?,
            memory: Memory::new(alloc, slots)?,
        })
    }
}

/// A virtual CPU of the table that its seat is of: the seat, and plain data that agree with what the seat knows. To a contract it is that
/// table with its settings, and what `Cpu` is to one. Binding is ownership: the thread that owns the value runs on that CPU.
#[derive(Drop)]
pub struct PlainCpu {
    pub seat: CpuSeat,
    /// The CPU's number, and where its words are.
    pub row: Row,
    /// 0 outside, else how many enters are open.
    pub depth: u8,
    /// The sections that it has ended: its section word is twice that, and one more inside.
    pub ended: u64,
    /// The entry that its last lookup in the open section found.
    pub found: Found,
    /// By slot: its passive references.
    pub passive: Vec<NumberedCount>,
    /// By slot: its net count of local references, over the bias.
    pub net: Vec<NumberedCount>,
    /// The entries that it has found.
    pub memory: Memory,
    /// Never written. It comes last: what the CPU writes stays off the cache lines of the next block.
    apart: [u64; 16],
}

impl Model for PlainCpu {
    ghost use Rattle.passive_list.specs.Cpus.{OnPlainCpu, IsOurCpu};

    ghost Value = { OnPlainCpu };

    ghost view = { λ c. record { words = record { table = c.seat.table; settings = c.seat.view.settings }; cpu = record { view = c.seat.view; depth = c.depth; made = 0; memory = c.memory; known_log = c.seat.known_log; log = c.seat.log } } };

    ghost invariant = { λ c. IsOurCpu c.seat.table c.seat.view.settings c.seat.table c.seat.view c.row c.ended c.depth c.found c.passive.items c.net.items c.memory };
}

impl PlainCpu {
    /// The CPU of a new seat: outside, with nothing found and nothing held.
    /// Condition: the seat is as `Words::new` gave it, `id` is its number, below how many CPUs the table has, and the rows are for its slots.
    pub fn of_seat(seat: CpuSeat, id: u8, rows: CpuRows) -> PlainCpu
        requires fit { IsTrue (are_fit seat.view.settings) × (id < seat.view.settings.cpus) }
        requires new { seat.view ≡ new_cpu seat.view.settings id }
        requires rows { rows ≡ seat.view.settings.slots }
        ensures words { result.words ≡ record { table = seat.table; settings = seat.view.settings } }
        ensures cpu { result.cpu ≡ record { view = seat.view; depth = 0; made = 0; memory = no_memory seat.view.settings.slots; known_log = seat.known_log; log = seat.log } }
    {
        let CpuRows {
            slots,
            passive,
            net,
            memory,
        } = rows;
        PlainCpu {
            seat,
            row: Row::of(slots, id),
            ended: 0,
            depth: 0,
            found: Found::NONE,
            passive,
            net,
            memory,
            apart: [0; 16],
        }
    }

    /// The seat alone, for whoever ends the table (`Words::close`, `Words::take_over`).
    pub fn into_seat(self) -> CpuSeat
        ensures table { result.table ≡ self.words.table }
        ensures seat { (result.view ≡ self.cpu.view) × (result.log ≡ self.cpu.log) × (result.known_log ≡ self.cpu.known_log) }
    {
        let PlainCpu {
            seat,
            row: _,
            ended: _,
            depth: _,
            found: _,
            passive: _,
            net: _,
            memory: _,
            apart: _,
        } = self;
        seat
    }

    /// The CPU's number, from 0.
    pub fn id(&self) -> u8
        ensures { result ≡ self.now.cpu.view.id }
    {
        self.row.cpu
    }

    /// How many enters are open: 0 outside, at most `MOST_DEPTH`. `own` is what every CPU keeps of itself: some state shows its view, and there its open
    /// section may hold the entry that it found last, which has its slot.
    #[tactic(auto, using(crate::proofs::Agreeing::holds_found))]
    pub fn depth(&self) -> u8
        ensures value { result ≡ self.now.cpu.depth }
        ensures own { HoldsFound self.now.cpu.view }
    {
        self.depth
    }

    /// Whether the CPU is inside a section.
    pub fn inside(&self) -> bool
        ensures { IsTrue result ↔ self.now.cpu.view.begin ≢ None }
    {
        self.depth > 0
    }
}
