//! A virtual CPU of a table that a type names.

ghost use Rattle.std.specs.Prelude.{◌≡◌, ◌≢◌, ◌↔◌, ◌<◌, IfOk, IsTrue, None};
ghost use Rattle.cpu_words.specs.Common.{AreWordsOf, new_cpu};
ghost use Rattle.passive_list.specs.Cpus.{HoldsFound};
ghost use Rattle.passive_list.specs.Memories.{no_memory};
ghost use Rattle.registry_values.specs.Common.{are_fit};

use crate::plain_cpu::{CpuRows, PlainCpu};
use cpu_words::{CpuSeat, Domain};
use std::alloc::{AllocError, Global};
use std::marker::Model;
use std::sync::ledger::Share;

/// A virtual CPU of the table that D names. Binding is ownership: the thread that owns the value runs on that CPU.
///
/// To a contract it is
///
/// - what its seat knows, and all that its seat did: each event with its reply, in order;
/// - the depth of its section;
/// - what its calls changed behind the interlock, as the ledger that D names counts it;
/// - what it has heard of the keeper's log.
#[derive(Drop)]
pub struct Cpu<D: Domain> {
    /// The CPU itself, in a block of its own: CPUs that lie in one list write no cache line together.
    pub plain: Box<PlainCpu>,
    /// One part of the ledger. It takes no bytes.
    pub share: Share<D>,
}

impl<D: Domain> Model for Cpu<D> {
    ghost use Rattle.std.specs.Prelude.{◌≡◌};
    ghost use Rattle.cpu_words.specs.Common.{AreWordsOf};
    ghost use Rattle.passive_list.specs.Cpus.{OnCpu};

    ghost Value = { OnCpu };

    ghost view = { λ c. record c.plain.value.cpu { made = c.share.amount } };

    ghost invariant = { λ c. AreWordsOf c.plain.value.words D.table D.settings × (c.share.parts ≡ 1) };
}

impl<D: Domain> Cpu<D> {
    /// The CPU of a new seat: outside, with nothing found and nothing held. What its share has is what its calls have made.
    /// Conditions:
    ///
    /// - the seat is of D's table, as `Words::new` gave it;
    /// - `id` is its number, below how many CPUs the table has;
    /// - the rows are for the table's slots;
    /// - the share is one part of D's ledger.
    ///
    /// Refused: there is no memory. The seat is lost then.
    pub fn of_seat(
        alloc: Global,
        seat: CpuSeat,
        id: u8,
        rows: CpuRows,
        share: Share<D>,
    ) -> Result<Cpu<D>, AllocError>
        requires table { (seat.table ≡ D.table) × IsTrue (are_fit D.settings) × (id < D.settings.cpus) }
        requires new { seat.view ≡ new_cpu D.settings id }
        requires rows { rows ≡ D.settings.slots }
        requires part { share.parts ≡ 1 }
        ensures { IfOk result (λ cpu. cpu ≡ record { view = new_cpu D.settings id; depth = 0; made = share.amount; memory = no_memory D.settings.slots; known_log = seat.known_log; log = seat.log }) }
    {
        let plain = Box::new(alloc, PlainCpu::of_seat(seat, id, rows))?;
        Ok(Cpu::of(plain, share))
    }

    /// This CPU, as one of the table that D names. What its share has is what its calls have made.
    /// Condition: it is of D's table, and the share is one part of D's ledger.
    pub fn of(plain: Box<PlainCpu>, share: Share<D>) -> Cpu<D>
        requires words { AreWordsOf plain.value.words D.table D.settings }
        requires part { share.parts ≡ 1 }
        ensures { result ≡ record plain.value.cpu { made = share.amount } }
    {
        Cpu { plain, share }
    }

    /// The CPU's number, from 0.
    pub fn id(&self) -> u8
        ensures { result ≡ self.now.view.id }
    {
        self.plain.id()
    }

    /// How many enters are open: 0 outside, at most `MOST_DEPTH`. `own` is what every CPU keeps of itself: some state shows its view, and there its open
    /// section may hold the entry that it found last, which has its slot.
    pub fn depth(&self) -> u8
        ensures value { result ≡ self.now.depth }
        ensures own { HoldsFound self.now.view }
    {
        self.plain.depth()
    }

    /// Whether the CPU is inside a section.
    pub fn inside(&self) -> bool
        ensures { IsTrue result ↔ self.now.view.begin ≢ None }
    {
        self.plain.inside()
    }
}
