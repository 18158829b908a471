//! A seat that has ended: another takes it over, and nobody steps with it any more.

ghost use Rattle.std.specs.Prelude.{◌≡◌, ◌∷◌};
ghost use Rattle.cpu_words.specs.Freed.{cpu_end};
ghost use Rattle.cpu_words.specs.Logs.{logged_cpu};

use crate::law::Words;
use crate::seat::{CpuSeat, KeeperSeat};
use crate::view::Logged;
use atomic_table::Join;
use std::marker::{Brand, PhantomData};

/// The seat that ends. Each call picks its own.
pub(crate) trait EndingSeat {
    ghost use Rattle.cpu_words.specs.declared.view.Logged.{Logged};

    ghost seat: { Logged };
}

impl EndingSeat for Brand {
    ghost use Rattle.cpu_words.specs.Logs.{spent_seat};

    ghost seat = { spent_seat };
}

/// The other seat has what this one was; this one stays as it is.
struct TakenOver<S: EndingSeat> {
    marker: PhantomData<S>,
}

impl<S: EndingSeat> Join<Logged> for TakenOver<S> {
    ghost use Rattle.cpu_words.specs.Logs.{ended_seat, with_end};

    ghost both = { with_end };

    ghost spent = { ended_seat S.seat };
}

/// The keeper's seat takes over a CPU's.
pub(crate) fn take_over<S: EndingSeat>(words: &Words, keeper: &mut KeeperSeat, cpu: CpuSeat)
    requires table { (keeper.old.table ≡ words.now.table) × (cpu.table ≡ words.now.table) }
    requires seat { S.seat ≡ logged_cpu cpu }
    ensures { keeper.new ≡ record keeper.old { ends = cpu_end cpu.view cpu.log cpu.known_log ∷ keeper.old.ends } }
{
    let CpuSeat { token, end: _ } = cpu;
    words
        .table
        .shared
        .join_seat::<TakenOver<S>>(&mut keeper.token, token);
}
