//! The body of a CPU's handle.

ghost use Rattle.std.specs.Prelude.{◌≡◌, is_some};
ghost use Rattle.cpu_words.specs.Common.{AreWordsOf};

use crate::heap::Spare;
use crate::local_body::LocalBody;
use cpu_words::Words;
use passive_list::PlainCpu;
use std::alloc::{AllocError, Global};
use std::marker::Model;
use std::sync::Arc;
use std_alloc::room::Vacant;

/// A CPU, its share of its table's words, and a block that it keeps for its next local reference. To a contract it is what the CPU is.
#[derive(Drop)]
pub struct CpuBody {
    pub words: Arc<Words, Global>,
    /// The block of a local reference that was released here, for the next one that is acquired here. It is freed as the CPU is.
    spare: Spare<LocalBody>,
    /// It comes last, for the room at its end.
    pub cpu: PlainCpu,
}

impl Model for CpuBody {
    ghost use Rattle.std.specs.Prelude.{◌≡◌};
    ghost use Rattle.cpu_words.specs.Common.{AreWordsOf};
    ghost use Rattle.passive_list.specs.Common.{OnPlainCpu};

    ghost Value = { OnPlainCpu };

    ghost view = { λ b. b.cpu };

    ghost invariant = { λ b. AreWordsOf b.words.value b.cpu.words.table b.cpu.words.settings };
}

impl CpuBody {
    /// The CPU with a share of its own of the words. Condition: the words are its table's.
    pub fn of(words: Arc<Words, Global>, cpu: PlainCpu) -> CpuBody
        requires words { AreWordsOf words.value cpu.words.table cpu.words.settings }
        ensures { result ≡ cpu }
    {
        CpuBody {
            words,
            spare: Spare::empty(),
            cpu,
        }
    }

    /// A block for a local reference: the one that the CPU keeps, or a new one where it keeps none.
    pub fn take_room(&mut self, alloc: Global) -> Result<Vacant<LocalBody, Global>, AllocError>
        ensures { self.new ≡ self.old }
    {
        self.spare.take(alloc)
    }

    /// The block that the CPU keeps, if it keeps one.
    pub fn take_kept(&mut self) -> Option<Vacant<LocalBody, Global>>
        ensures { self.new ≡ self.old }
    {
        self.spare.take_kept()
    }

    /// Keeps a block for the next local reference. One that the CPU kept already is freed.
    pub fn keep_room(&mut self, room: Vacant<LocalBody, Global>)
        ensures { self.new ≡ self.old }
    {
        self.spare.keep(room);
    }

    /// Whether the CPU is inside a section, as an exact answer.
    #[tactic(auto, using(crate::proofs::Inside::inside_is))]
    pub fn is_inside(&self) -> bool
        ensures { result ≡ is_some self.now.cpu.view.begin }
    {
        self.cpu.inside()
    }
}
