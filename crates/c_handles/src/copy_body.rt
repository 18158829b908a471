//! The body of a local reference that was copied: a share of the block that has the reference.

ghost use Rattle.std.specs.Prelude.{◌≡◌};

use crate::handle::LocalBlock;
use std::alloc::Global;
use std::marker::Model;
use std::mem::ManuallyDrop;
use std::sync::Arc;

/// A share of a local reference. The last one that is released has the reference. To a contract it is what the block has. It can't be dropped:
/// it is spent by a release, or forgotten.
pub struct CopyBody {
    pub block: Arc<LocalBlock, Global>,
}

impl Model for CopyBody {
    ghost use Rattle.std.specs.Prelude.{Option};
    ghost use Rattle.c_handles.specs.Bodies.{IsShared, OnLocalBody};

    ghost Value = { Option OnLocalBody };

    ghost view = { λ b. b.block.value.body };

    ghost invariant = { λ b. IsShared b.block.value.body };
}

impl CopyBody {
    /// Spends the value and leaves the reference held, for good: nobody has this share then, so the last one isn't released any more.
    pub fn forget(self) {
        // What isn't dropped frees nothing and makes no step. That is sound: the share that nobody has keeps the count above 0.
        let _held = unsafe { ManuallyDrop::new_unchecked(self) };
    }
}
