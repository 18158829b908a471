//! The body of the keeper's handle.

use cpu_words::Words;
use passive_list::Keeper;
use std::alloc::Global;
use std::marker::Model;
use std::sync::Arc;

/// The keeper, and its share of its table's words. To a contract it is what the keeper is. Its calls work on it where it lies.
#[derive(Drop)]
pub struct KeeperBody {
    pub words: Arc<Words, Global>,
    pub keeper: Keeper,
}

impl Model for KeeperBody {
    ghost use Rattle.std.specs.Prelude.{◌≡◌};
    ghost use Rattle.cpu_words.specs.Common.{AreWordsOf};
    ghost use Rattle.passive_list.specs.Common.{OnPlainKeeper};

    ghost Value = { OnPlainKeeper };

    ghost view = { λ b. b.keeper };

    ghost invariant = { λ b. AreWordsOf b.words.value b.keeper.words.table b.keeper.words.settings };
}
