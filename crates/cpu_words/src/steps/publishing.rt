//! The list of live entries, newest first: an entry is published by one store to the head, and unpublished by one store to the link
//! that leads to it. In between its slot's live word has its number: shown after the one, and hidden before the other.

ghost use Rattle.std.specs.Prelude.{◌≡◌, ℕ, ◌<◌, Some, None, suc, length};
ghost use Rattle.cpu_words.specs.Types.{Entry, Publish, Unpublish, Republish, Show, Hide, Done};
ghost use Rattle.cpu_words.specs.declared.view.View.TheVariants.{Keeper};
ghost use Rattle.protocol.specs.Common.{kept_at};
ghost use Rattle.cpu_words.specs.KeeperLog.{IsAttachedKeeping};
ghost use Rattle.cpu_words.specs.Steps.{SeatMakes};
ghost use Rattle.cpu_words.specs.Publishing.{MayHide, MayShow, keeper_after_live, MayPublish, HasPublished, MayUnpublish, HasUnpublished, MayRepublish, HasRepublished, IsLinkPlace, link_index};

use crate::law::Words;
use crate::layout::{HEAD, live_place, next_place};
use crate::operations::hearing;
use crate::seat::KeeperSeat;
use protocol::Event;
use std::marker::Brand;

/// Publishes the entry whose words the vacant slot `slot` has: the head is stored, from now on searches find the entry, and the history
/// ends with its attach.
///
/// Conditions:
///
/// - the keeper is at rest;
/// - the slot's record has the next number (from 1), and a kind and name that no live entry has;
/// - its link leads to the newest live entry, and its count words and its total count no reference;
/// - it keeps a driver exactly if the entry is an interface;
/// - the history has room for this change and for the detaches of all live entries, the new one too.
pub fn publish(words: &Words, keeper: &mut KeeperSeat, slot: u8)
    requires table { keeper.old.table ≡ words.now.table }
    requires may { (e : Entry) × MayPublish keeper.old.view slot e }
    ensures step { SeatMakes Keeper (Publish slot) Done keeper.old keeper.new }
    ensures change { (e : Entry) × MayPublish keeper.old.view slot e
        × HasPublished keeper.old.view slot e keeper.new.view }
    ensures attached { (d : ℕ) → kept_at keeper.old.view.keeps slot ≡ Some d → IsAttachedKeeping slot (suc (length keeper.old.view.history)) d keeper.new.log }
{
    hearing::store::<Brand>(words, keeper, HEAD, slot as u64 + 1, Event::Publish(slot));
}

/// Unpublishes the live entry in `slot`: the one link that leads to it is stored, and leads past it. The entry is retired, its own link
/// stays as it is, and the snapshots of all CPUs are due.
/// `before` is the slot of the live entry with the least greater number, or none where the entry is the newest; `link` is the slot (from
/// 0) plus 1 of the live entry with the greatest smaller number, or 0 where there is none.
/// Condition: the keeper is at rest, and the slot's entry is live and hidden.
pub fn unpublish(words: &Words, keeper: &mut KeeperSeat, slot: u8, before: Option<u8>, link: u64)
    requires table { keeper.old.table ≡ words.now.table }
    requires place { IsLinkPlace words.now.settings.slots before }
    requires may { MayUnpublish keeper.old.view slot before link }
    ensures step { SeatMakes Keeper (Unpublish slot) Done keeper.old keeper.new }
    ensures change { HasUnpublished keeper.old.view slot before link keeper.new.view }
{
    hearing::store::<Brand>(
        words,
        keeper,
        link_place(before),
        link,
        Event::Unpublish(slot),
    );
}

/// Links the entry whose words the vacant slot `slot` has instead of the live entry in `old`: the one
/// link that leads to `old` is stored, and leads to `slot`. The old entry is retired, its own link stays as it is, and the snapshots of all CPUs are due for it.
/// `before` is the slot of the live entry before it on the list, or none where it is the first.
///
/// Conditions:
///
/// - the keeper is at rest, and the old entry is hidden;
/// - the slot's record has the next number (from 1), and the old entry's kind and name;
/// - its link leads where the old entry's does, and its count words and its total count no reference;
/// - it keeps a driver exactly if the entry is an interface;
/// - the history has room for this change and for the detaches of all live entries, the new one too.
pub fn republish(words: &Words, keeper: &mut KeeperSeat, slot: u8, old: u8, before: Option<u8>)
    requires table { keeper.old.table ≡ words.now.table }
    requires place { IsLinkPlace words.now.settings.slots before }
    requires may { MayRepublish keeper.old.view slot old before }
    ensures step { SeatMakes Keeper (Republish slot old) Done keeper.old keeper.new }
    ensures change { HasRepublished keeper.old.view slot old before keeper.new.view }
    ensures attached { (d : ℕ) → kept_at keeper.old.view.keeps slot ≡ Some d → IsAttachedKeeping slot (suc (length keeper.old.view.history)) d keeper.new.log }
{
    let link = slot as u64 + 1;
    let event = Event::Republish(slot, old);
    hearing::store::<Brand>(words, keeper, link_place(before), link, event);
}

/// Shows the live entry in `slot`: stores its number in the slot's live word. From now on a CPU that remembers the entry finds it by one load.
/// Condition: the keeper is at rest, and that is the number of the slot's live entry.
pub fn show(words: &Words, keeper: &mut KeeperSeat, slot: u8, number: u64)
    requires table { keeper.old.table ≡ words.now.table }
    requires place { slot < words.now.settings.slots }
    requires may { MayShow keeper.old.view slot number }
    ensures step { SeatMakes Keeper (Show slot) Done keeper.old keeper.new }
    ensures change { keeper.new.view ≡ keeper_after_live keeper.old.view slot number }
{
    hearing::store::<Brand>(words, keeper, live_place(slot), number, Event::Show(slot));
}

/// Hides the entry in `slot`: stores 0 in the slot's live word.
/// Condition: the keeper is at rest, and the slot is one of the table's.
pub fn hide(words: &Words, keeper: &mut KeeperSeat, slot: u8)
    requires table { keeper.old.table ≡ words.now.table }
    requires place { slot < words.now.settings.slots }
    requires may { MayHide keeper.old.view slot }
    ensures step { SeatMakes Keeper (Hide slot) Done keeper.old keeper.new }
    ensures change { keeper.new.view ≡ keeper_after_live keeper.old.view slot 0 }
{
    hearing::store::<Brand>(words, keeper, live_place(slot), 0, Event::Hide(slot));
}

/// The place of the link of the slot before, or of the head.
fn link_place(before: Option<u8>) -> usize
    ensures place { result ≡ link_index before }
{
    match before {
        None => HEAD,
        Some(slot) => next_place(slot),
    }
}
