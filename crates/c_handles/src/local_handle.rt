//! The handle of a local reference, as C has it: its entry, and a pointer to the block that has the reference.

ghost use Rattle.std.specs.Prelude.{◌≡◌, ◌<◌, ◌⊎◌, IfSome, Some, None, true, false, is_some};
ghost use Rattle.c_handles.specs.Bodies.{OnLocal, OnLocalBody, as_copied};
ghost use Rattle.c_handles.specs.OnHandle.{held_by};
ghost use Rattle.c_handles.specs.values.Texts.{entry_out};
ghost use Rattle.c_handles.specs.Taken.{CopiesTo, IsTaken, IsTakenOwn, IsTakenShare};

use crate::copy_body::CopyBody;
use crate::handle::{LocalBlock, LocalShare};
use crate::heap::{CHandle, Handle};
use crate::local_body::LocalBody;
use crate::taken::LocalTaken;
use crate::values::plain::{CEntry, no_entry};
use registry_values::MOST_SLOTS;
use std::alloc::{AllocFailed, Global};
use std::marker::Model;
use std::sync::Arc;
use std_alloc::room::Vacant;

/// A local reference of C's, or none. It has a block of its own, or, once it was copied, a share of a block. Number 0 of the entry says that it
/// is empty; else the entry is for its reader.
#[repr(C)]
pub struct LocalHandle {
    entry: CEntry,
    block: LocalBlock,
    share: LocalShare,
}

impl Model for LocalHandle {
    ghost use Rattle.c_handles.specs.Bodies.{IsBeside};
    ghost use Rattle.c_handles.specs.OnHandle.{OnHandle};

    ghost Value = { OnHandle };

    ghost view = { λ h. (h.entry, h.block, h.share) };

    ghost inverse = { λ v. record { entry = v.0; block = v.1; share = v.2 } };

    ghost invariant = { λ h. IsBeside h.block.body h.share.body h.entry };
}

impl LocalHandle {
    /// Whether it has no reference.
    pub fn is_empty(&self) -> bool
        ensures empty { result ≡ true → held_by self.now ≡ None }
        ensures full { result ≡ false → (v : OnLocal) × (held_by self.now ≡ Some v) }
    {
        self.entry.number == 0
    }

    /// The number of its entry, from 1, if it has a reference.
    pub fn number(&self) -> u64
        ensures { (v : OnLocal) → held_by self.now ≡ Some v → result ≡ v.held.reference.entry.number }
    {
        self.entry.number
    }

    /// The slot of its entry, from 0, if it has a reference.
    pub fn slot(&self) -> u8
        ensures slot { (v : OnLocal) → held_by self.now ≡ Some v → result ≡ v.held.reference.entry.slot }
        ensures few { result < MOST_SLOTS }
    {
        self.entry.slot as u8
    }

    /// Whether a release found its CPU's count collected. Of a copied one it isn't told.
    pub fn is_back(&mut self) -> bool
        ensures same { held_by self.new ≡ held_by self.old }
        ensures back { result ≡ true → (v : OnLocal) × (held_by self.old ≡ Some v) × (is_some v.held.reference.collected ≡ true) }
        ensures none { result ≡ false → (v : OnLocal) → held_by self.old ≡ Some v → (v.copied ≡ true) ⊎ (v.held.reference.collected ≡ None) }
    {
        match self.block.body_mut() {
            None => false,
            Some(body) => body.is_back(),
        }
    }

    /// Puts that reference into it, in that block, and its entry beside it. Conditions: it is
    /// empty; the entry is the reference's.
    pub fn give(&mut self, entry: CEntry, body: LocalBody, room: Vacant<LocalBody, Global>)
        requires empty { held_by self.old ≡ None }
        requires entry { entry ≡ entry_out body.reference.entry }
        ensures { held_by self.new ≡ Some (record { held = body; copied = false }) }
    {
        self.entry = entry;
        self.block.give(body, room);
    }

    /// Takes the reference out of a block of its own. All of the handle is 0 then. `None`: it has no such block, and is as before.
    #[inline(always)]
    pub fn take_own(&mut self, alloc: Global) -> Option<(LocalBody, Vacant<LocalBody, Global>)>
        ensures { IsTakenOwn (held_by self.old) (held_by self.new) result }
    {
        let taken = self.block.take(alloc)?;
        self.entry = no_entry();
        Some(taken)
    }

    /// Takes the reference out, or the share of one. All of the handle is 0 then.
    pub fn take(&mut self, alloc: Global) -> LocalTaken
        ensures taken { IsTaken (held_by self.old) result }
        ensures empty { held_by self.new ≡ None }
    {
        self.entry = no_entry();
        if let Some((body, room)) = self.block.take(alloc) {
            return LocalTaken::Reference(body, room);
        }
        match self.share.take(alloc) {
            None => LocalTaken::Nothing,
            Some((share, room)) => {
                room.free();
                give_up(alloc, share)
            }
        }
    }

    /// Lets go of the reference, or of the share of one, and of its own block: the reference stays held. Whether there was one.
    pub fn forget(&mut self, alloc: Global) -> bool
        ensures some { result ≡ true → (v : OnLocal) × (held_by self.old ≡ Some v) }
        ensures none { result ≡ false → held_by self.old ≡ None }
        ensures empty { held_by self.new ≡ None }
    {
        self.entry = no_entry();
        if let Some((body, room)) = self.block.take(alloc) {
            body.forget();
            room.free();
            return true;
        }
        match self.share.take(alloc) {
            None => false,
            Some((share, room)) => {
                share.forget();
                room.free();
                true
            }
        }
    }

    /// Makes a second one of it at an empty place. `false`: memory ran out. Conditions: it has a reference; the place is empty.
    pub fn copy(&mut self, alloc: Global, copy: &mut LocalHandle) -> bool
        requires full { (v : OnLocal) × (held_by self.old ≡ Some v) }
        requires empty { held_by copy.old ≡ None }
        ensures { CopiesTo (held_by self.old) (held_by self.new) (held_by copy.new) result }
    {
        if !self.count(alloc) {
            return false;
        }
        let Ok(room) = Vacant::take(alloc) else {
            return false;
        };
        let Some(share) = self.another() else {
            room.free();
            return false;
        };
        copy.entry = self.entry;
        copy.share.give(share, room);
        true
    }

    /// Puts its block behind a count, unless that was done. `false`: memory ran out. Condition: it has a reference.
    fn count(&mut self, alloc: Global) -> bool
        requires full { (v : OnLocal) × (held_by self.old ≡ Some v) }
        ensures done { result ≡ true → (v : OnLocal) × (held_by self.old ≡ Some v) × (held_by self.new ≡ Some (as_copied v)) }
        ensures refused { result ≡ false → held_by self.new ≡ held_by self.old }
    {
        if !self.share.is_empty() {
            return true;
        }
        let Ok(room) = Vacant::take(alloc) else {
            return false;
        };
        let block = LocalBlock::of_handle(self.block.swap(Handle::empty()));
        match Arc::new(alloc, block) {
            Ok(block) => {
                self.share.give(CopyBody { block }, room);
                true
            }
            Err(AllocFailed { value }) => {
                self.block.swap(value.into_handle()).end();
                room.free();
                false
            }
        }
    }

    /// One share more. `None`: the count is full. Condition: it was copied.
    fn another(&mut self) -> Option<CopyBody>
        requires copied { (b : OnLocalBody) × (held_by self.old ≡ Some (record { held = b; copied = true })) }
        ensures same { held_by self.new ≡ held_by self.old }
        ensures share { IfSome result (λ share. (b : OnLocalBody) × (held_by self.old ≡ Some (record { held = b; copied = true })) × (share ≡ Some b)) }
    {
        let Some(body) = self.share.body_mut() else {
            return None;
        };
        match Arc::try_clone(&body.block) {
            Ok(block) => Some(CopyBody { block }),
            Err(_) => None,
        }
    }
}

/// Gives a share up. The last one has the reference.
fn give_up(alloc: Global, share: CopyBody) -> LocalTaken
    ensures { IsTakenShare share result }
{
    let CopyBody { block } = share;
    let Some(mut block) = Arc::into_inner(block) else {
        return LocalTaken::Share;
    };
    let taken = block.take(alloc);
    block.into_handle().end();
    match taken {
        Some((body, room)) => LocalTaken::Reference(body, room),
        None => unreachable!(),
    }
}

fn crosses<T: Send>(value: T) -> T
    ensures { result ≡ value }
{
    value
}

/// The same handle: that it may go to another thread is what counts.
pub fn same_handle(local: LocalHandle) -> LocalHandle
    ensures { result ≡ local }
{
    crosses(local)
}
