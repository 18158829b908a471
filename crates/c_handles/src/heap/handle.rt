//! What C keeps of a value on the heap: its address, or null.

ghost use Rattle.std.specs.Prelude.{◌≡◌, Option, Some, None, true, false};
ghost use Rattle.std.specs.Option.{MatchOption};
ghost use Rattle.std.specs.Borrow.{LendsIf, sem};
ghost use Rattle.c_handles.specs.Heap.{IsLent};

use crate::heap::Held;
use std::alloc::Global;
use std::marker::Model;
use std::{mem, ptr};
use std_alloc::room::Vacant;

/// Empty where its `body` is `None`. It can't be dropped: an empty one is let go by `end`.
pub struct Handle<T> {
    pub at: *mut T,
    pub ghost body: { Option T },
}

impl<T> Model for Handle<T> {
    ghost use Rattle.c_handles.specs.Heap.{holds};

    ghost also_owns = { λ h. holds T.row h.at h.body };
}

impl<T> Handle<T> {
    /// Of nothing.
    pub fn empty() -> Handle<T>
        ensures { result.body ≡ None }
    {
        Handle {
            at: ptr::null_mut(),
        }
    }

    /// Of a value on the heap.
    pub fn of(held: Held<T, Global>) -> Handle<T>
        ensures { result.body ≡ Some held.value }
    {
        let Held { at, alloc: _ } = held;
        Handle { at }
    }

    /// The value on the heap again, if there is one.
    pub fn into_held(self, alloc: Global) -> Option<Held<T, Global>>
        ensures { MatchOption result (self.body ≡ None) (λ held. self.body ≡ Some held.value) }
    {
        let Handle { at } = self;
        if at.is_null() {
            None
        } else {
            Some(Held { at, alloc })
        }
    }

    /// Lets an empty one go.
    pub fn end(self)
        requires { self.body ≡ None }
    {
        let Handle { at: _ } = self;
    }
}

/// A handle as C has it. No generic struct can be in an export, so each kind is a struct of one pointer, which converts to a `Handle` and
/// back.
pub trait CHandle: Sized {
    type Body;

    /// The body that it points to.
    ghost body: { Self → Option Self.Body };

    /// It, with that behind it.
    ghost filled: { Self → Self.Body → Self };

    fn of_handle(handle: Handle<Self::Body>) -> Self
        ensures { body result ≡ handle.body };

    fn into_handle(self) -> Handle<Self::Body>
        ensures { result.body ≡ body self };

    /// The body, if there is one, in its place: a call works on it there.
    fn body_mut(&mut self) -> Option<&mut Self::Body>
        ensures* writes_back { sem 𝓛 (LendsIf Self.row Self.Body.row self.entry result (filled self.old) self.old) }
        ensures value { IsLent (body self.old) result };

    /// What is put into it is its body.
    ghost fills: { (h : Self) (x : Self.Body) → body (filled h x) ≡ Some x };

    /// Whether it has no body.
    final fn is_empty(&mut self) -> bool
        ensures same { body self.new ≡ body self.old }
        ensures empty { result ≡ true → body self.old ≡ None }
        ensures full { result ≡ false → (b : Self.Body) × (body self.old ≡ Some b) }
    {
        match self.body_mut() {
            None => true,
            Some(_) => false,
        }
    }

    /// Puts another one in its place.
    final fn swap(&mut self, other: Handle<Self::Body>) -> Handle<Self::Body>
        ensures old { result.body ≡ body self.old }
        ensures new { body self.new ≡ other.body }
    {
        mem::replace(self, Self::of_handle(other)).into_handle()
    }

    /// Takes the body, if there is one, and its block. The handle is empty then.
    final fn take(&mut self, alloc: Global) -> Option<(Self::Body, Vacant<Self::Body, Global>)>
        ensures body { MatchOption result (body self.old ≡ None) (λ taken. body self.old ≡ Some taken.0) }
        ensures empty { body self.new ≡ None }
    {
        match self.swap(Handle::empty()).into_held(alloc) {
            None => None,
            Some(held) => Some(held.take()),
        }
    }

    /// Puts that behind it, in that block. Condition: it is empty.
    final fn give(&mut self, value: Self::Body, room: Vacant<Self::Body, Global>)
        requires { body self.old ≡ None }
        ensures { body self.new ≡ Some value }
    {
        self.swap(Handle::of(Held::fill(room, value))).end();
    }

    /// Puts what came back behind it, in its block; with nothing, gives the block up. Condition: it is empty.
    final fn settle(&mut self, back: Option<Self::Body>, room: Vacant<Self::Body, Global>)
        requires { body self.old ≡ None }
        ensures { body self.new ≡ back }
    {
        match back {
            None => {
                room.free();
            }
            Some(value) => self.give(value, room),
        }
    }

    /// The box behind it, if there is one. It is empty then.
    final fn take_box(&mut self, alloc: Global) -> Option<Box<Self::Body, Global>>
    where
        Self::Body: Drop,
        ensures body { MatchOption result (body self.old ≡ None) (λ boxed. body self.old ≡ Some boxed.value) }
        ensures empty { body self.new ≡ None }
    {
        match self.swap(Handle::empty()).into_held(alloc) {
            None => None,
            Some(held) => Some(held.into_box()),
        }
    }

    /// Puts the box behind it. Condition: it is empty.
    final fn give_box(&mut self, boxed: Box<Self::Body, Global>)
    where
        Self::Body: Drop,
        requires { body self.old ≡ None }
        ensures { body self.new ≡ Some boxed.value }
    {
        self.swap(Handle::of(Held::of(boxed))).end();
    }
}
