//! What C holds of each kind of body: a pointer to it, or null.

ghost use Rattle.std.specs.Prelude.{◌≡◌, Option};
ghost use Rattle.passive_list.specs.Common.{OnPlainCpu, OnPlainKeeper};
ghost use Rattle.c_handles.specs.Bodies.{OnLocalBody};

use crate::copy_body::CopyBody;
use crate::cpu_body::CpuBody;
use crate::heap::{CHandle, Handle};
use crate::keeper_body::KeeperBody;
use crate::local_body::LocalBody;
use std::marker::Model;

/// The handle of a CPU. Its `body` is what it points to, if anything.
#[repr(C)]
pub struct CpuHandle {
    at: *mut u8,
    pub ghost body: { Option OnPlainCpu },
}

impl Model for CpuHandle {
    ghost use Rattle.c_handles.specs.Handles.{holds_cpu};

    ghost also_owns = { λ h. holds_cpu h.at h.body };
}

impl CHandle for CpuHandle {
    ghost use Rattle.std.specs.Prelude.{Some, refl};

    type Body = CpuBody;

    ghost body = { λ h. h.body };

    ghost filled = { λ h x. record { at = h.at; body = Some x } };

    fn of_handle(handle: Handle<CpuBody>) -> CpuHandle
        ensures { result.body ≡ handle.body }
    {
        let Handle { at } = handle;
        CpuHandle { at: at as *mut u8 }
    }

    fn into_handle(self) -> Handle<CpuBody>
        ensures { result.body ≡ self.body }
    {
        let CpuHandle { at } = self;
        Handle {
            at: at as *mut CpuBody,
        }
    }

    fn body_mut(&mut self) -> Option<&mut CpuBody> {
        let at = self.at;
        if at.is_null() {
            return None;
        }
        Some(unsafe { &mut *(at as *mut CpuBody) })
    }

    ghost fills = { λ h x. refl };
}

unsafe impl Send for CpuHandle {}

/// The handle of the keeper. Its `body` is what it points to, if anything.
#[repr(C)]
pub struct KeeperHandle {
    at: *mut u8,
    pub ghost body: { Option OnPlainKeeper },
}

impl Model for KeeperHandle {
    ghost use Rattle.c_handles.specs.Handles.{holds_keeper};

    ghost also_owns = { λ h. holds_keeper h.at h.body };
}

impl CHandle for KeeperHandle {
    ghost use Rattle.std.specs.Prelude.{Some, refl};

    type Body = KeeperBody;

    ghost body = { λ h. h.body };

    ghost filled = { λ h x. record { at = h.at; body = Some x } };

    fn of_handle(handle: Handle<KeeperBody>) -> KeeperHandle
        ensures { result.body ≡ handle.body }
    {
        let Handle { at } = handle;
        KeeperHandle { at: at as *mut u8 }
    }

    fn into_handle(self) -> Handle<KeeperBody>
        ensures { result.body ≡ self.body }
    {
        let KeeperHandle { at } = self;
        Handle {
            at: at as *mut KeeperBody,
        }
    }

    fn body_mut(&mut self) -> Option<&mut KeeperBody> {
        let at = self.at;
        if at.is_null() {
            return None;
        }
        Some(unsafe { &mut *(at as *mut KeeperBody) })
    }

    ghost fills = { λ h x. refl };
}

unsafe impl Send for KeeperHandle {}

/// The block of a local reference's handle. Its `body` is what it points to, if anything.
#[repr(C)]
pub struct LocalBlock {
    at: *mut u8,
    pub ghost body: { Option OnLocalBody },
}

impl Model for LocalBlock {
    ghost use Rattle.c_handles.specs.Handles.{holds_local};

    ghost also_owns = { λ h. holds_local h.at h.body };
}

impl CHandle for LocalBlock {
    ghost use Rattle.std.specs.Prelude.{Some, refl};

    type Body = LocalBody;

    ghost body = { λ h. h.body };

    ghost filled = { λ h x. record { at = h.at; body = Some x } };

    fn of_handle(handle: Handle<LocalBody>) -> LocalBlock
        ensures { result.body ≡ handle.body }
    {
        let Handle { at } = handle;
        LocalBlock { at: at as *mut u8 }
    }

    fn into_handle(self) -> Handle<LocalBody>
        ensures { result.body ≡ self.body }
    {
        let LocalBlock { at } = self;
        Handle {
            at: at as *mut LocalBody,
        }
    }

    fn body_mut(&mut self) -> Option<&mut LocalBody> {
        let at = self.at;
        if at.is_null() {
            return None;
        }
        Some(unsafe { &mut *(at as *mut LocalBody) })
    }

    ghost fills = { λ h x. refl };
}

unsafe impl Send for LocalBlock {}

// A `&` to it can't be read through: it lends nothing.
unsafe impl Sync for LocalBlock {}

/// A share of a local reference's block, which copies have. Its `body` is what it points to, if anything.
#[repr(C)]
pub struct LocalShare {
    at: *mut u8,
    pub ghost body: { Option (Option OnLocalBody) },
}

impl Model for LocalShare {
    ghost use Rattle.c_handles.specs.Shares.{holds_copy};

    ghost also_owns = { λ h. holds_copy h.at h.body };
}

impl CHandle for LocalShare {
    ghost use Rattle.std.specs.Prelude.{Some, refl};

    type Body = CopyBody;

    ghost body = { λ h. h.body };

    ghost filled = { λ h x. record { at = h.at; body = Some x } };

    fn of_handle(handle: Handle<CopyBody>) -> LocalShare
        ensures { result.body ≡ handle.body }
    {
        let Handle { at } = handle;
        LocalShare { at: at as *mut u8 }
    }

    fn into_handle(self) -> Handle<CopyBody>
        ensures { result.body ≡ self.body }
    {
        let LocalShare { at } = self;
        Handle {
            at: at as *mut CopyBody,
        }
    }

    fn body_mut(&mut self) -> Option<&mut CopyBody> {
        let at = self.at;
        if at.is_null() {
            return None;
        }
        Some(unsafe { &mut *(at as *mut CopyBody) })
    }

    ghost fills = { λ h x. refl };
}

unsafe impl Send for LocalShare {}
