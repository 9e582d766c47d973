//! Memory that threads share.
ghost use Rattle.std.specs.Prelude.{◌≡◌, ℕ, IfErr, IfOk, OnErr, OnOk};
ghost use Rattle.wm_event.specs.Op.{kind_finds};
ghost use Rattle.wm_event.specs.Reply.{ReadAnswers};
ghost use Rattle.wm_event.specs.declared.op.OpFields.{OpFields};
ghost use Rattle.wm_recorder.specs.Calls.{CallsAccess, CallsDrain, HasCallRoom, HasDrainRoom};
ghost use Rattle.wm_recorder.specs.declared.access_fault.AccessFault.{AccessFault as Fault};

use crate::{AccessFault, Calls};
use std::alloc::AllocError;
use wm_event::{Op, Reply};

/// Makes the accesses of threads that share a memory by reference. Who has no more of the memory than this drains no
/// store.
pub trait Accesses {
    /// What is known of an access of a thread that the memory refused for a fault.
    ghost refuses: { ℕ → OpFields → Fault → Type 0 };

    /// Makes one access of a thread, and adds it to the caller's calls. The reply has a value read exactly if the access
    /// reads, and the value fits the width.
    ///
    /// # Errors
    ///
    /// [`AccessFault::OutOfMemory`] if an allocation fails; any other fault is true of this thread and this access. The
    /// caller's calls are as before.
    fn access(&self, calls: &mut Calls, thread: u32, op: Op) -> Result<Reply, AccessFault>
        requires room { HasCallRoom calls.old }
        ensures answers { IfOk result (λ reply. ReadAnswers (kind_finds op.kind) op.width reply.read) }
        ensures called { IfOk result (λ reply. CallsAccess thread op reply.read calls.old calls.new) }
        ensures refused { IfErr result (refuses thread op) }
        ensures not_called { OnErr result (calls.new ≡ calls.old) };
}

/// Publishes the waiting stores of threads that share a memory by reference.
pub trait Drains {
    /// Publishes the oldest waiting store of a thread; false if none waits. The drain is added to the caller's calls.
    ///
    /// # Errors
    ///
    /// Only if an allocation fails. The caller's calls are as before.
    fn drain(&self, calls: &mut Calls, thread: u32) -> Result<bool, AllocError>
        requires room { HasDrainRoom calls.old }
        ensures called { OnOk result (CallsDrain calls.old calls.new) }
        ensures not_called { OnErr result (calls.new ≡ calls.old) };

    /// Publishes the waiting store of a thread at `index`, counted from 0 at the oldest, if it overlaps no older one;
    /// false if it does, or if there is no such store. The drain is added to the caller's calls.
    ///
    /// # Errors
    ///
    /// Only if an allocation fails. The caller's calls are as before.
    fn drain_at(&self, calls: &mut Calls, thread: u32, index: u32) -> Result<bool, AllocError>
        requires room { HasDrainRoom calls.old }
        ensures called { OnOk result (CallsDrain calls.old calls.new) }
        ensures not_called { OnErr result (calls.new ≡ calls.old) };
}

/// A memory that threads share by reference: it makes their accesses and publishes their stores.
pub trait Shared: Accesses + Drains {}

impl<M: Accesses + Drains> Shared for M {}
