//! What the slots of a caller are attached to.

ghost use Rattle.std.specs.Prelude.{◌≡◌, MatchOption};
ghost use Rattle.mode_questions.specs.Operations.{request};
ghost use Rattle.process_store.specs.Uses.{IsFree};
ghost use Rattle.process_manager.specs.Serving.{MayServe, IsAttached};

use access_vectors::Asker;
use mode_questions::{Operation, SlotUse};
use process_calls::Process;
use process_store::Processes;
use retained_rights::{Callback, Usable};

/// What a slot of the caller is attached to: its use, and its process.
pub fn attached<F: Callback, A: Asker>(
    processes: &Processes<F>,
    operation: &Operation<A>,
    slot: u8,
) -> Option<(Usable, Process)>
    requires { MayServe processes.now (request operation.now) }
    ensures { let r = request operation.now in MatchOption result (IsFree processes.now r.client slot)
        (λ attached. IsAttached r processes.now slot attached.0 attached.1) }
{
    let usable = processes.slot_use(operation.caller.client, slot)?;
    let Some(process) = processes.process(usable.object) else {
        unreachable!()
    };
    Some((usable, process))
}

/// What a used slot gives its client.
pub fn usage_of(usable: &Usable) -> SlotUse
    ensures { result ≡ record { t = usable.now.t; mode = usable.now.mode; bits = usable.now.bits; number = usable.now.number } }
{
    SlotUse {
        t: usable.t,
        mode: usable.mode,
        bits: usable.bits,
        number: usable.number,
    }
}
