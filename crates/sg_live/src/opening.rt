// The specification of a session.
ghost use Rattle.std.specs.Prelude.{◌≡◌, ◌≢◌, IfOk, IfErr, OnOk};
ghost use Rattle.sg_load.specs.Only.{IsTheVerdict};
ghost use Rattle.sg_load.specs.Verdict.Verdict.{Refused};
ghost use Rattle.sg_live.specs.Opening.{IsAccepted, IsNone, IsNoneOf, Brings};

use crate::answers::finish;
use crate::texts::READ_FAULT;
use sg_console::Console;
use sg_faults::fault_line;
use sg_kinds::fault::SpecFault;
use sg_load::{Loaded, load};
use sg_output::Status;
use sg_replies::Reply;
use sg_workload::tell_readers;
use std::alloc::Global;

/// Says why there is no session: want of memory, or the line of a static fault.
fn refuse<C: Console>(alloc: Global, bytes: &[u8], fault: &SpecFault, console: &mut C) -> Status
    requires { fault.now ≢ SpecFault.NoMemory → IsTheVerdict bytes.now (Refused fault.now) }
    ensures { IsNone bytes.now (C.state console.old) result (C.state console.new) }
{
    if matches!(fault, SpecFault::NoMemory) {
        return Status::Memory;
    }
    match fault_line(alloc, fault) {
        Ok(line) => finish(console, &line, Status::SpecFault),
        Err(_) => Status::Memory,
    }
}

/// Loads the specification of these bytes. An error says with which status the run is over.
fn judge<C: Console>(alloc: Global, bytes: &[u8], console: &mut C) -> Result<Loaded, Status>
    ensures accepted { IfOk result (λ loaded. IsAccepted bytes.now loaded.spec) }
    ensures quiet { OnOk result (C.state console.new ≡ C.state console.old) }
    ensures none { IfErr result (λ status. IsNone bytes.now (C.state console.old) status (C.state console.new)) }
{
    match load(alloc, bytes) {
        Ok(loaded) => {
            tell_readers(&loaded);
            Ok(loaded)
        }
        Err(fault) => Err(refuse(alloc, bytes, &fault, console)),
    }
}

/// Loads the specification that a reply brought. An error says with which status the run is over.
pub fn open<C: Console>(alloc: Global, reply: &Reply, console: &mut C) -> Result<Loaded, Status>
    ensures brings { IfOk result (λ loaded. Brings reply.now loaded.spec) }
    ensures quiet { OnOk result (C.state console.new ≡ C.state console.old) }
    ensures none { IfErr result (λ status. IsNoneOf reply.now (C.state console.old) status (C.state console.new)) }
{
    match reply {
        Reply::Fetched(text) => judge(alloc, text.as_slice(), console),
        _ => Err(finish(console, READ_FAULT, Status::ReadFault)),
    }
}
