//! The drill itself.
use crate::fault::Fault;
use crate::order::Order;
use crate::running::{Running, start};
use crate::step::{Step, Verdict};
use std::process::{OpenProcess, Processes};
use std::rt::Clock;

/// Runs the ordered program as both servers, and beside them as three clients, one after another. Each program that
/// was started has ended when this returns.
pub fn drill<R: Processes + Clock + AllocGlobal>(rt: &R, order: &Order) -> Result<Verdict, Fault> {
    let mut helper = start(rt, order, Step::Helper)?;
    let beside = match helper.listens() {
        Ok(true) => beside_helper(rt, order),
        Ok(false) => Ok(Verdict::Failed(Step::Helper)),
        Err(fault) => Err(fault),
    };
    judge(rt, helper, Step::Helper, beside)
}

fn beside_helper<R: Processes + Clock + AllocGlobal>(
    rt: &R,
    order: &Order,
) -> Result<Verdict, Fault> {
    let mut leader = start(rt, order, Step::Leader)?;
    let beside = match leader.listens() {
        Ok(true) => clients(rt, order),
        Ok(false) => Ok(Verdict::Failed(Step::Leader)),
        Err(fault) => Err(fault),
    };
    judge(rt, leader, Step::Leader, beside)
}

fn clients<R: Processes + Clock + AllocGlobal>(rt: &R, order: &Order) -> Result<Verdict, Fault> {
    for step in [Step::Register, Step::Write, Step::Read] {
        if !start(rt, order, step)?.finish(rt)? {
            return Ok(Verdict::Failed(step));
        }
    }
    Ok(Verdict::Passed)
}

// Ends a server, and judges it before what went on beside it. Where that failed, a server that still ran isn't at
// fault.
fn judge<P: OpenProcess + Drop>(
    clock: &impl Clock,
    server: Running<P>,
    step: Step,
    beside: Result<Verdict, Fault>,
) -> Result<Verdict, Fault> {
    let well = match beside {
        Ok(Verdict::Passed) => server.finish(clock),
        Ok(Verdict::Failed(_)) | Err(_) => server.stop(),
    };
    let verdict = beside?;
    if well? {
        Ok(verdict)
    } else {
        Ok(Verdict::Failed(step))
    }
}
