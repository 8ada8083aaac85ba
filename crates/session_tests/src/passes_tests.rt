//! Two callers of a desk, each with a pass: where their entries stand, what a note tells, and a plan that is stale since the line
//! of another thread came between its Take and its Publish.
ghost use Rattle.std.specs.Prelude.{◌≡◌, ◌<◌, length, IfOk};
ghost use Rattle.desk_passes.specs.Calls.{IsPassOf, view};
ghost use Rattle.session_tests.specs.Passes.{IsCallers, IsReady};

use crate::between::Between;
use crate::script::{PLAN, SETTINGS, SUBMIT, line_of};
use crate::two_passes::{Shared, close, opens, replies_so, reply_to, share, text_at};
use desk_passes::{CallAnswer, Pass, SharedDesk};
use lanes::solve_plan;
use plan_base::{Solved, Taken};
use plan_io::NoGate;
use std::alloc::{AllocError, Global};
use std::process::Abort;
use std::sync::Wait;
use std::sync::atomic::Ordering;
use std::test::Fail;
use std::thread::{self, Threads};

/// Hands what a pass has seen to another one, which did so many lines, or fewer.
fn tell(desk: &SharedDesk, from: &mut Pass, to: &mut Pass, lines: u32)
    requires from { IsPassOf desk.now from.old }
    requires to { IsReady desk.now lines to.old }
    ensures from { IsPassOf desk.now from.new }
    ensures same { view from.new ≡ view from.old }
    ensures to { IsReady desk.now lines to.new }
    ensures caller { (view to.new).caller ≡ (view to.old).caller }
{
    let note = desk.note(from);
    desk.meet(to, note);
}

const SHOW: &str = r#"{"do":"show","group_number":2}"#;

/// Whether the desk is opened by the one caller, the other one's group is submitted, and the first caller is told of it and shown
/// it. The first caller has then done 8 lines, and the other one has done one.
fn begins_so<R: Abort + Wait>(
    rt: &R,
    alloc: Global,
    desk: &SharedDesk,
    zero: &mut Pass,
    one: &mut Pass,
) -> Result<bool, AllocError>
    requires zero { IsReady desk.now 0 zero.old }
    requires one { IsReady desk.now 0 one.old }
    ensures zero { IfOk result (λ _. IsReady desk.now 8 zero.new) }
    ensures one { IfOk result (λ _. IsReady desk.now 1 one.new) }
    ensures callers { ((view zero.new).caller ≡ (view zero.old).caller) × ((view one.new).caller ≡ (view one.old).caller) }
{
    let opened = opens(rt, alloc, desk, zero)?;
    let row = (
        SUBMIT,
        7,
        "{\"caller\":1,\"group\":2,\"ipp_charged\":0,\"line\":1,\"ok\":\"submitted\",\"requests\":[2],\"version\":7}\n",
    );
    let submitted = replies_so(rt, alloc, desk, one, 0, row)?;
    tell(desk, one, zero, 7);
    let (place, text) = reply_to(rt, alloc, desk, zero, 7, SHOW)?;
    Ok(opened && submitted && place == 8 && is_shown(text.as_slice()))
}

/// Whether it is the entry of the line that shows the other caller's group.
fn is_shown(text: &[u8]) -> bool {
    text.starts_with(b"{\"caller\":0,\"document\":{")
        && text.ends_with(
            b",\"group\":2,\"line\":8,\"ok\":\"shown\",\"requests\":[{\"request\":2,\"state\":\"PENDING\"}],\"state\":\"PENDING\",\"version\":8}\n",
        )
}

#[test]
fn a_pass_goes_on_from_what_it_is_told(rt: HostRuntime) -> Result<(), Fail> {
    let Shared {
        desk,
        root,
        mut zero,
        mut one,
    } = share(rt.alloc())?;
    let so = begins_so(&rt, rt.alloc(), &desk, &mut zero, &mut one)?;
    assert!(rt; so);
    assert_eq!(rt; close(desk, root, zero, one), 9);
    Ok(())
}

/// What is found for a Take.
fn solve<R: Abort + Threads + Sync>(
    rt: &R,
    alloc: Global,
    taken: Taken,
) -> Result<Solved, AllocError>
    ensures { IfOk result (λ solved. solved.taken ≡ taken) }
{
    assert!(rt; taken.settings == SETTINGS);
    solve_plan(rt, alloc, taken, &NoGate)
}

/// Calls a plan, which is published once the other caller has its reply, and answers where both entries stand.
fn plan<R: Abort + Threads + Wait + Sync>(
    rt: &R,
    alloc: Global,
    desk: &SharedDesk,
    pass: &mut Pass,
    gate: &Between,
) -> Result<(u64, u64), AllocError>
    requires { IsReady desk.now 8 pass.old }
    ensures desk { IsPassOf desk.now pass.new }
    ensures caller { (view pass.new).caller ≡ (view pass.old).caller }
    ensures places { IfOk result (λ at. (at.0 < length (view pass.new).seen) × (at.1 < length (view pass.new).seen)) }
{
    match desk.call(rt, pass, line_of(alloc, PLAN)?)? {
        CallAnswer::Replied(_) => panic!(rt; "nothing is taken"),
        CallAnswer::Taken(taken, receipt) => {
            gate.taken.fetch_add(1, Ordering::SeqCst);
            gate.wait(&gate.replied);
            let solved = solve(rt, alloc, taken)?;
            let published = desk.publish(rt, pass, solved)?;
            Ok((receipt.place, published.place))
        }
    }
}

const TAKEN: &str = "{\"caller\":0,\"line\":9,\"ok\":\"taken\",\"version\":8}\n";

const STALE: &str =
    "{\"asked\":8,\"caller\":0,\"line\":9,\"newer\":9,\"no\":31,\"refused\":\"Stale\",\"version\":9}\n";

/// Whether the plan is stale. Gives the pass back.
fn plans_so<R: Abort + Threads + Wait + Sync>(
    rt: &R,
    alloc: Global,
    desk: &SharedDesk,
    mut zero: Pass,
    gate: &Between,
) -> Result<(Pass, bool), AllocError>
    requires callers { IsCallers desk.now 0 zero }
    requires ready { IsReady desk.now 8 zero }
    ensures { IfOk result (λ done. IsCallers desk.now 0 done.0) }
{
    let (taken, published) = plan(rt, alloc, desk, &mut zero, gate)?;
    let first = text_at(rt, alloc, desk, &mut zero, taken)?;
    let second = text_at(rt, alloc, desk, &mut zero, published)?;
    let so = (taken, published) == (9, 11)
        && first.as_slice() == TAKEN.as_bytes()
        && second.as_slice() == STALE.as_bytes();
    Ok((zero, so))
}

/// Whether a group is submitted once the other caller has taken what is to be planned. Gives the pass back.
fn submits_so<R: Abort + Wait>(
    rt: &R,
    alloc: Global,
    desk: &SharedDesk,
    mut one: Pass,
    gate: &Between,
) -> Result<(Pass, bool), AllocError>
    requires callers { IsCallers desk.now 1 one }
    requires ready { IsReady desk.now 1 one }
    ensures { IfOk result (λ done. IsCallers desk.now 1 done.0) }
{
    gate.wait(&gate.taken);
    let row = (
        SUBMIT,
        10,
        "{\"caller\":1,\"group\":3,\"ipp_charged\":0,\"line\":2,\"ok\":\"submitted\",\"requests\":[3],\"version\":8}\n",
    );
    let so = replies_so(rt, alloc, desk, &mut one, 1, row);
    gate.replied.fetch_add(1, Ordering::SeqCst);
    Ok((one, so?))
}

#[test]
fn a_plan_is_stale_once_another_thread_has_called(rt: HostRuntime) -> Result<(), Fail> {
    let Shared {
        desk,
        root,
        mut zero,
        mut one,
    } = share(rt.alloc())?;
    let so = begins_so(&rt, rt.alloc(), &desk, &mut zero, &mut one)?;
    assert!(rt; so);
    let (host, lent, gate) = (&rt, &desk, &Between::new());
    let (planned, submitted) = thread::join(
        host,
        move ||
            requires callers { IsCallers lent.now 0 zero }
            requires ready { IsReady lent.now 8 zero }
            ensures { IfOk result (λ done. IsCallers lent.entry.now 0 done.0) }
        { plans_so(host, host.alloc(), lent, zero, gate) },
        move ||
            requires callers { IsCallers lent.now 1 one }
            requires ready { IsReady lent.now 1 one }
            ensures { IfOk result (λ done. IsCallers lent.entry.now 1 done.0) }
        { submits_so(host, host.alloc(), lent, one, gate) },
    );
    let (zero, planned) = planned?;
    let (one, submitted) = submitted?;
    assert_eq!(rt; gate.late.load(Ordering::SeqCst), 0);
    assert!(rt; planned && submitted);
    assert_eq!(rt; close(desk, root, zero, one), 12);
    Ok(())
}
