// What is said of the requests that a claim leaves out, as it is written.

ghost use Rattle.std.specs.Prelude.{◌≡◌, ◌++◌, OnOk, IfOk};
ghost use Rattle.plan_json.specs.Line.{line_of};
ghost use Rattle.plan_base.specs.declared.verdict.Verdict.TheVariants as judged;
ghost use Rattle.plan_doc.specs.Reason.{verdict_data};
ghost use Rattle.plan_io.specs.declared.document.Said.TheVariants as said;
ghost use Rattle.explain.specs.Forced.{is_excluded};
ghost use Rattle.explain.specs.Told.{forced_data, left_data, lines_of_lefts};

use crate::answer::{Explanation, Forced, Left};
use plan_base::{Claim, Verdict};
use plan_doc::{InDocument, VerdictDoc};
use plan_io::{Answer, Said};
use plan_json::{Each, Json, add_line, object};
use std::alloc::{AllocError, Global};

/// What is said of a request, beside the value of the claim that leaves it out, as an object.
#[derive(Drop)]
pub(crate) struct LeftDoc<'a> {
    value: u64,
    left: &'a Left,
}

impl<'a> Json for LeftDoc<'a> {
    ghost value = { λ doc. left_data doc.value doc.left.now };

    ghost levels = { 3 };

    fn write(&self, out: &mut Vec<u8>) -> Result<(), AllocError> {
        let left = self.left;
        let excluded = is_excluded(self.value, left.forced);
        let forced = ForcedDoc(left.forced);
        let blocking = left.blocking.as_list();
        object!(
            "blocking": Each { form: InDocument, items: blocking },
            "excluded": excluded,
            "forced": &forced,
            "request": left.request.0,
            "starts": left.starts,
        )
        .write(out)
    }
}

/// A bound as a number, and `null` where there is no start.
#[derive(Clone, Copy)]
struct ForcedDoc(Forced);

impl Json for ForcedDoc {
    ghost value = { λ doc. forced_data doc.0 };

    ghost levels = { 0 };

    fn write(&self, out: &mut Vec<u8>) -> Result<(), AllocError> {
        let bound = match self.0 {
            Forced::NoStart => None,
            Forced::Bound(bound) => Some(bound),
        };
        bound.write(out)
    }
}

/// Whether this excludes a request from all plans of that value: it has no start, or its bound is below the value. Where
/// it doesn't, nothing is said.
fn is_excluded(value: u64, forced: Forced) -> bool
    ensures { result ≡ is_excluded value forced }
{
    match forced {
        Forced::NoStart => true,
        Forced::Bound(bound) => bound < 0 || (bound as u64) < value,
    }
}

/// Adds a line for each request that is left out. Fails only for want of memory.
fn add_lefts(value: u64, lefts: &[Left], out: &mut Vec<u8>) -> Result<(), AllocError>
    ensures { OnOk result (out.new.items ≡ out.old.items ++ lines_of_lefts value lefts.now) }
{
    for left in lefts {
        add_line(&LeftDoc { value, left }, out)?;
    }
    Ok(())
}

/// The answer to a claim that is certified: its value and bound, and a line for each request that it leaves out. Fails
/// only for want of memory.
pub(crate) fn explained_answer(
    alloc: Global,
    claim: &Claim,
    explanation: &Explanation,
) -> Result<Answer, AllocError>
    ensures text { IfOk result (λ a. a.text.items
        ≡ line_of (verdict_data (judged.Yes claim.now.value claim.now.bound)) ++ lines_of_lefts claim.now.value explanation.now) }
    ensures said { IfOk result (λ a. a.said ≡ said.Yes) }
{
    let verdict = Verdict::Yes {
        value: claim.value,
        bound: claim.bound,
    };
    let mut text = Vec::new(alloc);
    add_line(&VerdictDoc(verdict), &mut text)?;
    add_lefts(claim.value, explanation.as_slice(), &mut text)?;
    Ok(Answer {
        text,
        said: Said::Yes,
    })
}
