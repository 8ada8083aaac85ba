// What no clause says: that there is memory for each call, and how a check ends where a read or a write fails. What is
// found of whole documents stands in the files of cases/check, at the top of the repository.

use crate::ends::is_ending;
use plan_doc::run_check;
use plan_io::Status;
use samples::{sink_of, source_of};
use std::alloc::{AllocError, Global};
use std::test::Fail;

/// A claim with a bound that its prices do not give.
const DOCUMENT: &[u8] =
    br#"{"snapshot":{"first":0,"groups":[],"len":300,"skies":[],"slices":12,"telescopes":[],"version":7},"claim":{"bound":1,"placements":[],"prices":[],"value":0}}"#;

const REPLY: &[u8] = b"{\"claimed\":1,\"found\":0,\"no\":10,\"reason\":\"BoundDiffers\"}\n";

/// Whether a check of the document ends so, and writes so many bytes of its reply, where each read gives at most 64
/// bytes and each write takes at most 16, and these calls fail.
fn ends_so(alloc: Global, fails: (u32, u32), ending: (Status, usize)) -> Result<bool, AllocError> {
    let mut source = source_of(alloc, DOCUMENT, 64, fails.0)?;
    let mut sink = sink_of(alloc, 16, fails.1)?;
    let words = vec![in alloc; String::from_str(alloc, "check")?]?;
    let status = run_check(alloc, words.as_slice(), &mut *source, &mut *sink);
    Ok(is_ending(status, &sink, REPLY, ending))
}

#[test]
fn faults_end_a_check(rt: HostRuntime) -> Result<(), Fail> {
    // The document takes three reads, and one more for the end. The reply takes four writes.
    for (fails, ending) in [
        ((4, 99), (Status::No, 1_000)),
        ((0, 99), (Status::ReadFault, 0)),
        ((1, 99), (Status::ReadFault, 0)),
        ((2, 99), (Status::ReadFault, 0)),
        ((3, 99), (Status::ReadFault, 0)),
        ((4, 0), (Status::WriteFault, 0)),
        ((4, 1), (Status::WriteFault, 16)),
        ((4, 2), (Status::WriteFault, 32)),
        ((4, 3), (Status::WriteFault, 48)),
        ((4, 4), (Status::No, 1_000)),
    ] {
        let found = ends_so(rt.alloc(), fails, ending)?;
        assert!(rt; found, "calls {} and {}", fails.0, fails.1);
    }
    Ok(())
}
