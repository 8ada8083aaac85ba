// What no clause says: that there is memory for each call, and that a run ends as it should. What is found of whole
// documents stands in the files of cases/explain, at the top of the repository.

use crate::ends::is_ending;
use explain::run_explain;
use plan_io::Status;
use samples::{sink_of, source_of};
use std::alloc::{AllocError, Global};
use std::test::Fail;

/// Two requests for one slice of one telescope, of which the dearer is placed.
const DOCUMENT: &[u8] =
    br#"{"claim":{"bound":50000,"placements":[[1,0,0]],"prices":[0,0],"value":50000},"snapshot":{"first":0,"groups":[{"group":1,"operator":"SINGLE","requests":[{"request":1,"seconds":300,"targets":[],"telescopes":[0],"value":50000,"windows":[[0,300]]}]},{"group":2,"operator":"SINGLE","requests":[{"request":2,"seconds":300,"targets":[],"telescopes":[0],"value":30000,"windows":[[0,300]]}]}],"len":300,"skies":[],"slices":12,"telescopes":[{"site":0,"usable":[[0,3600]]}],"version":7}}"#;

const REPLY: &[u8] =
    b"{\"bound\":50000,\"ok\":\"yes\",\"value\":50000}\n{\"blocking\":[[1,0,0]],\"excluded\":true,\"forced\":30000,\"request\":2,\"starts\":1}\n";

/// Whether an explanation of the document ends so, and writes so many bytes of its reply, where each read gives at most
/// 256 bytes and each write takes at most 64, and these calls fail.
fn ends_so(alloc: Global, fails: (u32, u32), ending: (Status, usize)) -> Result<bool, AllocError> {
    let mut source = source_of(alloc, DOCUMENT, 256, fails.0)?;
    let mut sink = sink_of(alloc, 64, fails.1)?;
    let words = vec![in alloc; String::from_str(alloc, "explain")?]?;
    let status = run_explain(alloc, words.as_slice(), &mut *source, &mut *sink);
    Ok(is_ending(status, &sink, REPLY, ending))
}

#[test]
fn faults_end_an_explanation(rt: HostRuntime) -> Result<(), Fail> {
    // The document takes two reads, and one more for the end. The reply takes two writes.
    for (fails, ending) in [
        ((9, 99), (Status::Done, 1_000)),
        ((0, 99), (Status::ReadFault, 0)),
        ((1, 99), (Status::ReadFault, 0)),
        ((9, 0), (Status::WriteFault, 0)),
        ((9, 1), (Status::WriteFault, 64)),
    ] {
        let found = ends_so(rt.alloc(), fails, ending)?;
        assert!(rt; found, "calls {} and {}", fails.0, fails.1);
    }
    Ok(())
}
