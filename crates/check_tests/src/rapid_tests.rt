// What no clause says: that there is memory for a run, and how one ends where a read or a write fails. What comes of whole
// documents stands in the files of cases/rapid, at the top of the repository.

use crate::ends::is_ending;
use plan_io::Status;
use rapid::run_rapid;
use samples::{sink_of, source_of};
use std::alloc::{AllocError, Global};
use std::test::Fail;

/// A claim on one telescope, where the request that it places has to go for the one of the group that is inserted.
const DOCUMENT: &[u8] =
    br#"{"snapshot":{"first":0,"groups":[{"group":1,"operator":"SINGLE","requests":[{"request":1,"seconds":300,"targets":[0],"telescopes":[0],"value":50000,"windows":[[0,3600]]}]}],"len":300,"skies":[{"site":0,"spans":[[0,3600]],"target":0}],"slices":12,"telescopes":[{"site":0,"usable":[[0,3600]]}],"version":7},"claim":{"placements":[[1,0,0]],"prices":[50000],"value":50000,"bound":50000},"groups":[{"group":2,"operator":"SINGLE","requests":[{"request":2,"seconds":300,"targets":[0],"telescopes":[0],"value":80000,"windows":[[0,3600]]}]}]}"#;

const REPLY: &[u8] =
    b"{\"claim\":{\"bound\":130000,\"placements\":[[2,0,0]],\"prices\":[50000,80000],\"value\":80000},\"displaced\":[1],\"placed\":[2,0,0]}\n";

/// Whether a run over the document ends so, and writes so many bytes of its reply, where each read gives at most 256 bytes
/// and each write takes at most 64, and these calls fail.
fn ends_so(alloc: Global, fails: (u32, u32), ending: (Status, usize)) -> Result<bool, AllocError> {
    let mut source = source_of(alloc, DOCUMENT, 256, fails.0)?;
    let mut sink = sink_of(alloc, 64, fails.1)?;
    let words = vec![in alloc; String::from_str(alloc, "rapid")?]?;
    let status = run_rapid(alloc, words.as_slice(), &mut *source, &mut *sink);
    Ok(is_ending(status, &sink, REPLY, ending))
}

#[test]
fn faults_end_an_insertion(rt: HostRuntime) -> Result<(), Fail> {
    // The document takes three reads, and one more for the end. The reply takes two writes.
    for (fails, ending) in [
        ((9, 99), (Status::Done, 1_000)),
        ((0, 99), (Status::ReadFault, 0)),
        ((1, 99), (Status::ReadFault, 0)),
        ((2, 99), (Status::ReadFault, 0)),
        ((3, 99), (Status::ReadFault, 0)),
        ((9, 0), (Status::WriteFault, 0)),
        ((9, 1), (Status::WriteFault, 64)),
    ] {
        let found = ends_so(rt.alloc(), fails, ending)?;
        assert!(rt; found, "calls {} and {}", fails.0, fails.1);
    }
    Ok(())
}
