// Texts of documents.

use plan_json::{Writer, json_text, object, word};
use serde_json::Value;
use std::alloc::{AllocError, Global};
use std::test::Fail;

/// The text of a document with members of every kind.
fn document(
    alloc: Global,
    note: &Option<&str>,
    placements: &[(u32, u16, u32)],
    prices: &[i64],
) -> Result<Vec<u8>, AllocError> {
    let inner = object!("note"?: note, "ok": word!("taken"));
    let value =
        object!("": inner, "a b": true, "n": Option::<u8>::None, "placements": placements, "prices": prices);
    json_text(alloc, &value)
}

#[test]
fn documents_are_written(rt: HostRuntime) -> Result<(), Fail> {
    let found = document(rt.alloc(), &None, &[], &[])?;
    let wanted =
        "{\"\":{\"ok\":\"taken\"},\"a b\":true,\"n\":null,\"placements\":[],\"prices\":[]}";
    assert!(rt; found.as_slice() == wanted.as_bytes());
    let found = document(
        rt.alloc(),
        &Some("a\"\\\n\u{1f}\u{7f}\u{e9}"),
        &[(1, 0, 0), (4_294_967_295, 65_535, 10)],
        &[i64::MIN, -10, -1, 0, 9, i64::MAX],
    )?;
    let wanted = concat!(
        "{\"\":{\"note\":\"a\\\"\\\\\\n\\u001f\u{7f}\u{e9}\",\"ok\":\"taken\"},\"a b\":true,\"n\":null,",
        "\"placements\":[[1,0,0],[4294967295,65535,10]],",
        "\"prices\":[-9223372036854775808,-10,-1,0,9,9223372036854775807]}",
    );
    assert!(rt; found.as_slice() == wanted.as_bytes());
    Ok(())
}

#[test]
fn trees_are_written(rt: HostRuntime) -> Result<(), Fail> {
    let value = Value::from_str(
        rt.alloc(),
        " { \"b\" : [ 1 , null ] , \"a\\n\" : \"\\u00e9\" , \"A\" : {} } ",
    )?;
    let text = Writer::text(rt.alloc(), &value)?;
    assert!(rt; text.as_slice() == "{\"A\":{},\"a\\n\":\"é\",\"b\":[1,null]}".as_bytes());
    Ok(())
}
