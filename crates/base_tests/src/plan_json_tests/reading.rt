// Values and faults at every edge. The seconds are those of GNU `date -u -d TEXT +%s`.

use super::{assert_table, is_answer, spans, text};
use plan_json::{JsonFault, Member, parse_object};
use std::alloc::Global;
use std::test::Fail;

const ROWS: [&str; 75] = [
    r#"small | {"at":-4} | OutOfRange"#,
    r#"small | {"at":-3} | -3"#,
    r#"small | {"at":5} | 5"#,
    r#"small | {"at":6} | OutOfRange"#,
    r#"small | {"at":5.0} | NotWhole"#,
    r#"small | {"at":600e-2} | NotWhole"#,
    r#"small | {"at":"5"} | WrongKind"#,
    r#"small | {"at":false} | WrongKind"#,
    r#"small | {"at":[5]} | WrongKind"#,
    r#"small | {"at":null} | Missing"#,
    r#"small | {"At":5} | Missing"#,
    r#"moment | {"at":0} | 0"#,
    r#"moment | {"at":253402300799} | 253402300799"#,
    r#"moment | {"at":253402300800} | OutOfRange"#,
    r#"moment | {"at":-1} | OutOfRange"#,
    r#"moment | {"at":1e9} | NotWhole"#,
    r#"moment | {"at":true} | WrongKind"#,
    r#"moment | {"at":null} | Missing"#,
    r#"moment | {"at":"1740787200"} | BadMoment"#,
    r#"moment | {"at":"2025-03-01T00:00:00Z"} | 1740787200"#,
    r#"moment | {"at":"2025-03-01 00:00:00"} | 1740787200"#,
    r#"moment | {"at":"2025-03-01T00:00:00+00:00"} | 1740787200"#,
    r#"moment | {"at":"2025-03-01T00:00:00.0"} | 1740787200"#,
    r#"moment | {"at":"2025-03-01 00:00:00.000000000+00:00"} | 1740787200"#,
    r#"moment | {"at":"1970-01-01T00:00:00Z"} | 0"#,
    r#"moment | {"at":"2000-02-29T00:00:00Z"} | 951782400"#,
    r#"moment | {"at":"2024-02-29T12:34:56Z"} | 1709210096"#,
    r#"moment | {"at":"2100-03-01T00:00:00Z"} | 4107542400"#,
    r#"moment | {"at":"9999-12-31T23:59:59Z"} | 253402300799"#,
    r#"moment | {"at":"1969-12-31T23:59:59Z"} | BadMoment"#,
    r#"moment | {"at":"10000-01-01T00:00:00Z"} | BadMoment"#,
    r#"moment | {"at":"2023-02-29T00:00:00Z"} | BadMoment"#,
    r#"moment | {"at":"2100-02-29T00:00:00Z"} | BadMoment"#,
    r#"moment | {"at":"2025-04-31T00:00:00Z"} | BadMoment"#,
    r#"moment | {"at":"2025-13-01T00:00:00Z"} | BadMoment"#,
    r#"moment | {"at":"2025-03-00T00:00:00Z"} | BadMoment"#,
    r#"moment | {"at":"2025-03-01T24:00:00Z"} | BadMoment"#,
    r#"moment | {"at":"2025-03-01T00:60:00Z"} | BadMoment"#,
    r#"moment | {"at":"2016-12-31T23:59:60Z"} | BadMoment"#,
    r#"moment | {"at":"2025-03-01"} | BadMoment"#,
    r#"moment | {"at":"2025-03-01t00:00:00Z"} | BadMoment"#,
    r#"moment | {"at":"2025/03/01T00:00:00Z"} | BadMoment"#,
    r#"moment | {"at":"2025-3-01T00:00:00Z"} | BadMoment"#,
    r#"moment | {"at":"2025-03-01T00:00:00z"} | BadMoment"#,
    r#"moment | {"at":"2025-03-01T00:00:00+01:00"} | BadMoment"#,
    r#"moment | {"at":"2025-03-01T00:00:00-00:00"} | BadMoment"#,
    r#"moment | {"at":"2025-03-01T00:00:00ZZ"} | BadMoment"#,
    r#"moment | {"at":"2025-03-01T00:00:00."} | BadMoment"#,
    r#"moment | {"at":"2025-03-01T00:00:00.5Z"} | BadMoment"#,
    r#"moment | {"at":"2025-03-01T00:00:00.0000000000Z"} | BadMoment"#,
    r#"span | {"at":[0,1]} | 1"#,
    r#"span | {"at":["2025-03-01T00:00:00Z",1740787207]} | 7"#,
    r#"span | {"at":[5,5]} | OutOfRange"#,
    r#"span | {"at":[0,253402300800]} | OutOfRange"#,
    r#"span | {"at":[0]} | WrongKind"#,
    r#"span | {"at":["x",1,2]} | WrongKind"#,
    r#"span | {"at":[null,"x"]} | WrongKind"#,
    r#"span | {"at":["x",null]} | BadMoment"#,
    r#"span | {"at":[1.5,-1]} | NotWhole"#,
    r#"span | {"at":[-1,1.5]} | OutOfRange"#,
    r#"span | {"at":{}} | WrongKind"#,
    r#"spans | {"at":[]} | 0"#,
    r#"spans | {"at":[[7,9],[0,1],[7,9]]} | 3"#,
    r#"spans | {"at":[[5,5],["x"]]} | OutOfRange"#,
    r#"spans | {"at":[[0,1],null]} | WrongKind"#,
    r#"spans | {"at":[[0,1],["x",2]]} | BadMoment"#,
    r#"spans | {"at":[0,1]} | WrongKind"#,
    r#"spans | {"at":5} | WrongKind"#,
    r#"spans | {} | Missing"#,
    r#"text | {"at":""} | OutOfRange"#,
    r#"text | {"at":"a"} | 1"#,
    r#"text | {"at":"M 31"} | 4"#,
    r#"text | {"at":7} | WrongKind"#,
    r#"text | {"at":null} | Missing"#,
    r#"text | {} | Missing"#,
];

#[test]
fn members_are_read(rt: HostRuntime) {
    assert_table(&rt, rt.alloc(), &ROWS);
}

/// A document whose member `at` is `count` times the piece, inside the two ends.
fn repeated(alloc: Global, ends: (&str, &str), piece: &str, count: usize) -> Result<String, Fail> {
    let mut document = String::from_str(alloc, ends.0)?;
    for _ in 0..count {
        document.push_str(piece)?;
    }
    document.push_str(ends.1)?;
    Ok(document)
}

/// Whether so many spans have this answer.
fn has_spans(alloc: Global, count: usize, wanted: &str) -> Result<bool, Fail> {
    let document = repeated(
        alloc,
        ("{\"at\":[[0,1]", "]}"),
        ",[0,1]",
        count.saturating_sub(1),
    )?;
    Ok(is_answer(spans(alloc, document.as_bytes()), wanted))
}

/// Whether a text of so many bytes has this answer.
fn has_text(alloc: Global, count: usize, wanted: &str) -> Result<bool, Fail> {
    let document = repeated(alloc, ("{\"at\":\"", "\"}"), "a", count)?;
    Ok(is_answer(text(alloc, document.as_bytes()), wanted))
}

#[test]
fn lists_and_texts_have_limits(rt: HostRuntime) -> Result<(), Fail> {
    assert!(rt; has_spans(rt.alloc(), 512, "512")?);
    assert!(rt; has_spans(rt.alloc(), 513, "OutOfRange")?);
    assert!(rt; has_text(rt.alloc(), 128, "128")?);
    assert!(rt; has_text(rt.alloc(), 129, "OutOfRange")?);
    Ok(())
}

/// The number of the object that stands in a list.
fn number_in_list(alloc: Global, document: &str) -> Result<u32, JsonFault> {
    let doc = parse_object(alloc, document.as_bytes())?;
    let list = doc.list(Member::Spans, 1, 1)?;
    if list.count() == 0 {
        return Ok(0);
    }
    list.object(0)?.number_or(Member::At, 0, 9, 7)
}

#[test]
fn objects_stand_in_lists(rt: HostRuntime) {
    assert_eq!(rt;
        number_in_list(rt.alloc(), "{\"spans\":[{\"at\":4}]}"),
        Ok(4)
    );
    assert_eq!(rt;
        number_in_list(rt.alloc(), "{\"spans\":[{\"at\":null}]}"),
        Ok(7)
    );
}
