// The lines of a desk with a telescope, a sky and time for three groups of one request.

use plan_base::Settings;
use plan_io::{ByteList, ScriptLine};
use std::alloc::{AllocError, Global};

/// What the desk is opened with, as the line says it.
pub const SETTINGS: Settings = Settings {
    lanes: 1,
    rounds: 8,
    workers: 1,
};

const OPEN: &str =
    r#"{"do":"open","now":0,"slice":300,"horizon":12,"semester":[0,15552000],"lanes":1,"rounds":8,"workers":1}"#;

const INSTRUMENT: &str =
    r#"{"do":"instrument","type":"1M0-SCICAM-SINISTRO","front_ms":0,"config_ms":0,"readout_ms":0,"change_ms":0}"#;

const TELESCOPE: &str =
    r#"{"do":"telescope","site":"coj","enclosure":"doma","telescope":"1m0a","class":"1m0","instruments":["1M0-SCICAM-SINISTRO"]}"#;

const NIGHT: &str = r#"{"do":"night","site":"coj","spans":[[0,3600]]}"#;

const SKY: &str = r#"{"do":"visibility","target":"M51","site":"coj","spans":[[0,3600]]}"#;

const GRANT: &str =
    r#"{"do":"grant","proposal":"P1","account":"standard","instrument_type":"1M0-SCICAM-SINISTRO","seconds":1000}"#;

/// A group of one request is submitted.
pub const SUBMIT: &str =
    r#"{"do":"submit","group":{"name":"g","proposal":"P1","operator":"SINGLE","observation_type":"NORMAL","requests":[{"location":{"telescope_class":"1m0"},"windows":[{"start":0,"end":3600}],"configurations":[{"instrument_type":"1M0-SCICAM-SINISTRO","target":{"name":"M51"},"instrument_configs":[{"exposure_time_ms":300000,"exposure_count":1}]}]}]}}"#;

/// A plan is asked for.
pub const PLAN: &str = r#"{"do":"plan"}"#;

/// The lines from the opening to the first group, sent by caller 0, with their replies.
pub const OPENING: [(&str, &str); 7] = [
    (
        OPEN,
        "{\"caller\":0,\"line\":1,\"ok\":\"opened\",\"version\":0}\n",
    ),
    (
        INSTRUMENT,
        "{\"caller\":0,\"line\":2,\"ok\":\"instrument\",\"version\":1}\n",
    ),
    (
        TELESCOPE,
        "{\"caller\":0,\"line\":3,\"ok\":\"telescope\",\"telescope\":0,\"version\":2}\n",
    ),
    (
        NIGHT,
        "{\"caller\":0,\"line\":4,\"ok\":\"night\",\"version\":3}\n",
    ),
    (
        SKY,
        "{\"caller\":0,\"line\":5,\"ok\":\"visibility\",\"version\":4}\n",
    ),
    (
        GRANT,
        "{\"balance\":1000,\"caller\":0,\"line\":6,\"ok\":\"granted\",\"version\":5}\n",
    ),
    (
        SUBMIT,
        "{\"caller\":0,\"group\":1,\"ipp_charged\":0,\"line\":7,\"ok\":\"submitted\",\"requests\":[1],\"version\":6}\n",
    ),
];

/// A line with this text.
pub fn line_of(alloc: Global, text: &str) -> Result<ScriptLine, AllocError> {
    let bytes = Vec::from_slice(alloc, text.as_bytes())?;
    Ok(ScriptLine::Bytes(ByteList::from(bytes)))
}

/// The replies to the opening, and then these.
pub fn replies_of_opening_then(alloc: Global, replies: &str) -> Result<Vec<u8>, AllocError> {
    let mut text = Vec::new(alloc);
    for (_, reply) in OPENING {
        text.extend_from_slice(reply.as_bytes())?;
    }
    text.extend_from_slice(replies.as_bytes())?;
    Ok(text)
}
