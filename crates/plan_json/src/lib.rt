// JSON documents: objects, lists, their members, moments, and the writer.
#![tactic(auto)]

mod doc;
mod element;
mod fault;
mod laws;
mod list;
mod member;
mod moment;
mod operator;
mod value;
mod write;
mod writer;

pub use doc::{Doc, parse_object};
pub use element::{Element, read_list};
pub use fault::JsonFault;
pub use laws::{lines_are_distinct, lines_are_read_back, texts_are_distinct, texts_are_read_back};
pub use list::DocList;
pub use member::Member;
pub use moment::moments_are_read;
pub use write::{
    Each, End, Form, Json, Members, Named, Object, Perhaps, Word, above_0, add_line, json_text,
    line_text, write_json,
};
pub use writer::Writer;
