// JSON written straight into a buffer, without a tree of values.

mod bytes;
mod list;
mod object;
mod quoted;
mod text;
mod value;

pub use list::{Each, Form};
pub use object::{End, Members, Named, Object, Perhaps};
pub use text::{add_line, json_text, line_text, write_json};
pub use value::{Json, Word, above_0};
