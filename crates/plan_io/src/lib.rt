//! Bytes, lines and gates: where bytes come from and go to, the lines that they hold, what a thread passes, and how a run
//! that reads and writes them begins and ends.
#![tactic(auto)]

mod adapters;
mod block;
mod byte_list;
mod calls;
mod document;
mod gate;
mod held;
mod limits;
mod lines;
mod memory;
mod program;
mod room;
mod sink;
mod source;
mod status;
mod steady;
mod whole;

pub use adapters::{StdSink, StdSource};
pub use byte_list::ByteList;
pub use document::{Answer, Answers, Said, run_document};
pub use gate::{Gate, NoGate, Point};
pub use limits::{MOST_BYTES, MOST_LINES};
pub use lines::{LineAnswer, Lines, ScriptLine};
pub use memory::{MemSink, MemSource};
pub use program::{exit_code, program_words};
pub use sink::{PutAnswer, Sink, WriteAnswer, put};
pub use source::{ReadAnswer, Source};
pub use status::Status;
pub use steady::{SteadySink, SteadySource};
pub use whole::{WholeAnswer, read_whole};
