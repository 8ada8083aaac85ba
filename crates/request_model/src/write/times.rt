// When a request may be observed, as it is written.

ghost use Rattle.request_model.specs.Written.{cadence_data, window_data};

use crate::request::Cadence;
use plan_base::Span;
use plan_json::{Form, Json, object};
use std::alloc::AllocError;

impl Json for Cadence {
    ghost value = { cadence_data };

    ghost levels = { 1 };

    fn write(&self, out: &mut Vec<u8>) -> Result<(), AllocError> {
        object!(
            "end": self.end,
            "jitter": self.jitter,
            "period": self.period,
            "start": self.start,
        )
        .write(out)
    }
}

/// Spans as windows: objects with start and end.
#[derive(Drop)]
pub(crate) struct AsWindows;

impl Form<Span> for AsWindows {
    ghost value_of = { λ _. window_data };

    ghost levels = { 1 };

    fn write_value(&self, window: &Span, out: &mut Vec<u8>) -> Result<(), AllocError> {
        object!("end": window.to, "start": window.from).write(out)
    }
}
