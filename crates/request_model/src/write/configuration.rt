// What is taken of one target, as it is written.

ghost use Rattle.request_model.specs.Written.{exposure_data, configuration_data};

use crate::request::{ConfigDoc, Exposure};
use plan_base::Name;
use plan_json::{Form, Json, object};
use std::alloc::AllocError;

impl Json for Exposure {
    ghost value = { exposure_data };

    ghost levels = { 1 };

    fn write(&self, out: &mut Vec<u8>) -> Result<(), AllocError> {
        object!("exposure_count": self.count, "exposure_time_ms": self.ms).write(out)
    }
}

/// Configurations of one instrument type.
#[derive(Drop)]
pub(crate) struct OfType<'a> {
    /// The instrument type.
    pub instrument: &'a Name,
}

impl<'a> Form<ConfigDoc> for OfType<'a> {
    ghost value_of = { λ of_type. configuration_data of_type.instrument.now };

    ghost levels = { 3 };

    fn write_value(&self, configuration: &ConfigDoc, out: &mut Vec<u8>) -> Result<(), AllocError> {
        object!(
            "instrument_configs": &configuration.exposures,
            "instrument_type": self.instrument,
            "target": object!("name": &configuration.target),
        )
        .write(out)
    }
}
