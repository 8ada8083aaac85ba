// How long a request takes.

ghost use Rattle.std.specs.Prelude.{◌≡◌, ◌+◌, ◌≤◌, length, All, sum_by, IfOk};
ghost use Rattle.plan_base.specs.Limits.{most_configurations};
ghost use Rattle.plan_json.specs.Ranges.{IsBetween};
ghost use Rattle.request_model.specs.Ranges.{IsExposure, AreConfigurations};
ghost use Rattle.request_times.specs.Duration.{exposure_ms, request_ms, duration, IsOverhead};

use crate::instrument::Instrument;
use plan_base::MOST_SECONDS;
use request_model::{ConfigDoc, Exposure, RequestDoc, TimeFault};

/// How many seconds the request takes on its instrument: the front padding and, for each configuration, its padding
/// and its exposures with their readouts and changes: 1 to 86,400. The milliseconds of all of it are rounded up once. Fails
/// with [`TimeFault::TooLong`] where that is more than a day, and with nothing else.
pub fn seconds_of(request: &RequestDoc, instrument: Instrument) -> Result<u32, TimeFault>
    requires overhead { IsOverhead instrument }
    requires range { AreConfigurations request.now.configurations }
    ensures value { result ≡ duration instrument request.now.configurations }
    ensures least { IfOk result (λ seconds. 1 ≤ seconds) }
{
    let configurations = request.configurations.as_slice();
    let seconds = request_ms(instrument, configurations).div_ceil(1000);
    if seconds <= u64::from(MOST_SECONDS) {
        Ok(seconds as u32)
    } else {
        Err(TimeFault::TooLong { seconds })
    }
}

fn request_ms(instrument: Instrument, configurations: &[ConfigDoc]) -> u64
    requires overhead { IsOverhead instrument }
    requires range { AreConfigurations configurations.now }
    ensures value { result ≡ request_ms instrument configurations.now }
    ensures small { result ≤ 443_000_000_000_000 }
    ensures least { 1 ≤ result }
{
    let mut sum = u64::from(instrument.front_ms);
    for configuration in configurations {
        sum += configuration_ms(instrument, configuration.exposures.as_slice());
    }
    sum
}

fn configuration_ms(instrument: Instrument, exposures: &[Exposure]) -> u64
    requires overhead { IsOverhead instrument }
    requires count { IsBetween 1 most_configurations (length exposures.now) }
    requires range { All IsExposure exposures.now }
    ensures value { result ≡ instrument.config_ms + sum_by (exposure_ms instrument) exposures.now }
    ensures small { result ≤ 27_650_000_000_000 }
    ensures least { 1 ≤ result }
{
    let mut sum = u64::from(instrument.config_ms);
    for exposure in exposures {
        sum += exposure_ms(instrument, *exposure);
    }
    sum
}

fn exposure_ms(instrument: Instrument, exposure: Exposure) -> u64
    requires overhead { IsOverhead instrument }
    requires range { IsExposure exposure }
    ensures value { result ≡ exposure_ms instrument exposure }
    ensures small { result ≤ 1_728_086_400_000 }
    ensures least { 1 ≤ result }
{
    let each = u64::from(exposure.ms) + u64::from(instrument.readout_ms);
    u64::from(exposure.count) * each + u64::from(instrument.change_ms)
}
