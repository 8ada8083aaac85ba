// What an instrument type takes besides its exposures.

/// The overheads of an instrument type, each 0 to 86,400,000 milliseconds.
#[derive(Clone, Copy)]
pub struct Instrument {
    /// Before all else, once a request.
    pub front_ms: u32,
    /// Before each configuration.
    pub config_ms: u32,
    /// After each exposure.
    pub readout_ms: u32,
    /// Once for each instrument configuration, however many exposures it has.
    pub change_ms: u32,
}
