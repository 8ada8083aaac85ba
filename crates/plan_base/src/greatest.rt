// The limits of what is planned and kept, each named once.

/// The most changes that a desk accepts, and so its greatest version.
pub const MOST_VERSION: u32 = 524_288;

/// The shortest slice, in seconds.
pub const LEAST_LEN: u32 = 60;

/// The longest slice, in seconds.
pub const MOST_LEN: u32 = 3_600;

/// The last slice that a horizon may begin with.
pub const MOST_FIRST: u32 = 4_223_371_680;

/// The greatest size of a price in a claim that is certified.
pub const MOST_PRICE: i64 = 1_000_000_000_000;

/// The greatest price of a second of a quota in a claim that is certified.
pub const MOST_QUOTA_PRICE: u32 = 200_000;

/// The most seconds that a quota may have.
pub const MOST_QUOTA: u64 = 100_000_000;

/// The longest observation, in seconds: a day.
pub const MOST_SECONDS: u32 = 86_400;

/// The longest exposure and the greatest overhead, in milliseconds: a day.
pub const MOST_MS: u32 = 86_400_000;

/// The greatest period and jitter of a cadence, in seconds: 180 days.
pub const MOST_PERIOD: u32 = 15_552_000;

/// The greatest value of a request.
pub const MOST_VALUE: u32 = 288_000_000;

/// The last second that a span may name, since a horizon may end after the last moment that a line can name.
pub const MOST_MOMENT: u64 = 1_000_000_000_000;

/// The most slices of a horizon.
pub const MOST_SLICES: u32 = 1_440;

/// The most lanes of rounds of prices that a plan is sought in.
pub const MOST_LANES: u32 = 8;

/// The most rounds of a lane.
pub const MOST_ROUNDS: u32 = 256;

/// The most workers that seek a plan.
pub const MOST_WORKERS: u32 = 8;

/// The most requests of a snapshot, which a desk has pending, and so the most placements of a plan; the most groups
/// and quotas.
pub const MOST_PENDING: usize = 1_024;

/// The most requests of a group: those of a cadence.
pub const MOST_MEMBERS: usize = 256;

/// The most requests that a document lists, and so the most of a `ONEOF` or an `AND`.
pub const MOST_ASKED: usize = 32;

/// The most windows of a request.
pub const MOST_WINDOWS: u32 = 32;

/// The most configurations of a request, and so the most targets; the most lengths of exposures of a configuration.
pub const MOST_CONFIGURATIONS: u32 = 16;

/// The most exposures of one length.
pub const MOST_EXPOSURES: u32 = 10_000;

/// The most thousandths of its value that a request loses with each slice of delay: all of it.
pub const MOST_FADE: u32 = 1_000;

/// All of an observation, in percent.
pub const MOST_PERCENT: u32 = 100;

/// The least intra-proposal priority, in thousandths.
pub const LEAST_IPP: u32 = 500;

/// The greatest intra-proposal priority, in thousandths.
pub const MOST_IPP: u32 = 2_000;

/// The greatest priority.
pub const MOST_PRIORITY: u32 = 100;

/// The most bytes of a name, and of a text of a line that is no document.
pub const MOST_NAME: usize = 128;

/// The most accounts of a desk.
pub const MOST_ACCOUNTS: usize = 1_024;

/// The most seconds that one line grants.
pub const MOST_GRANT: u32 = 1_000_000_000;

/// The most instrument types that a telescope carries.
pub const MOST_CARRIED: u32 = 16;

/// The most callers that a desk has at once.
pub const MOST_CALLERS: u8 = 8;

/// The most telescopes.
pub const MOST_TELESCOPES: usize = 32;

/// The most spans of all skies.
pub const MOST_VISIBILITY: usize = 262_144;

/// The most spans of a list in a line.
pub const MOST_SPANS: u32 = 512;

/// The most possible starts of a snapshot that is planned.
pub const MOST_STARTS: u64 = 1_048_576;
