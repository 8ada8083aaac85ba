// The numbers that name things, each a type of its own.

/// A moment: whole seconds since 1970-01-01T00:00:00Z, without leap seconds.
#[derive(Clone, Copy, PartialEq, Eq, PartialOrd, Ord, Hash)]
pub struct Sec(pub u64);

/// A slice of time: slice `k` is `[k * len, (k + 1) * len)` seconds.
#[derive(Clone, Copy, Debug, PartialEq, Eq, PartialOrd, Ord, Hash)]
pub struct SliceNo(pub u32);

/// A telescope: its place, from 0, in the snapshot's list of at most 32.
#[derive(Clone, Copy, Debug, PartialEq, Eq, PartialOrd, Ord, Hash)]
pub struct TelescopeNo(pub u16);

/// A site, where telescopes share the night: a desk numbers at most 16 from 0.
#[derive(Clone, Copy, PartialEq, Eq, PartialOrd, Ord, Hash)]
pub struct SiteNo(pub u16);

/// A target on the sky: a desk numbers at most 2,048 from 0.
#[derive(Clone, Copy, PartialEq, Eq, PartialOrd, Ord, Hash)]
pub struct TargetNo(pub u16);

/// A request: one observation that is asked for. A desk numbers them from 1.
#[derive(Clone, Copy, Debug, PartialEq, Eq, PartialOrd, Ord, Hash)]
pub struct RequestNo(pub u32);

/// A request group. A desk numbers them from 1.
#[derive(Clone, Copy, Debug, PartialEq, Eq, PartialOrd, Ord, Hash)]
pub struct GroupNo(pub u32);
