// Groups written as documents.

mod configuration;
mod group;
mod request;
mod times;

pub use group::write_group;
