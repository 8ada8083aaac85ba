// Groups read from documents.

mod configuration;
mod group;
mod location;
mod request;
mod when;

pub use group::read_group;
