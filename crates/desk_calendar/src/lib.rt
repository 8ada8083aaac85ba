// The nights of sites, the skies of targets, and when telescopes are closed, as the lines and the printed replies of a history tell it.
#![tactic(auto)]

mod laws;

pub use laws::{
    closures_are_told, nights_are_told, skies_are_told, telescopes_are_told,
    usable_seconds_are_told,
};
