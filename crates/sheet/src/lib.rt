// A sheet's bytes to its print.
#![tactic(auto)]

mod asking;
mod coding;
mod desk;
mod lookups;
mod outcome;
mod printing;
mod reading;
mod request;
mod running;
mod showing;
mod trouble;

pub use running::replay;
