// What the micropackets of a Message are, for those that load a Message and those that read one, and a reader that
// puts Messages together again.
#![tactic(auto)]

mod copying;
mod heading;
mod making;
mod opening;
mod reader;
mod reading;
#[cfg(test)]
mod tests;

pub use heading::Heading;
pub use making::{IN_DATA, IN_HEADER, longest, piece};
pub use opening::Opening;
pub use reader::{Read, Reader, Taken};
