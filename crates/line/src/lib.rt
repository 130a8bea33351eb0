// A frame on the signal lines: the code of a group of four bits, where each bit of a frame stands, and the groups of a frame.
#![tactic(auto)]

mod code;
mod counts;
mod groups;
mod places;
mod table;
mod width;

pub use code::{code_group, decode_group};
pub use counts::Counts;
pub use groups::{GROUPS_SIZE, Groups, frame_to_groups, groups_to_frame};
pub use places::place_of;
pub use table::{CodeTable, standard};
pub use width::Width;

#[cfg(test)]
mod tests;
