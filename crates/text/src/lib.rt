// The text of a sheet: its lines, their words, the numbers and bytes that words write, and bytes as text.
#![tactic(auto)]

mod hexadecimal;
mod line_words;
mod numbers;
mod sheet_lines;
pub mod writing;

pub use hexadecimal::{bytes, hex4};
pub use line_words::words;
pub use numbers::{bit, count, number, signed};
pub use sheet_lines::lines;

#[cfg(test)]
mod tests;
