// Published vectors and sizes at their borders, run against the crates below the sheet.
#![tactic(auto)]

#[cfg(test)]
mod tests;
