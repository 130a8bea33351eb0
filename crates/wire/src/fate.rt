// What is to become of one frame: a fault layer has a list of such fates, one for each put that is not refused.
#[derive(Clone, Copy, PartialEq, Eq, Debug)]
pub enum Fate {
    Pass,
    Lose,
    // Bit n mod 8 of byte n div 8 is turned over, where n is from 0 to 319 and the frame was good; else it passes.
    Flip(u64),
}
