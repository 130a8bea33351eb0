// The Disparity Counts of all lines, data lines before control lines: as many as the width has lines.
ghost use Rattle.std.specs.Prelude.{◌≡◌, true};
ghost use Rattle.std.specs.List.{list_all};
ghost use Rattle.line.specs.Code.{in_range};
ghost use Rattle.line.specs.Groups.{counts_of, fresh, width_of};

use crate::width::Width;

#[derive(Clone, Copy)]
pub enum Counts {
    Wide([i8; 20]),
    Narrow([i8; 10]),
}

impl Counts {
    // Every line begins at 0.
    pub fn new(width: Width) -> Self
        ensures is { result ≡ fresh width }
        ensures stay { list_all in_range (counts_of result) ≡ true }
    {
        match width {
            Width::Wide => Counts::Wide([0; 20]),
            Width::Narrow => Counts::Narrow([0; 10]),
        }
    }

    pub fn width(self) -> Width
        ensures { result ≡ width_of self }
    {
        match self {
            Counts::Wide(_) => Width::Wide,
            Counts::Narrow(_) => Width::Narrow,
        }
    }

    // The counts alone.
    fn as_slice(&self) -> &[i8]
        ensures { result.now ≡ counts_of self.now }
    {
        match self {
            Counts::Wide(counts) => counts,
            Counts::Narrow(counts) => counts,
        }
    }

    // Between groups a count is from -5 to 4. Tested at each call, since callers make counts of any bytes.
    pub(crate) fn are_in_range(&self) -> bool
        ensures { result ≡ list_all in_range (counts_of self.now) }
    {
        self.as_slice().iter().all(|count| (-5..=4).contains(count))
    }
}
