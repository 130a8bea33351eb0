// The lines of a sheet.
ghost use Rattle.std.specs.Prelude.{map, IfOk};
ghost use Rattle.text.specs.Pieces.{CutIntoLines};

use std::alloc::{AllocError, Global};

// The pieces between line feeds; the last may be empty.
pub fn lines<'a>(heap: Global, sheet: &'a [u8]) -> Result<Vec<&'a [u8]>, AllocError>
    ensures { IfOk result (λ v. CutIntoLines sheet.now (map (λ x. x.now) v.items)) }
{
    // By hand: an edit that moves a border by one byte has no place in `split`.
    let mut pieces = Vec::new(heap);
    let mut start = 0;
    for (i, b) in sheet.iter().enumerate() {
        if *b == b'\n' {
            pieces.push(&sheet[start..i])?;
            start = i + 1;
        }
    }
    pieces.push(&sheet[start..])?;
    Ok(pieces)
}
