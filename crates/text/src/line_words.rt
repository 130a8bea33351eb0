// The words of a line.
ghost use Rattle.std.specs.Prelude.{◌≡◌, map, IfOk};
ghost use Rattle.text.specs.Pieces.{separates, CutIntoWords};

use std::alloc::{AllocError, Global};

fn is_separator(b: u8) -> bool
    ensures { result ≡ separates b }
{
    matches!(b, b' ' | b'\t' | b'\r')
}

// The pieces between spaces, tabs and carriage returns that are not empty.
pub fn words<'a>(heap: Global, line: &'a [u8]) -> Result<Vec<&'a [u8]>, AllocError>
    ensures { IfOk result (λ v. CutIntoWords line.now (map (λ x. x.now) v.items)) }
{
    // By hand: `split` makes an empty piece for each separator, which takes twice as long where there are many, and an
    // edit that moves a border by one byte has no place in it.
    let mut words = Vec::new(heap);
    let mut start = 0;
    for (i, b) in line.iter().enumerate() {
        if is_separator(*b) {
            if start < i {
                words.push(&line[start..i])?;
            }
            start = i + 1;
        }
    }
    if start < line.len() {
        words.push(&line[start..])?;
    }
    Ok(words)
}
