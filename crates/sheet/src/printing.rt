// What is printed of a line's answer, with the line's number.
ghost use Rattle.std.specs.Prelude.{◌≡◌, ◌++◌, string_bytes, OnOk};
ghost use Rattle.sheet.specs.Print.{shown_line};

use crate::outcome::Outcome;
use crate::trouble::Trouble;
use std::alloc::AllocError;

// What a line answers: an outcome to show, nothing to show, or trouble.
pub type Answer = Result<Option<Outcome>, Trouble>;

// Writes what line n answered, if anything.
pub(crate) fn put_answer(out: &mut String, n: usize, answer: &Answer) -> Result<(), AllocError>
    ensures { OnOk result (string_bytes out.new ≡ string_bytes out.old ++ shown_line n answer.now) }
{
    match answer {
        Ok(None) => Ok(()),
        Ok(Some(outcome)) => writeln!(out, "{n}: {outcome}"),
        Err(trouble) => writeln!(out, "{n}: {trouble}"),
    }
}
