// The code of a group: four bits go out as five, so that a line carries about as many ones as zeros.
ghost use Rattle.std.specs.Prelude.{◌≡◌, ℕ, ◌<◌, ℤ, pos, int_lt, if◌then◌else◌, true, Ok};
ghost use Rattle.line.specs.Tables.{Good, Stays, Known, standard_rows};
ghost use Rattle.line.specs.Code.{group_of, word_for, in_range, coded, decoded, decoding};

use crate::table::CodeTable;
use frame::Refusal;

// The word of a row: the first where the count is below 0, else the second.
// By reference, since a row by value makes the choice a branch, and a frame takes nearly half as long again.
fn word(row: &(u8, u8), count: i8) -> u8
    ensures { result ≡ (if int_lt count (pos 0) then row.now.0 else row.now.1) }
{
    let (below, other) = *row;
    if count < 0 { below } else { other }
}

// A group at a count: its word together with the count after it, which moves by the ones of the word less its zeros.
#[tactic(auto, using(crate::proofs::Laws::moves))]
pub(crate) fn group(table: &CodeTable, code: u8, count: i8) -> (u8, i8)
    requires code { code < 16 }
    requires count { in_range count ≡ true }
    ensures { result ≡ group_of table.now code count }
{
    let word = word(&table[usize::from(code)], count);
    // A cast, since a byte has at most eight ones.
    let ones = word.count_ones() as i8;
    (word, count + (ones - (5 - ones)))
}

// A code of four bits at a Disparity Count from -5 to 4.
// A pair, since coding a group answers just these two: the word, and the count after it.
#[tactic(auto, using(crate::proofs::Laws::known))]
pub fn code_group(table: &CodeTable, code: u64, count: i64) -> Result<(u8, i8), Refusal>
    ensures is { result ≡ coded table.now code count }
    ensures stays { Good table.now → Stays result }
    ensures known { Good table.now → Known table.now code result }
{
    match (u8::try_from(code), i8::try_from(count)) {
        (Ok(code @ 0..16), Ok(count @ -5..=4)) => Ok(group(table, code, count)),
        _ => Err(Refusal::BadSize),
    }
}

// The code of a word: the outer bits as they are where the middle bit T is 1, else complemented.
pub(crate) fn code_of(word: u8) -> u8
    requires { word < 32 }
    ensures is { result ≡ decoded word }
    ensures small { result < 16 }
{
    let outer = word / 8 * 4 + word % 4;
    if word / 4 % 2 == 1 { outer } else { 15 - outer }
}

// The code of a group that came in: every word of five bits has one.
#[tactic(auto, using(crate::proofs::Laws::undoing))]
pub fn decode_group(group: u64) -> Result<u8, Refusal>
    ensures is { result ≡ decoding group }
    ensures undoes { (code : ℕ) (count : ℤ) → code < 16 → group ≡ word_for standard_rows code count → result ≡ Ok code }
{
    match u8::try_from(group) {
        Ok(word @ 0..32) => Ok(code_of(word)),
        _ => Err(Refusal::BadSize),
    }
}
