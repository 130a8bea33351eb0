// What a line asks for, by its words.
ghost use Rattle.std.specs.Prelude.{◌≡◌, map, IfOk, vec_items};
ghost use Rattle.std.specs.Option.{option_map};
ghost use Rattle.sheet.specs.Asks.{ask_of, wire_line, first_fate, fates_in, fates_line, call_line, shown, by_first, asked};
ghost use Rattle.sheet.specs.Lines.{Gives, silent};
ghost use Rattle.text.specs.Pieces.{words_of};

use crate::coding::{code_line, decode_line, lines_line, unlines_line};
use crate::lookups::{fields_line, frame_line};
use crate::outcome::Outcome;
use crate::reading::{is, width};
use crate::request::{Request, WireKind};
use crate::trouble::Trouble;
use std::alloc::{AllocError, Global};
use text::{bytes, count, number, words};
use wire::Fate;

// `wire w plain COUNT`, `wire w wide` and `wire w narrow`.
#[tactic(auto, using(crate::proofs::Words::words), unfolding(crate::specs::Asks::wire_line))]
fn wire_line(words: &[&[u8]]) -> Result<Request, Trouble>
    ensures { ask_of result ≡ wire_line (map (λ x. x.now) words.now) }
{
    let kind = match words {
        [_, wire, kind, places] if is(wire, "w") && is(kind, "plain") => {
            count(places).map(WireKind::Plain)
        }
        [_, wire, kind] if is(wire, "w") => width(kind).map(WireKind::Line),
        _ => None,
    };
    Ok(Request::WireIs(kind.ok_or(Trouble::NotUnderstood)?))
}

// `w put BYTES` and `w next`.
#[tactic(auto, using(crate::proofs::Words::words), unfolding(crate::specs::Asks::call_line))]
fn call_line(heap: Global, words: &[&[u8]]) -> Result<Request, Trouble>
    ensures { Gives (ask_of result) (call_line (map (λ x. x.now) words.now)) }
{
    match words {
        [_, call, frame] if is(call, "put") => {
            let frame = bytes(heap, frame)?.ok_or(Trouble::NotUnderstood)?;
            Ok(Request::Puts(frame))
        }
        [_, call] if is(call, "next") => Ok(Request::Nexts),
        _ => Err(Trouble::NotUnderstood),
    }
}

// The fate that the first words say, and how many these are: `pass`, `lose` or `flip NUMBER`.
// A number, since no proof follows a loop over slices that a call hands back; an if for each word, since guards over
// slice patterns leave paths that no proof closes.
#[tactic(auto, using(crate::proofs::Words::cuts))]
fn first_fate(words: &[&[u8]]) -> Option<(Fate, usize)>
    ensures { result ≡ first_fate (map (λ x. x.now) words.now) }
{
    let [word, rest @ ..] = words else {
        return None;
    };
    if is(word, "pass") {
        Some((Fate::Pass, 1))
    } else if is(word, "lose") {
        Some((Fate::Lose, 1))
    } else if is(word, "flip") {
        let [bit, ..] = rest else {
            return None;
        };
        Some((Fate::Flip(number(bit)?), 2))
    } else {
        None
    }
}

// Fates by their words.
fn fates_in(heap: Global, words: &[&[u8]]) -> Result<Option<Vec<Fate>>, AllocError>
    ensures { IfOk result (λ o. option_map vec_items o ≡ fates_in (map (λ x. x.now) words.now)) }
{
    let mut fates = Vec::new(heap);
    let mut rest = words;
    while let Some((fate, taken)) = first_fate(rest) {
        fates.push(fate)?;
        rest = &rest[taken..];
    }
    Ok(rest.is_empty().then_some(fates))
}

// `fates w FATE ..`, one at least.
#[tactic(auto, using(crate::proofs::Words::words), unfolding(crate::specs::Asks::fates_line))]
fn fates_line(heap: Global, words: &[&[u8]]) -> Result<Request, Trouble>
    ensures { Gives (ask_of result) (fates_line (map (λ x. x.now) words.now)) }
{
    match words {
        [_, wire, fates @ ..] if is(wire, "w") && !fates.is_empty() => {
            let fates = fates_in(heap, fates)?.ok_or(Trouble::NotUnderstood)?;
            Ok(Request::FatesAre(fates))
        }
        _ => Err(Trouble::NotUnderstood),
    }
}

// A line with no word, and one whose first word begins with a hash sign, do nothing.
fn is_silent(first: &[u8]) -> bool
    ensures { result ≡ silent first.now }
{
    matches!(first, [] | [b'#', ..])
}

// A look-up asks for its outcome to be shown.
fn shows(found: Result<Outcome, Trouble>) -> Result<Request, Trouble>
    ensures { ask_of result ≡ shown found }
{
    Ok(Request::Shows(Some(found?)))
}

// What a line asks for, by its first word.
#[tactic(auto, using(crate::proofs::Words::texts, crate::proofs::Words::no_long_first), unfolding(crate::specs::Lines::says))]
fn asked_by(heap: Global, first: &[u8], words: &[&[u8]]) -> Result<Request, Trouble>
    ensures { Gives (ask_of result) (by_first first.now (map (λ x. x.now) words.now)) }
{
    // None of the words below is longer, and a longer one is not looked through.
    if first.len() > 7 {
        return Err(Trouble::NotUnderstood);
    }
    // As text, since of byte strings each byte would be a case of its own to prove.
    let Ok(first) = std::str::from_utf8(first) else {
        return Err(Trouble::NotUnderstood);
    };
    match first {
        "frame" => shows(frame_line(heap, words)),
        "fields" => shows(fields_line(heap, words)),
        "code" => shows(code_line(words)),
        "decode" => shows(decode_line(words)),
        "lines" => shows(lines_line(heap, words)),
        "unlines" => shows(unlines_line(heap, words)),
        "wire" => wire_line(words),
        "fates" => fates_line(heap, words),
        "w" => call_line(heap, words),
        _ => Err(Trouble::NotUnderstood),
    }
}

// What a line asks for, by its words.
#[tactic(auto, using(crate::proofs::Words::words))]
fn request_in(heap: Global, words: &[&[u8]]) -> Result<Request, Trouble>
    ensures { Gives (ask_of result) (asked (map (λ x. x.now) words.now)) }
{
    match words {
        [first, ..] if !is_silent(first) => asked_by(heap, first, words),
        _ => Ok(Request::Shows(None)),
    }
}

// What a line asks for. That memory ran out is no trouble of the line.
pub(crate) fn request(heap: Global, line: &[u8]) -> Result<Result<Request, Trouble>, AllocError>
    ensures { IfOk result (λ q. ask_of q ≡ asked (words_of line.now)) }
{
    let words = words(heap, line)?;
    match request_in(heap, &words) {
        Err(Trouble::OutOfMemory(error)) => Err(error),
        asked => Ok(asked),
    }
}
