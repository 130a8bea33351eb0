// What words of a line say.
ghost use Rattle.std.specs.Prelude.{◌≡◌, map};
ghost use Rattle.sheet.specs.Lines.{says, width_in, numbers_in};

use frame::Numbers;
use line::Width;
use text::{bit, hex4, number};

// Whether a word is this one: one name for a comparison of bytes with text, as guards need it.
pub(crate) fn is(word: &[u8], text: &str) -> bool
    ensures { result ≡ says word.now text.now }
{
    word == text.as_bytes()
}

// The width of a system of lines, by its word.
#[tactic(auto, using(crate::proofs::Words::texts, crate::proofs::Words::no_long_width), unfolding(crate::specs::Lines::says))]
pub(crate) fn width(word: &[u8]) -> Option<Width>
    ensures { result ≡ width_in word.now }
{
    // Neither word is longer, and a longer one is not looked through.
    if word.len() > 6 {
        return None;
    }
    match std::str::from_utf8(word).ok()? {
        "wide" => Some(Width::Wide),
        "narrow" => Some(Width::Narrow),
        _ => None,
    }
}

// Words 1 to 10 of a line `frame`: all fields but the data.
#[tactic(auto, using(crate::proofs::Words::words))]
pub(crate) fn numbers_in(words: &[&[u8]; 12]) -> Option<Numbers>
    ensures { result ≡ numbers_in (map (λ x. x.now) words.now) }
{
    let [_, vc, kind, tail, error, vcr, cr, rseq, tseq, ecrc, lcrc, _] = words;
    Some(Numbers {
        vc: number(vc)?,
        kind: number(kind)?,
        tail: bit(tail)?,
        error: bit(error)?,
        vcr: number(vcr)?,
        cr: number(cr)?,
        rseq: number(rseq)?,
        tseq: number(tseq)?,
        ecrc: hex4(ecrc)?,
        lcrc: hex4(lcrc)?,
    })
}
