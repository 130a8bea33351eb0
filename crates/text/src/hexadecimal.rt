// Bytes that words write in hexadecimal.
ghost use Rattle.std.specs.Prelude.{◌≡◌, IfOk, vec_items};
ghost use Rattle.std.specs.Option.{option_map};
ghost use Rattle.text.specs.Hex.{byte_of, pairs_of, bytes_of, hex4_of, BytesComeBack, Hex4ComesBack};

use std::alloc::{AllocError, Global};

#[tactic(auto, using(crate::proofs::HexPairs::two_nibbles))]
fn byte(high: u8, low: u8) -> Option<u8>
    ensures { result ≡ byte_of high low }
{
    let high = char::from(high).to_digit(16)?;
    let low = char::from(low).to_digit(16)?;
    u8::try_from(high * 16 + low).ok()
}

fn pairs(heap: Global, word: &[u8]) -> Result<Option<Vec<u8>>, AllocError>
    ensures { IfOk result (λ o. option_map vec_items o ≡ pairs_of word.now) }
{
    let (pairs, over) = word.as_chunks::<2>();
    let mut bytes = Vec::new(heap);
    for [high, low] in pairs {
        let Some(b) = byte(*high, *low) else {
            return Ok(None);
        };
        bytes.push(b)?;
    }
    Ok(over.is_empty().then_some(bytes))
}

// Pairs of digits, or a dash for no bytes.
#[tactic(auto, using(crate::proofs::HexShown::bytes_back))]
pub fn bytes(heap: Global, word: &[u8]) -> Result<Option<Vec<u8>>, AllocError>
    ensures value { IfOk result (λ o. option_map vec_items o ≡ bytes_of word.now) }
    ensures reads_back { BytesComeBack }
{
    match word {
        [] => Ok(None),
        [b'-'] => Ok(Some(Vec::new(heap))),
        _ => pairs(heap, word),
    }
}

// Just four digits, so that a shorter number has zeros in front.
#[tactic(auto, using(crate::proofs::HexShown::hex4_back))]
pub fn hex4(word: &[u8]) -> Option<u16>
    ensures value { result ≡ hex4_of word.now }
    ensures reads_back { Hex4ComesBack }
{
    let [a, b, c, d] = word else {
        return None;
    };
    let high = byte(*a, *b)?;
    let low = byte(*c, *d)?;
    Some(u16::from_be_bytes([high, low]))
}
