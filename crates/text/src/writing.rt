// Bytes and numbers as hexadecimal text.
ghost use Rattle.std.specs.Prelude.{◌≡◌, ◌%◌, ◌≤◌, [], ◌∷◌, length, map, take, Some};
ghost use Rattle.text.specs.Hex.{pair_of, upper, hex_of, shown_hex4};

use std::fmt;

// Bytes in pairs of lower-case digits, or a dash where there are none.
#[derive(Clone, Copy)]
pub struct Hex<'a>(pub &'a [u8]);

// A number of 16 bits, always in four lower-case digits.
#[derive(Clone, Copy)]
pub struct Hex4(pub u16);

// The lowest four bits of a number, as one upper-case digit.
#[derive(Clone, Copy)]
pub struct HexDigit(pub u8);

// How many bytes go to a writer in one piece.
const PIECE: usize = 32;

// A byte in two digits.
fn pair(b: u8) -> [u8; 2]
    ensures { result ≡ pair_of b }
{
    let digits = b"0123456789abcdef";
    [digits[usize::from(b / 16)], digits[usize::from(b % 16)]]
}

#[tactic(auto, using(crate::proofs::HexShown::spelled_more, crate::proofs::HexShown::spelled_all))]
fn spelled(bytes: &[u8]) -> [[u8; 2]; PIECE]
    requires { length bytes.now ≤ 32 }
    ensures { take (length bytes.now) result ≡ map pair_of bytes.now }
{
    let mut text = [[0; 2]; PIECE];
    // By the index: of a zip over `iter_mut` a proof knows how many elements there are, and no element.
    for (i, b) in bytes.iter().enumerate() {
        text[i] = pair(*b);
    }
    text
}

#[tactic(auto, using(crate::proofs::HexShown::hex_of_none, crate::proofs::HexShown::flat_pairs, crate::proofs::Puts::put_piece))]
impl fmt::Display for Hex<'_> {
    ghost output = { λ h. Some (hex_of h.0.now) };

    fn fmt<W: fmt::Write>(&self, f: &mut fmt::Formatter<W>) -> fmt::Result {
        let bytes = self.0;
        if bytes.is_empty() {
            return f.write_str("-");
        }
        // A piece at a time, since a byte at a time by `{:02x}` takes six times as long.
        for piece in bytes.chunks(PIECE) {
            let text = spelled(piece);
            let digits = text[..piece.len()].as_flattened();
            f.write_str(std::str::from_utf8(digits).unwrap())?;
        }
        Ok(())
    }
}

#[tactic(auto, using(crate::proofs::HexPrinted::four_digits))]
impl fmt::Display for Hex4 {
    ghost output = { λ h. Some (shown_hex4 h.0) };

    fn fmt<W: fmt::Write>(&self, f: &mut fmt::Formatter<W>) -> fmt::Result {
        let n = self.0;
        write!(f, "{}", Hex(&n.to_be_bytes()))
    }
}

#[tactic(auto, using(crate::proofs::HexPrinted::upper_digit))]
impl fmt::Display for HexDigit {
    ghost output = { λ h. Some (upper (h.0 % 16) ∷ []) };

    fn fmt<W: fmt::Write>(&self, f: &mut fmt::Formatter<W>) -> fmt::Result {
        let d = self.0 % 16;
        write!(f, "{d:X}")
    }
}
