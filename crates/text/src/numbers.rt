// The numbers that words write.
ghost use Rattle.std.specs.Prelude.{◌≡◌, ◌+◌, ◌-◌, ◌*◌, ◌^◌, option_and_then};
ghost use Rattle.text.specs.Numbers.{digit_of, within, number_of, signed_of, bit_of, NumbersComeBack};

// The number that n and one more digit write, unless it is past the largest.
fn grown(n: u64, c: u8) -> Option<u64>
    ensures { result ≡ option_and_then (λ d. within (2 ^ 64 - 1) (n * 10 + d)) (digit_of c) }
{
    let digit = char::from(c).to_digit(10)?;
    n.checked_mul(10)?.checked_add(u64::from(digit))
}

// One or more digits, with leading zeros of any length, since the limit is on the number and not on the word.
// What `{n}` writes of a number is read back.
#[tactic(auto, using(crate::proofs::Decimal::numbers_back, crate::proofs::Decimal::stops, crate::proofs::Decimal::goes_on, crate::proofs::Decimal::all_read, crate::proofs::Decimal::no_number, crate::proofs::Decimal::is_number))]
pub fn number(word: &[u8]) -> Option<u64>
    ensures value { result ≡ number_of (2 ^ 64 - 1) word.now }
    ensures reads_back { NumbersComeBack }
{
    if word.is_empty() {
        return None;
    }
    // By hand, since `parse` takes a plus sign too.
    let mut n = 0;
    for c in word {
        n = grown(n, *c)?;
    }
    Some(n)
}

#[tactic(auto, using(crate::proofs::Decimal::count_none, crate::proofs::Decimal::count_some))]
pub fn count(word: &[u8]) -> Option<u16>
    ensures { result ≡ number_of 65535 word.now }
{
    u16::try_from(number(word)?).ok()
}

// There is one number more with a minus sign than with none, as in two's complement.
#[tactic(auto, using(crate::proofs::Decimal::minus_none, crate::proofs::Decimal::minus_past, crate::proofs::Decimal::minus_some, crate::proofs::Decimal::alone_none, crate::proofs::Decimal::alone_some))]
pub fn signed(word: &[u8]) -> Option<i32>
    ensures { result ≡ signed_of word.now }
{
    match word {
        [b'-', digits @ ..] => 0i32.checked_sub_unsigned(u32::try_from(number(digits)?).ok()?),
        _ => i32::try_from(number(word)?).ok(),
    }
}

pub fn bit(word: &[u8]) -> Option<bool>
    ensures { result ≡ bit_of word.now }
{
    match word {
        [b'0'] => Some(false),
        [b'1'] => Some(true),
        _ => None,
    }
}
