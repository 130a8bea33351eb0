// The register of a check, run over bytes by a table.
ghost use Rattle.std.specs.Prelude.{◌≡◌};
ghost use Rattle.crc.specs.Serial.{byte_in, through, residue};
ghost use Rattle.crc.specs.Laws.{ShowsABit, ShowsAByte, ShowsABurst, OneBitShows, ResidueTells, KeepsItsWidth};

use crate::check::Check;

// The register after one byte.
#[tactic(auto, using(crate::proofs::Byte::byte_by_row))]
pub fn after_byte<C: Check>(register: u16, byte: u8) -> u16
    ensures { result ≡ byte_in C.Check.GENERATOR register byte }
{
    let [low, high] = register.to_le_bytes();
    u16::from(high) ^ C::row(low ^ byte)
}

// The register after bytes, from a register given: a check runs on so.
#[tactic(auto, using(crate::proofs::Burst::shows_a_byte, crate::proofs::Burst::keeps_its_width), unfolding(crate::specs::Serial::through))]
pub fn after_bytes<C: Check>(register: u16, bytes: &[u8]) -> u16
    ensures value { result ≡ through C.Check.GENERATOR register bytes.now }
    ensures bit { ShowsABit C.Check.GENERATOR }
    ensures byte { ShowsAByte C.Check.GENERATOR }
    ensures burst { ShowsABurst C.Check.GENERATOR }
    ensures width { KeepsItsWidth C.Check.GENERATOR }
{
    let mut at = register;
    for byte in bytes {
        at = after_byte::<C>(at, *byte);
    }
    at
}

// What is left in the register after a received check, least significant bit first.
#[tactic(auto, using(crate::proofs::Byte::byte_by_byte, crate::proofs::Burst::residue_tells, crate::proofs::Flips::one_bit_shows))]
pub fn left_over<C: Check>(register: u16, check: u16) -> u16
    ensures value { result ≡ residue C.Check.GENERATOR register check }
    ensures tells { ResidueTells C.Check.GENERATOR }
    ensures flip { OneBitShows C.Check.GENERATOR }
{
    after_bytes::<C>(register, &check.to_le_bytes())
}
