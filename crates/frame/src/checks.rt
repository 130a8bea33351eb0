// The two checks of a frame.
ghost use Rattle.std.specs.Prelude.{◌≡◌, length};
ghost use Rattle.crc.specs.Laws.{OneBitShows};
ghost use Rattle.crc.specs.Serial.{through, byte_in};
ghost use Rattle.frame.specs.Codec.{or_else, frame_refusal};
ghost use Rattle.frame.specs.Checks.{link_check, syndrome_of, sealed_or, data_refusal, end_check, GoodIsZero, StompedIs06A9, FrameBitShows, SealedIsGood};

use crate::refusal::Refusal;
use crate::sizes::{Content, FrameBytes, sized};
use crc::{Check, EndToEndCheck, LinkCheck, after_byte, after_bytes, left_over};

// The link check that a frame should have, whatever it has.
pub fn link_check(frame: &[u8]) -> Result<u16, Refusal>
    ensures { result ≡ or_else (frame_refusal (length frame.now)) (link_check frame.now) }
{
    Ok(register_over(sized(frame)?))
}

// The register of the link check after all that it covers.
#[tactic(auto, using(crate::proofs::Transmitted::in_order), unfolding(crate::specs::Checks::link_check))]
fn register_over(frame: &FrameBytes) -> u16
    ensures { result ≡ link_check frame.now }
{
    let start = LinkCheck::begin();
    let first = after_ten(start, &frame[0..8], frame[39], frame[38]);
    let second = after_ten(first, &frame[8..16], frame[37], frame[36]);
    let third = after_ten(second, &frame[16..24], frame[35], frame[34]);
    after_bytes::<LinkCheck>(third, &frame[24..32])
}

// The register after eight data bytes and the two control bytes that go out behind them.
fn after_ten(register: u16, content: &[u8], low: u8, high: u8) -> u16
    ensures { result ≡ byte_in 0x8408 (byte_in 0x8408 (through 0x8408 register content.now) low) high }
{
    let at = after_bytes::<LinkCheck>(register, content);
    after_byte::<LinkCheck>(after_byte::<LinkCheck>(at, low), high)
}

// What is left of a frame's link check: 0 for a good frame, x'06A9' for a stomped one.
#[tactic(auto, using(crate::proofs::Residues::good_is_zero, crate::proofs::Residues::stomped_is_06A9, crate::proofs::Residues::frame_bit_shows))]
pub fn syndrome(frame: &[u8]) -> Result<u16, Refusal>
    ensures value { result ≡ or_else (frame_refusal (length frame.now)) (syndrome_of frame.now) }
    ensures good { GoodIsZero }
    ensures stomped { StompedIs06A9 }
    ensures flip { FrameBitShows }
{
    Ok(syndrome_over(sized(frame)?))
}

// The same of 40 bytes.
#[tactic(auto, unfolding(crate::specs::Checks::syndrome_of))]
pub(crate) fn syndrome_over(frame: &FrameBytes) -> u16
    ensures { result ≡ syndrome_of frame.now }
{
    let received = u16::from_be_bytes([frame[32], frame[33]]);
    left_over::<LinkCheck>(register_over(frame), received)
}

// Writes the link check that a frame should have into it.
#[tactic(auto, using(crate::proofs::Residues::sealed_is_good), unfolding(crate::specs::Checks::sealed))]
pub fn seal(frame: &mut [u8]) -> Result<(), Refusal>
    ensures value { result ≡ or_else (frame_refusal (length frame.old)) tt }
    ensures bytes { frame.new ≡ sealed_or (frame_refusal (length frame.old)) frame.old }
    ensures good { SealedIsGood }
{
    let [high, low] = link_check(frame)?.to_be_bytes();
    frame[32] = high;
    frame[33] = low;
    Ok(())
}

// The end-to-end check after the 32 data bytes of a micropacket, run on from a register given.
#[tactic(auto, using(crc::proofs::Flips::one_bit_shows), unfolding(crate::specs::Checks::end_check))]
pub fn end_check(register: u16, content: &[u8]) -> Result<u16, Refusal>
    ensures value { result ≡ or_else (data_refusal (length content.now)) (end_check register content.now) }
    ensures flip { OneBitShows 0xD008 }
{
    let content: &Content = sized(content)?;
    Ok(after_bytes::<EndToEndCheck>(register, content))
}
