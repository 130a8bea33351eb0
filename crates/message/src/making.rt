// The bytes of a Message's micropackets.
ghost use Rattle.std.specs.Prelude.{◌≡◌, ◌≤◌, ◌==◌, min, length};
ghost use Rattle.frame.specs.Codec.{or_else};
ghost use Rattle.message.specs.Making.{longest_payload, header_made, piece_refusal, piece_bytes, LoadableIsMade, LengthFigures};

use crate::copying::put;
use crate::opening::Opening;
use frame::{Channel, Content, DATA_SIZE, Refusal, sized};

// The LLC/SNAP string that stands in every Header.
pub(crate) const SNAP: [u8; 6] = [0xAA, 0xAA, 0x03, 0x00, 0x00, 0x00];

// How much of a payload a Header carries, and how much a Data.
pub const IN_HEADER: u64 = 8;

pub const IN_DATA: u64 = 32;

// What M_len counts besides the payload: LLC/SNAP and EtherType.
pub(crate) const COUNTED: u64 = 8;

// The longest payload whose M_len has 32 bits.
const LONGEST: u64 = 4_294_967_287;

// The longest payload of a Message on a channel.
pub fn longest(channel: Channel) -> u64
    ensures { result ≡ longest_payload channel }
{
    match channel {
        Channel::Vc0 => 2_184,
        Channel::Vc1 | Channel::Vc2 => 131_208,
        Channel::Vc3 => LONGEST,
    }
}

// Whether a piece is all that is carried of the bytes that are left: `most` of them, or all where they are fewer.
fn fills(piece: &[u8], left: u64, most: u64) -> bool
    ensures { result ≡ (length piece.now == min left most) }
{
    // A cast, since `u64::from` takes no usize, and here nothing can be refused.
    piece.len() as u64 == left.min(most)
}

impl Opening<'_> {
    // The data bytes of the Header: destination, source, M_len, LLC/SNAP, EtherType and the first bytes of the payload,
    // with zeros behind them.
    #[tactic(auto, using(crate::proofs::Figures::length_figures, crate::proofs::Places::header_of_parts))]
    pub fn header(&self) -> Result<Content, Refusal>
        ensures value { result ≡ header_made self.now }
        ensures made { LoadableIsMade }
        ensures figures { LengthFigures }
    {
        let destination = sized::<6>(self.destination)?;
        let source = sized::<6>(self.source)?;
        if self.total > LONGEST || !fills(self.first, self.total, IN_HEADER) {
            return Err(Refusal::BadSize);
        }
        let m_len = u32::try_from(self.total + COUNTED)?;
        let mut bytes = [0; DATA_SIZE];
        put(&mut bytes, 0, destination);
        put(&mut bytes, 6, source);
        put(&mut bytes, 12, &m_len.to_be_bytes());
        put(&mut bytes, 16, &SNAP);
        put(&mut bytes, 22, &self.ether_type.to_be_bytes());
        put(&mut bytes, 24, self.first);
        Ok(bytes)
    }
}

// The data bytes of the next Data of a Message that has `left` bytes of payload to come.
#[tactic(auto, using(crate::proofs::Places::written_padded))]
pub fn piece(left: u64, bytes: &[u8]) -> Result<Content, Refusal>
    ensures { result ≡ or_else (piece_refusal left (length bytes.now)) (piece_bytes bytes.now) }
{
    if !fills(bytes, left, IN_DATA) {
        return Err(Refusal::BadSize);
    }
    let mut content = [0; DATA_SIZE];
    put(&mut content, 0, bytes);
    Ok(content)
}
