// Enums and the numbers and names that people and frames know them by.
ghost use Rattle.std.specs.Prelude.{◌≡◌, ◌%◌, ◌<◌, Some};
ghost use Rattle.frame.specs.Refusals.{number_of, name_of};
ghost use Rattle.frame.specs.Naming.{type_of, kind_at, kind_or, channel_number, channel_at, channel_or};

use crate::channel::Channel;
use crate::kind::Kind;
use crate::refusal::Refusal;
use std::fmt;

impl Refusal {
    // No derive writes these names, since they have underscores.
    pub fn name(self) -> &'static str
        ensures { result.now ≡ name_of self }
    {
        match self {
            Refusal::BadChannel => "Bad_Channel",
            Refusal::NotNormal => "Not_Normal",
            Refusal::MessageOpen => "Message_Open",
            Refusal::NoMessage => "No_Message",
            Refusal::TooLong => "Too_Long",
            Refusal::BadSize => "Bad_Size",
            Refusal::WindowFull => "Window_Full",
            Refusal::NoCredit => "No_Credit",
            Refusal::NothingHeld => "Nothing_Held",
            Refusal::NoSlip => "No_Slip",
            Refusal::NothingSent => "Nothing_Sent",
            Refusal::Marked => "Marked",
            Refusal::OutOfStep => "Out_Of_Step",
            Refusal::BadHeader => "Bad_Header",
            Refusal::NoSpace => "No_Space",
        }
    }
}

impl From<Refusal> for u8 {
    ghost from_gives = { λ e n. n ≡ number_of e };

    fn from(refusal: Refusal) -> u8 {
        refusal as u8
    }
}

impl fmt::Display for Refusal {
    ghost output = { λ e. Some (name_of e) };

    fn fmt<W: fmt::Write>(&self, f: &mut fmt::Formatter<W>) -> fmt::Result {
        f.write_str(self.name())
    }
}

// The kinds in the order of their values: no cast leads from a number to an enum.
const KINDS: [Kind; 16] = [
    Kind::Undefined0,
    Kind::Undefined1,
    Kind::Reset,
    Kind::ResetAck,
    Kind::Initialize,
    Kind::InitializeAck,
    Kind::Undefined6,
    Kind::Null,
    Kind::Data,
    Kind::Header,
    Kind::CreditOnly,
    Kind::Undefined11,
    Kind::Undefined12,
    Kind::Undefined13,
    Kind::Undefined14,
    Kind::Admin,
];

impl Kind {
    // The kind that the four lowest bits of a byte say.
    pub(crate) fn from_bits(byte: u8) -> Kind
        ensures { result ≡ kind_at (byte % 16) }
    {
        KINDS[usize::from(byte % 16)]
    }
}

// The TYPE value, four bits.
impl From<Kind> for u8 {
    ghost from_gives = { λ k n. n ≡ type_of k };

    fn from(kind: Kind) -> u8 {
        kind as u8
    }
}

// The kind of a TYPE value; above 15 there is none.
impl TryFrom<u64> for Kind {
    type Error = Refusal;

    ghost try_from_gives = { λ n r. r ≡ kind_or n };

    fn try_from(value: u64) -> Result<Kind, Refusal> {
        KINDS
            .get(usize::try_from(value)?)
            .copied()
            .ok_or(Refusal::BadSize)
    }
}

impl Channel {
    // The channels in the order of their numbers.
    pub const ALL: [Channel; 4] = [Channel::Vc0, Channel::Vc1, Channel::Vc2, Channel::Vc3];

    // The channel that the two lowest bits of a byte say.
    pub(crate) fn from_bits(byte: u8) -> Channel
        ensures { result ≡ channel_at (byte % 4) }
    {
        Channel::ALL[usize::from(byte % 4)]
    }
}

impl From<Channel> for u8 {
    ghost from_gives = { λ c n. n ≡ channel_number c };

    fn from(channel: Channel) -> u8 {
        channel as u8
    }
}

// Where a channel stands among the four.
impl From<Channel> for usize {
    ghost from_gives = { λ c n. (n ≡ channel_number c) × (n < 4) };

    fn from(channel: Channel) -> usize {
        channel as usize
    }
}

// The channel of a number; above 3 there is none.
impl TryFrom<u64> for Channel {
    type Error = Refusal;

    ghost try_from_gives = { λ n r. r ≡ channel_or n };

    fn try_from(number: u64) -> Result<Channel, Refusal> {
        // A cast: `?` would refuse a number that is too large as Bad_Size.
        Channel::ALL
            .get(number as usize)
            .copied()
            .ok_or(Refusal::BadChannel)
    }
}
