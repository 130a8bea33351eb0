// Loading Messages and Admins.
ghost use Rattle.std.specs.Prelude.{◌≡◌};
ghost use Rattle.link.specs.Messages.{ready, with_room, heading_made, open_asked, add_found, cut_found, admin_channel, admin_found};
ghost use Rattle.link.specs.Outcomes.{done, end_after};

use crate::end::End;
use crate::micropacket::Cargo;
use frame::{Channel, Content, DATA_SIZE, Kind, Refusal, sized};
use message::{IN_DATA, IN_HEADER, Opening, longest, piece};

// An Admin goes on channel 1 or 2; any other number that is handed in is refused.
fn admin_channel(number: u64) -> Result<Channel, Refusal>
    ensures { result ≡ admin_channel number }
{
    match number {
        1 => Ok(Channel::Vc1),
        2 => Ok(Channel::Vc2),
        _ => Err(Refusal::BadChannel),
    }
}

// The data of a Header whose payload is not too long for its channel.
#[tactic(auto, unfolding(crate::specs::Messages::heading_made))]
fn heading(channel: Channel, opening: &Opening) -> Result<Content, Refusal>
    ensures { result ≡ heading_made channel opening.now.destination.now opening.now.source.now opening.now.ether_type opening.now.total opening.now.first.now }
{
    if opening.total > longest(channel) {
        return Err(Refusal::TooLong);
    }
    opening.header()
}

impl End<'_> {
    // Whether a call that loads may go on: its channel is one of four, and the end is Normal.
    fn ready(&self, channel: u64) -> Result<Channel, Refusal>
        ensures { result ≡ ready self.now channel }
    {
        let channel = Channel::try_from(channel)?;
        self.core.phase.normal()?;
        Ok(channel)
    }

    // Whether there is room for one more micropacket: first here, and then at the peer.
    fn room(&self, channel: Channel) -> Result<(), Refusal>
        ensures { result ≡ with_room self.now channel }
    {
        if self.output.is_full() {
            return Err(Refusal::WindowFull);
        }
        if self.core.record(channel).credit == 0 {
            return Err(Refusal::NoCredit);
        }
        Ok(())
    }

    // Opens a Message: loads its Header with the first bytes of its payload.
    pub fn open(&mut self, channel: u64, opening: &Opening) -> Result<(), Refusal>
        ensures value { result ≡ done (open_asked self.old channel opening.now) }
        ensures after { self.new ≡ end_after self.old (open_asked self.old channel opening.now) }
    {
        let channel = self.ready(channel)?;
        if self.core.record(channel).left > 0 {
            return Err(Refusal::MessageOpen);
        }
        let content = heading(channel, opening)?;
        self.room(channel)?;
        let cargo = Cargo {
            kind: Kind::Header,
            tail: opening.total <= IN_HEADER,
            error: false,
            content,
        };
        self.put(channel, cargo, opening.total.saturating_sub(IN_HEADER));
        Ok(())
    }

    // Loads the next payload bytes of the open Message.
    pub fn add(&mut self, channel: u64, bytes: &[u8]) -> Result<(), Refusal>
        ensures value { result ≡ done (add_found self.old channel bytes.now) }
        ensures after { self.new ≡ end_after self.old (add_found self.old channel bytes.now) }
    {
        let channel = self.ready(channel)?;
        let left = self.core.record(channel).left;
        if left == 0 {
            return Err(Refusal::NoMessage);
        }
        let content = piece(left, bytes)?;
        self.room(channel)?;
        let cargo = Cargo {
            kind: Kind::Data,
            tail: left <= IN_DATA,
            error: false,
            content,
        };
        self.put(channel, cargo, left.saturating_sub(IN_DATA));
        Ok(())
    }

    // Ends the open Message: what was loaded of it is marked as wrong by an empty last Data.
    pub fn cut(&mut self, channel: u64) -> Result<(), Refusal>
        ensures value { result ≡ done (cut_found self.old channel) }
        ensures after { self.new ≡ end_after self.old (cut_found self.old channel) }
    {
        let channel = self.ready(channel)?;
        if self.core.record(channel).left == 0 {
            return Err(Refusal::NoMessage);
        }
        self.room(channel)?;
        let cargo = Cargo {
            kind: Kind::Data,
            tail: true,
            error: true,
            content: [0; DATA_SIZE],
        };
        self.put(channel, cargo, 0);
        Ok(())
    }

    // Loads an Admin of 32 bytes.
    pub fn admin(&mut self, channel: u64, bytes: &[u8]) -> Result<(), Refusal>
        ensures value { result ≡ done (admin_found self.old channel bytes.now) }
        ensures after { self.new ≡ end_after self.old (admin_found self.old channel bytes.now) }
    {
        let channel = admin_channel(channel)?;
        self.core.phase.normal()?;
        if self.core.record(channel).left > 0 {
            return Err(Refusal::MessageOpen);
        }
        let content = *sized::<DATA_SIZE>(bytes)?;
        self.room(channel)?;
        let cargo = Cargo {
            kind: Kind::Admin,
            tail: true,
            error: false,
            content,
        };
        self.put(channel, cargo, 0);
        Ok(())
    }
}
