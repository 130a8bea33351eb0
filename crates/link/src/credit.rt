// Credit: what is told to the peer, and what it tells.
ghost use Rattle.std.specs.Prelude.{◌≡◌};
ghost use Rattle.link.specs.Credit.{channel_after, waits, next_waiting, told, told_off, update_of, updated};

use crate::record::{ChannelRecord, Core};
use frame::{Channel, MOST_CR};

// The channels follow each other in a circle: a match says that without a number.
fn after(channel: Channel) -> Channel
    ensures { result ≡ channel_after channel }
{
    match channel {
        Channel::Vc0 => Channel::Vc1,
        Channel::Vc1 => Channel::Vc2,
        Channel::Vc2 => Channel::Vc3,
        Channel::Vc3 => Channel::Vc0,
    }
}

impl ChannelRecord {
    // The credit that one micropacket tells: as much as waits and fits. It stops waiting.
    fn tell(&mut self) -> u8
        ensures value { result ≡ told self.old }
        ensures after { self.new ≡ told_off self.old }
    {
        let cr = self.waiting.min(usize::from(MOST_CR));
        self.waiting -= cr;
        // At most 63, so that it fits.
        cr as u8
    }
}

impl Core {
    fn waits(&self, channel: Channel) -> bool
        ensures { result ≡ waits self.now channel }
    {
        self.record(channel).waiting > 0
    }

    // The next channel after the one last named, round the circle, that has credit waiting.
    pub(crate) fn next_waiting(&self) -> Option<Channel>
        ensures { result ≡ next_waiting self.now }
    {
        let first = after(self.named);
        let second = after(first);
        let third = after(second);
        [first, second, third, self.named]
            .iter()
            .find(|channel| self.waits(**channel))
            .copied()
    }

    // The credit update of a load, VCR and CR. Only the record of the channel that it names changes; with no credit
    // waiting both are 0 and none is named.
    pub(crate) fn update(&mut self) -> (Channel, u8)
        ensures value { result ≡ update_of self.old }
        ensures after { self.new ≡ updated self.old }
    {
        match self.next_waiting() {
            Some(channel) => {
                self.named = channel;
                let cr = self.channels[usize::from(channel)].tell();
                (channel, cr)
            }
            None => (Channel::Vc0, 0),
        }
    }
}
