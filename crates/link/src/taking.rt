// Taking what was received, and giving the places back.
ghost use Rattle.std.specs.Prelude.{◌≡◌, length};
ghost use Rattle.link.specs.Records.{slip_out, slip_back};
ghost use Rattle.link.specs.Taking.{take_found, taken_of, take_after, take_bytes, return_refusal, return_answer, return_after};

use crate::end::End;
use crate::record::ChannelRecord;
use crate::slip::{Slip, Taken};
use frame::{Channel, Content, Refusal};

impl Slip {
    // Ends the slip.
    fn spend(self) {
        let Slip { channel: _ } = self;
    }
}

impl ChannelRecord {
    // One more slip is out.
    fn hand_slip(&mut self)
        ensures { self.new ≡ slip_out self.old }
    {
        self.slips = self.slips.saturating_add(1);
    }

    // A slip is back: one more credit waits, up to the capacity.
    fn take_slip(&mut self, capacity: usize)
        ensures { self.new ≡ slip_back self.old capacity }
    {
        self.slips = self.slips.saturating_sub(1);
        if self.waiting < capacity {
            self.waiting += 1;
        }
    }
}

impl End<'_> {
    // Removes a channel's oldest micropacket: its data go to the caller's 32 bytes.
    pub fn take(&mut self, channel: u64, content: &mut [u8]) -> Result<Taken, Refusal>
        ensures value { result ≡ taken_of channel (take_found self.old channel (length content.old)) }
        ensures after { self.new ≡ take_after self.old channel (take_found self.old channel (length content.old)) }
        ensures bytes { content.new ≡ take_bytes content.old (take_found self.old channel (length content.old)) }
    {
        let channel = Channel::try_from(channel)?;
        self.core.phase.normal()?;
        let content: &mut Content = content.as_mut_array().ok_or(Refusal::BadSize)?;
        let cargo = self.buffers.pop(channel).ok_or(Refusal::NothingHeld)?;
        // By way of a variable, since no proof follows an array stored straight from a field.
        let bytes = cargo.content;
        *content = bytes;
        self.core.channels[usize::from(channel)].hand_slip();
        Ok(Taken {
            kind: cargo.kind,
            tail: cargo.tail,
            error: cargo.error,
            slip: Slip { channel },
        })
    }

    // Spends a slip, in every phase. Where none of its channel is out here, it is handed back.
    pub fn return_slip(&mut self, slip: Slip) -> Result<(), (Refusal, Slip)>
        ensures value { result ≡ return_answer slip (return_refusal self.old slip.channel) }
        ensures after { self.new ≡ return_after self.old slip.channel (return_refusal self.old slip.channel) }
    {
        let channel = slip.channel;
        if self.core.record(channel).slips == 0 {
            return Err((Refusal::NoSlip, slip));
        }
        let capacity = self.buffers.capacity(channel);
        self.core.channels[usize::from(channel)].take_slip(capacity);
        slip.spend();
        Ok(())
    }
}
