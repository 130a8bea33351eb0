// Loading: everything that enters the output buffer.
ghost use Rattle.std.specs.Prelude.{◌≡◌, true};
ghost use Rattle.link.specs.Loading.{numbered, has_room, micropacket_of, loaded, body_of, spent, put};

use crate::checking::check_after;
use crate::end::End;
use crate::micropacket::{Body, Cargo, Micropacket};
use crate::numbering::ROUND;
use crate::record::{ChannelRecord, Core};
use frame::Channel;

impl ChannelRecord {
    // A Header, Data or Admin takes one credit and moves the running check on; `left` bytes of its Message are to come.
    fn spend(&mut self, check: u16, left: u64)
        ensures { self.new ≡ spent self.old check left }
    {
        self.credit = self.credit.saturating_sub(1);
        self.check_out = check;
        self.left = left;
    }
}

impl Core {
    // The next number goes to a load.
    fn count_load(&mut self)
        ensures { self.new ≡ numbered self.old }
    {
        // Below 255, so that it fits.
        self.next = ROUND.next(u32::from(self.next)) as u8;
    }

    // A Header, Data or Admin with the check that goes with it.
    fn body(&self, channel: Channel, cargo: Cargo) -> Body
        ensures { result ≡ body_of self.now channel cargo }
    {
        let running = self.record(channel).check_out;
        let ecrc = check_after(cargo.kind, running, &cargo.content);
        Body {
            channel,
            cargo,
            ecrc,
        }
    }
}

impl End<'_> {
    // Loads: appends to the output buffer, with the next number and a credit update, which stay as they are there.
    pub(crate) fn load(&mut self, body: Body) -> Micropacket
        requires { has_room self.old ≡ true }
        ensures value { result ≡ micropacket_of self.old.core body }
        ensures after { self.new ≡ loaded self.old body }
    {
        let tseq = self.core.next;
        let (vcr, cr) = self.core.update();
        self.core.count_load();
        let micropacket = Micropacket {
            body,
            vcr,
            cr,
            tseq,
        };
        self.output.push_back(micropacket);
        micropacket
    }

    // Loads a Header, Data or Admin, with `left` bytes of its Message to come.
    #[tactic(auto, unfolding(crate::specs::Loading::put))]
    pub(crate) fn put(&mut self, channel: Channel, cargo: Cargo, left: u64)
        requires { has_room self.old ≡ true }
        ensures { self.new ≡ put self.old (body_of self.old.core channel cargo) left }
    {
        let body = self.core.body(channel, cargo);
        self.core.channels[usize::from(channel)].spend(body.ecrc, left);
        self.load(body);
    }
}
