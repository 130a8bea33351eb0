// The four channel buffers.
ghost use Rattle.std.specs.Prelude.{◌≡◌, [], ◌∷◌, length, drop};
ghost use Rattle.std.specs.Fn.{FnOnceReturnsAtMut};
ghost use Rattle.std.specs.List.{slice_get};
ghost use Rattle.link.specs.Records.{capacity_over};
ghost use Rattle.link.specs.States.{queues_of, queue_on, room_on, queued, with_queue, ring_at, with_ring};

use crate::buffers::Buffers;
use crate::micropacket::Cargo;
use frame::Channel;
use ring::Ring;

// The most credit that a channel can have, and so the largest capacity.
pub(crate) const MOST_CREDIT: u8 = 255;

impl<'a> Buffers<'a> {
    // Empty buffers: a channel's capacity is the number of elements of its area, up to the most credit there can be.
    pub(crate) fn new(
        vc0: &'a mut [Cargo],
        vc1: &'a mut [Cargo],
        vc2: &'a mut [Cargo],
        vc3: &'a mut [Cargo],
    ) -> Buffers<'a>
        ensures { queues_of result ≡ record { held = [] ∷ [] ∷ [] ∷ [] ∷ []; room = capacity_over (length vc0.old) ∷ capacity_over (length vc1.old) ∷ capacity_over (length vc2.old) ∷ capacity_over (length vc3.old) ∷ [] } }
    {
        let most = usize::from(MOST_CREDIT);
        Buffers {
            vc0: Ring::new(vc0, most),
            vc1: Ring::new(vc1, most),
            vc2: Ring::new(vc2, most),
            vc3: Ring::new(vc3, most),
        }
    }

    // The buffer of a channel.
    fn of(&self, channel: Channel) -> &Ring<'a, Cargo>
        ensures { result.now ≡ ring_at self.now channel }
    {
        match channel {
            Channel::Vc0 => &self.vc0,
            Channel::Vc1 => &self.vc1,
            Channel::Vc2 => &self.vc2,
            Channel::Vc3 => &self.vc3,
        }
    }

    // Changes the buffer of a channel.
    fn change<R, F: FnOnce(&mut Ring<'a, Cargo>) -> R>(&mut self, channel: Channel, f: F) -> R
        requires { F.IsAlwaysCallable f }
        ensures ran { FnOnceReturnsAtMut F.FnOnce f (ring_at self.old channel) result (ring_at self.new channel) }
        ensures others { self.new ≡ with_ring self.old channel (ring_at self.new channel) }
    {
        match channel {
            Channel::Vc0 => f(&mut self.vc0),
            Channel::Vc1 => f(&mut self.vc1),
            Channel::Vc2 => f(&mut self.vc2),
            Channel::Vc3 => f(&mut self.vc3),
        }
    }

    // How many a channel's buffer can hold.
    pub(crate) fn capacity(&self, channel: Channel) -> usize
        ensures { result ≡ room_on (queues_of self.now) channel }
    {
        self.of(channel).capacity()
    }

    // The same of each channel.
    pub(crate) fn capacities(&self) -> [usize; 4]
        ensures { result ≡ (queues_of self.now).room }
    {
        Channel::ALL.map(|channel| self.capacity(channel))
    }

    // How many it holds.
    pub(crate) fn len(&self, channel: Channel) -> usize
        ensures { result ≡ length (queue_on (queues_of self.now) channel) }
    {
        self.of(channel).len()
    }

    // Puts a micropacket behind those that a channel's buffer holds, where there is room.
    pub(crate) fn put(&mut self, channel: Channel, cargo: Cargo)
        ensures { queues_of self.new ≡ queued (queues_of self.old) channel cargo }
    {
        self.change(channel, |ring| ring.push_back(cargo));
    }

    // Takes a channel's oldest out.
    pub(crate) fn pop(&mut self, channel: Channel) -> Option<Cargo>
        ensures value { result ≡ slice_get (queue_on (queues_of self.old) channel) 0 }
        ensures queues { queues_of self.new ≡ with_queue (queues_of self.old) channel (drop 1 (queue_on (queues_of self.old) channel)) }
    {
        self.change(channel, Ring::pop_front)
    }

    // Empties all four: four calls, since the four are fields.
    pub(crate) fn clear(&mut self)
        ensures { queues_of self.new ≡ record (queues_of self.old) { held = [] ∷ [] ∷ [] ∷ [] ∷ [] } }
    {
        self.vc0.clear();
        self.vc1.clear();
        self.vc2.clear();
        self.vc3.clear();
    }
}
