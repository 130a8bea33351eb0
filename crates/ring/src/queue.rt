// What a ring answers and does, told of the list that it holds, oldest first.
ghost use Rattle.std.specs.Prelude.{◌≡◌, ◌-◌, ◌≤◌, min, not, [], ◌∷◌, ◌++◌, length, drop, if◌then◌else◌, ◌==◌, nat_lt};
ghost use Rattle.std.specs.Option.{option_map};
ghost use Rattle.std.specs.List.{slice_get};
ghost use Rattle.ring.specs.Held.{start_of, place_of};
ghost use Rattle.ring.specs.Items.{queue_of, ring_items, ring_cap};

use super::Ring;

// The index `i` after `first`, going on from 0 at `size`.
#[tactic(auto, unfolding(crate::specs::Held::place_of))]
fn place(size: usize, first: usize, i: usize) -> usize
    requires { (first ≤ size - 1) × (i ≤ size) }
    ensures value { result ≡ place_of size first i }
    ensures bound { result ≤ size - 1 }
{
    let room = size - first;
    if i < room { first + i } else { i - room }
}

impl<'a, T: Copy> Ring<'a, T> {
    // An empty ring over the first elements of `slots`: it uses at most as many as it is told.
    pub fn new(slots: &'a mut [T], at_most: usize) -> Ring<'a, T>
        ensures queue { queue_of result ≡ record { items = []; room = min at_most (length slots.old); past = drop at_most slots.old; loan = slots.entry.ghost_name } }
        ensures area { result.slots.now ≡ slots.old }
    {
        Ring {
            slots,
            first: 0,
            len: 0,
            size: at_most,
        }
    }

    // How many it can hold.
    pub fn capacity(&self) -> usize
        ensures value { result ≡ ring_cap self.now }
        ensures within { result ≤ length self.now.slots.now }
    {
        self.size.min(self.slots.len())
    }

    // How many it holds.
    pub fn len(&self) -> usize
        ensures value { result ≡ length (ring_items self.now) }
        ensures bound { result ≤ ring_cap self.now }
    {
        self.len.min(self.capacity())
    }

    // Whether it holds nothing.
    pub fn is_empty(&self) -> bool
        ensures { result ≡ (length (ring_items self.now) == 0) }
    {
        self.len() == 0
    }

    // Whether it has no room: `push_back` then answers false.
    pub fn is_full(&self) -> bool
        ensures { result ≡ not (nat_lt (length (ring_items self.now)) (ring_cap self.now)) }
    {
        self.len() >= self.capacity()
    }

    // Where the oldest lies.
    fn start(&self) -> usize
        ensures value { result ≡ start_of self.now.first (ring_cap self.now) }
        ensures bound { result ≤ ring_cap self.now - 1 }
    {
        if self.first < self.capacity() {
            self.first
        } else {
            0
        }
    }

    // The element `i` after the oldest, to look at.
    pub fn get_ref(&self, i: usize) -> Option<&T>
        ensures { option_map (λ x. x.now) result ≡ slice_get (ring_items self.now) i }
    {
        // An if: what `then` would lend from a closure is not known to be the element at `i`.
        if i < self.len() {
            let p = place(self.capacity(), self.start(), i);
            let slots: &[T] = &*self.slots;
            Some(&slots[p])
        } else {
            None
        }
    }

    // The element `i` after the oldest.
    pub fn get(&self, i: usize) -> Option<T>
        ensures { result ≡ slice_get (ring_items self.now) i }
    {
        self.get_ref(i).copied()
    }

    // Adds `x` behind all the others, where there is room, and answers whether there was.
    // A bool, since the caller keeps a copy of `x`: an error with the element in it would bring nothing back.
    pub fn push_back(&mut self, x: T) -> bool
        ensures test { result ≡ nat_lt (length (ring_items self.old)) (ring_cap self.old) }
        ensures queue { queue_of self.new ≡ record (queue_of self.old) { items = if result then ring_items self.old ++ x ∷ [] else ring_items self.old } }
    {
        let size = self.capacity();
        let len = self.len();
        if len < size {
            let first = self.start();
            let p = place(size, first, len);
            self.slots[p] = x;
            self.first = first;
            self.len = len + 1;
            true
        } else {
            false
        }
    }

    // Drops the `n` oldest, or all where there are fewer.
    pub fn drop_front(&mut self, n: usize)
        ensures { queue_of self.new ≡ record (queue_of self.old) { items = drop n (ring_items self.old) } }
    {
        let len = self.len();
        let k = n.min(len);
        self.first = place(self.capacity(), self.start(), k);
        self.len = len - k;
    }

    // Takes the oldest out.
    pub fn pop_front(&mut self) -> Option<T>
        ensures value { result ≡ slice_get (ring_items self.old) 0 }
        ensures queue { queue_of self.new ≡ record (queue_of self.old) { items = drop 1 (ring_items self.old) } }
    {
        let oldest = self.get(0);
        self.drop_front(1);
        oldest
    }

    // Drops all.
    pub fn clear(&mut self)
        ensures { queue_of self.new ≡ record (queue_of self.old) { items = [] } }
    {
        self.drop_front(self.len());
    }
}
