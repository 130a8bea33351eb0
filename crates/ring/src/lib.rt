// A queue over a lent slice.
#![tactic(auto)]

mod queue;

// A queue of the elements of a lent slice, at most `size` of them. The oldest lies at `first`, and the queue goes
// on from the slice's start where it comes to the end of what it uses.
//
// Every ring means a list, whatever its numbers: one that is too large is read as the largest that makes sense,
// both here and in what is stated of it. So no call asks anything of its caller. No ghost field keeps the numbers in
// range, since with one beside the lent slice no function of a caller's could take a ring by value and change it.
// Its fields stand open to clauses, since a model would hide from the lender what its slice holds afterwards.
#[derive(Drop)]
pub struct Ring<'a, T> {
    slots: &'a mut [T],
    first: usize,
    len: usize,
    size: usize,
}

#[cfg(test)]
mod tests;
