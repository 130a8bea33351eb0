use crate::micropacket::Cargo;
use ring::Ring;

// The four channel buffers. Each is a field: memory that is lent can stand in a struct, but not in an array there.
#[derive(Drop)]
pub struct Buffers<'a> {
    pub(crate) vc0: Ring<'a, Cargo>,
    pub(crate) vc1: Ring<'a, Cargo>,
    pub(crate) vc2: Ring<'a, Cargo>,
    pub(crate) vc3: Ring<'a, Cargo>,
}
