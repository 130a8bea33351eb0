// What a Header says of its Message: whom it goes to, who sent it, its EtherType, and how many bytes its payload has.
#[derive(Clone, Copy, PartialEq, Eq, Debug)]
pub struct Heading {
    pub destination: [u8; 6],
    pub source: [u8; 6],
    pub ether_type: u16,
    pub size: u64,
}
