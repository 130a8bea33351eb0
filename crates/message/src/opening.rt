// What a Message opens with: whom it goes to, who sends it, its EtherType, how many bytes its payload has, and the first
// of those, which its Header carries. The addresses and the first bytes may be of any length: `header` refuses what does
// not fit.
#[derive(Clone, Copy)]
pub struct Opening<'a> {
    pub destination: &'a [u8],
    pub source: &'a [u8],
    pub ether_type: u16,
    pub total: u64,
    pub first: &'a [u8],
}
