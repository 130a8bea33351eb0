// The TYPE of a micropacket. The values that the standard leaves undefined have names of their own, so that a frame
// can be read and written again as it came.
#[derive(Clone, Copy, PartialEq, Eq, Debug)]
pub enum Kind {
    Undefined0 = 0,
    Undefined1 = 1,
    Reset = 2,
    ResetAck = 3,
    Initialize = 4,
    InitializeAck = 5,
    Undefined6 = 6,
    Null = 7,
    Data = 8,
    Header = 9,
    CreditOnly = 10,
    Undefined11 = 11,
    Undefined12 = 12,
    Undefined13 = 13,
    Undefined14 = 14,
    Admin = 15,
}
