// What the checks of a frame have in common.
ghost use Rattle.std.specs.Prelude.{◌≡◌, ℕ, ◌^◌, ◌<◌, ◌≤◌};
ghost use Rattle.crc.specs.Serial.{feed, bits, Rows};

// A check of 16 bits. Its generator is written with the term of x^15 as bit 0 and the constant term, always 1,
// as bit 15, since the register shifts right.
pub trait Check {
    const GENERATOR: u16;

    const START: u16;

    ghost GENERATOR: { ℕ };

    ghost START: { ℕ };

    // What each byte in the register becomes over eight bits that are 0.
    fn rows() -> &'static [u16; 256]
        ensures { Rows GENERATOR result.now };

    // The generator, as a number.
    fn taps() -> u16
        ensures { result ≡ GENERATOR }
    {
        Self::GENERATOR
    }

    // The register that a check begins with.
    fn begin() -> u16
        ensures { result ≡ START }
    {
        Self::START
    }

    // What a byte in the register becomes over eight bits that are 0.
    fn row(low: u8) -> u16
        ensures { result ≡ feed GENERATOR low (bits 8 0) }
    {
        Self::rows()[usize::from(low)]
    }

    ghost term: { 2 ^ 15 ≤ GENERATOR };

    ghost fits: { GENERATOR < 2 ^ 16 };

    ghost begins: { START < 2 ^ 16 };
}
