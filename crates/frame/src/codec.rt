// Fields from numbers, and fields to the bytes of a frame and back.
ghost use Rattle.std.specs.Prelude.{◌≡◌, ◌<◌, length};
ghost use Rattle.frame.specs.Layout.{fields_of, trailer, FieldsComeBack, FramesComeBack, ControlFigures};
ghost use Rattle.frame.specs.Codec.{or_else, from_numbers, parsed, emit_refusal, emitted};

use crate::channel::Channel;
use crate::fields::{Fields, Numbers};
use crate::kind::Kind;
use crate::refusal::Refusal;
use crate::sizes::{Content, DATA_SIZE, FRAME_SIZE, FrameBytes, MOST_CR, sized};

// Fields of numbers that fit: channels up to 3, TYPE up to 15, CR up to 63, RSEQ and TSEQ up to 255.
impl TryFrom<Numbers> for Fields {
    type Error = Refusal;

    ghost try_from_gives = { λ n r. r ≡ from_numbers n };

    fn try_from(n: Numbers) -> Result<Fields, Refusal> {
        let vc = Channel::try_from(n.vc)?;
        let vcr = Channel::try_from(n.vcr)?;
        let kind = Kind::try_from(n.kind)?;
        if n.cr > u64::from(MOST_CR) {
            return Err(Refusal::BadSize);
        }
        Ok(Fields {
            vc,
            kind,
            tail: n.tail,
            error: n.error,
            vcr,
            cr: u8::try_from(n.cr)?,
            rseq: u8::try_from(n.rseq)?,
            tseq: u8::try_from(n.tseq)?,
            ecrc: n.ecrc,
            lcrc: n.lcrc,
        })
    }
}

// What the last eight bytes of a frame say.
impl From<&FrameBytes> for Fields {
    ghost from_gives = { λ frame f. f ≡ fields_of frame.now };

    fn from(frame: &FrameBytes) -> Fields {
        let last = frame[39];
        Fields {
            vc: Channel::from_bits(last),
            kind: Kind::from_bits(last / 4),
            tail: last / 64 % 2 == 1,
            error: last / 128 == 1,
            vcr: Channel::from_bits(frame[38]),
            cr: frame[38] / 4,
            rseq: frame[37],
            tseq: frame[36],
            ecrc: u16::from_be_bytes([frame[34], frame[35]]),
            lcrc: u16::from_be_bytes([frame[32], frame[33]]),
        }
    }
}

impl Fields {
    // The fields of a frame.
    #[tactic(auto, using(crate::proofs::Roundtrip::frames_come_back))]
    pub fn parse(frame: &[u8]) -> Result<Fields, Refusal>
        ensures value { result ≡ parsed frame.now }
        ensures back { FramesComeBack }
    {
        Ok(Fields::from(sized::<FRAME_SIZE>(frame)?))
    }

    // Writes the frame of these fields and 32 data bytes.
    #[tactic(auto, using(crate::proofs::Roundtrip::control_figures))]
    pub fn emit(&self, content: &[u8], frame: &mut [u8]) -> Result<(), Refusal>
        ensures value { result ≡ or_else (emit_refusal self.now (length content.now) (length frame.old)) tt }
        ensures bytes { frame.new ≡ emitted (emit_refusal self.now (length content.now) (length frame.old)) self.now content.now frame.old }
        ensures back { FieldsComeBack }
        ensures figures { ControlFigures }
    {
        if self.cr > MOST_CR {
            return Err(Refusal::BadSize);
        }
        let content: &Content = sized(content)?;
        let frame: &mut FrameBytes = frame.as_mut_array().ok_or(Refusal::BadSize)?;
        let (data, trailer) = frame.split_at_mut(DATA_SIZE);
        data.copy_from_slice(content);
        trailer.copy_from_slice(&self.trailer());
        Ok(())
    }

    // Bytes 32 to 39.
    fn trailer(&self) -> [u8; 8]
        requires { self.now.cr < 64 }
        ensures { result ≡ trailer self.now }
    {
        let lcrc = self.lcrc.to_be_bytes();
        let ecrc = self.ecrc.to_be_bytes();
        [
            lcrc[0],
            lcrc[1],
            ecrc[0],
            ecrc[1],
            self.tseq,
            self.rseq,
            self.cr * 4 + u8::from(self.vcr),
            u8::from(self.error) * 128
                + u8::from(self.tail) * 64
                + u8::from(self.kind) * 4
                + u8::from(self.vc),
        ]
    }
}
