// The running end-to-end check.
ghost use Rattle.std.specs.Prelude.{◌≡◌};
ghost use Rattle.link.specs.Checking.{sort_of, check_from, check_after};

use crate::sort::Sort;
use crc::{Check, EndToEndCheck};
use frame::{Content, Kind, end_check};

impl From<Kind> for Sort {
    ghost from_gives = { λ kind sort. sort ≡ sort_of kind };

    fn from(kind: Kind) -> Sort {
        match kind {
            Kind::Null | Kind::Undefined0 | Kind::Undefined1 | Kind::Undefined6 => Sort::Idle,
            Kind::Reset | Kind::ResetAck | Kind::Initialize | Kind::InitializeAck => Sort::Control,
            Kind::CreditOnly => Sort::Credit,
            Kind::Header | Kind::Admin => Sort::Afresh,
            Kind::Data
            | Kind::Undefined11
            | Kind::Undefined12
            | Kind::Undefined13
            | Kind::Undefined14 => Sort::Onward,
        }
    }
}

impl Sort {
    // The register that the check of a micropacket starts from.
    fn check_from(self, running: u16) -> u16
        ensures { result ≡ check_from self running }
    {
        match self {
            Sort::Idle | Sort::Control | Sort::Credit | Sort::Afresh => EndToEndCheck::begin(),
            Sort::Onward => running,
        }
    }
}

// The check of a micropacket on a channel whose running check is given.
pub(crate) fn check_after(kind: Kind, running: u16, content: &Content) -> u16
    ensures { result ≡ check_after kind running content.now }
{
    end_check(Sort::from(kind).check_from(running), content).unwrap()
}
