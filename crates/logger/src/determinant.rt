//! The determinant of a receipt.
ghost use Rattle.std.specs.Prelude.{◌≡◌};
ghost use Rattle.logger.specs.Sources.{source};

use network::message::Receipt;

/// What makes a receipt happen again: `receiver` took, as its receipt `number`, message `ssn` of `sender`.
///
/// A receipt number is a receive sequence number and an ssn a send sequence number.
#[derive(Clone, Copy, PartialEq, Eq, Debug)]
pub struct Determinant {
    pub receiver: u8,
    pub number: u8,
    pub sender: u8,
    pub ssn: u8,
}

/// The message that was taken.
impl From<Determinant> for Receipt {
    ghost from_gives = { λ d r. r ≡ source d };

    fn from(determinant: Determinant) -> Receipt {
        Receipt {
            sender: determinant.sender,
            ssn: determinant.ssn,
        }
    }
}
