ghost use Rattle.std.specs.Prelude.{◌≡◌};
ghost use Rattle.network.specs.Host.{receipt_of};

/// A message as its receiver takes it.
#[derive(Clone, Copy)]
pub struct Message {
    /// Who sent it: a host, or the outside world.
    pub sender: u8,
    /// The send sequence number: which of the sender's messages to this receiver it is, from 1.
    pub ssn: u8,
    pub body: u64,
}

/// That a host took a message: from whom, and which one.
#[derive(Clone, Copy, PartialEq, Eq, Debug, Default)]
pub struct Receipt {
    pub sender: u8,
    pub ssn: u8,
}

impl From<Message> for Receipt {
    ghost from_gives = { λ t r. r ≡ receipt_of t };

    fn from(message: Message) -> Receipt {
        Receipt {
            sender: message.sender,
            ssn: message.ssn,
        }
    }
}

/// The sender and the ssn, as a logger answers them.
impl From<Receipt> for (u8, u8) {
    ghost from_gives = { λ r pair. pair ≡ (r.sender, r.ssn) };

    fn from(receipt: Receipt) -> (u8, u8) {
        (receipt.sender, receipt.ssn)
    }
}
