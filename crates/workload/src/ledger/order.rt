ghost use Rattle.std.specs.Prelude.{◌≡◌};
ghost use Rattle.workload.specs.Ledger.{order_in, kind, body_of};

use crate::fields::Fields;

/// What a message asks of the ledger.
#[derive(Clone, Copy)]
pub enum Order {
    /// Kind 1, from outside: this many licences more.
    Credit(u32),
    /// Kind 2, from outside: hand licences to a host.
    Transfer(u8, u32),
    /// Kind 3, from a host: these licences were handed over.
    Arrival(u32),
    /// Kind 4, from outside: put out the balance.
    Statement,
}

impl Order {
    /// The order in a body, if it is one that this sender may give.
    // Here alone a kind byte becomes a case, by one test of the sender: an enum of kinds or of sides would be a second
    // list of the same. No `TryFrom`, since a body of no order is no error.
    pub fn read(from_outside: bool, body: Fields) -> Option<Order>
        ensures { result ≡ order_in from_outside body }
    {
        match (from_outside, body.kind) {
            (true, 1) => Some(Order::Credit(body.low)),
            (true, 2) => Some(Order::Transfer(body.target, body.low)),
            (true, 4) => Some(Order::Statement),
            (false, 3) => Some(Order::Arrival(body.low)),
            _ => None,
        }
    }

    /// The kind byte.
    // A case with fields has no number of its own, so a `match` gives it; `From` gives the whole body.
    pub fn kind(self) -> u8
        ensures { result ≡ kind self }
    {
        match self {
            Order::Credit(_) => 1,
            Order::Transfer(_, _) => 2,
            Order::Arrival(_) => 3,
            Order::Statement => 4,
        }
    }
}

/// The body of the message that gives an order.
impl From<Order> for u64 {
    ghost from_gives = { λ order body. body ≡ body_of order };

    fn from(order: Order) -> u64 {
        let high = order.kind() as u64 * 0x100_0000_0000_0000;
        match order {
            Order::Credit(amount) | Order::Arrival(amount) => high + amount as u64,
            Order::Transfer(to, amount) => high + to as u64 * 0x1_0000_0000 + amount as u64,
            Order::Statement => high,
        }
    }
}
