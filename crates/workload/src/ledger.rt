ghost use Rattle.std.specs.Prelude.{◌≡◌, replicate, Some};
ghost use Rattle.workload.specs.declared.ledger.order.Order.TheVariants.{Transfer};
ghost use Rattle.workload.specs.Ledger.{balance_at, ledger, settled};
ghost use Rattle.workload.specs.Machine.{replaced};
ghost use Rattle.std.proofs.Common.{rules};

use crate::fields::Fields;
use crate::host::Host;
use crate::host_count::HostCount;
use crate::reaction::Reaction;
use crate::{OUTSIDE, Workload};
use order::Order;

pub mod order;

/// The licence ledger: a balance of licences for each host.
#[derive(Drop)]
pub struct Ledger {
    n: HostCount,
    balances: [u64; 8],
}

impl Ledger {
    /// A ledger of no hosts, to be started.
    pub fn new() -> Ledger
        ensures hosts { result.n ≡ 0 }
        ensures balances { result.balances ≡ replicate 8 0 }
    {
        Ledger {
            n: HostCount::new(0),
            balances: [0; 8],
        }
    }

    /// Host p has this balance now.
    fn set(&mut self, p: Host, balance: u64)
        ensures hosts { self.new.n ≡ self.old.n }
        ensures balances { balance_at self.new.balances ≡ replaced (balance_at self.old.balances) p balance }
    {
        self.balances[p.index()] = balance;
    }

    /// The balance and the reaction of host p after an order.
    fn settle(&self, p: Host, order: Option<Order>) -> (u64, Reaction)
        ensures state { result.0 ≡ (settled self.now.n p (balance_at self.now.balances p) order).state }
        ensures reaction { result.1 ≡ (settled self.now.n p (balance_at self.now.balances p) order).reaction }
    {
        let balance = self.show(p);
        match order {
            Some(Order::Credit(amount)) | Some(Order::Arrival(amount)) => {
                (balance.wrapping_add(amount as u64), Reaction::NONE)
            }
            Some(Order::Transfer(to, amount)) => self.transfer(p, to, amount),
            Some(Order::Statement) => (
                balance,
                Reaction {
                    send: None,
                    output: Some(balance),
                },
            ),
            None => (balance, Reaction::NONE),
        }
    }

    /// Host p hands `amount` licences to host `to`, if it may.
    fn transfer(&self, p: Host, to: u8, amount: u32) -> (u64, Reaction)
        ensures state { result.0 ≡ (settled self.now.n p (balance_at self.now.balances p) (Some (Transfer to amount))).state }
        ensures reaction { result.1 ≡ (settled self.now.n p (balance_at self.now.balances p) (Some (Transfer to amount))).reaction }
    {
        let balance = self.show(p);
        let licences = amount as u64;
        if to < self.n.number() && to != p.number() && amount >= 1 && licences <= balance {
            let reaction = Reaction {
                send: Some((to, Order::Arrival(amount).into())),
                output: None,
            };
            (balance - licences, reaction)
        } else {
            (balance, Reaction::NONE)
        }
    }
}

impl Workload for Ledger {
    type State = u64;

    ghost hosts = { λ w. w.n };

    ghost state = { λ w. balance_at w.balances };

    ghost machine = { ledger };

    ghost addressed = { Prim.search rules };

    fn start(&mut self, n: HostCount) {
        self.n = n;
        self.balances = [0; 8];
    }

    fn reset(&mut self, p: Host) {
        self.set(p, 0);
    }

    fn step(&mut self, p: Host, s: u8, body: u64) -> Reaction {
        // A workload takes any number for a sender, so it is no `Sender`.
        let order = Order::read(s == OUTSIDE, Fields::from(body));
        let (balance, reaction) = self.settle(p, order);
        self.set(p, balance);
        reaction
    }

    fn show(&self, p: Host) -> u64 {
        let host = p.index();
        self.balances[host]
    }
}
