// An order and its code in one word.
ghost use Rattle.std.specs.Prelude.{◌≡◌, ◌<◌, ◌^◌, IfSome, IsTrue};
ghost use Rattle.gier_order.specs.Codes.{IsOrder, code_of, is_row, order_at, unused_are_zero};
ghost use Rattle.gier_order.specs.Table.{row_of, operation_at};

use crate::operation::{Fields, Operation};

// How far the level and the number stand above the address in a code.
const LEVEL: u64 = 1 << 24;

const NUMBER: u64 = 1 << 32;

// Numbers and levels are below these.
const NUMBERS: u64 = 1 << 8;

const LEVELS: u64 = 1 << 8;

/// An order of the machine: a number of the order table, a level and an address below 2^24, with zero in each field
/// that the order doesn't use.
#[derive(Debug, Clone, Copy, PartialEq, Eq)]
pub struct Order {
    pub op: u8,
    pub level: u8,
    pub address: u32,
}

impl Order {
    /// The order with this operation. Fields that it doesn't use are 0, and the address is below 2^24.
    pub fn of(operation: Operation, level: u8, address: u32) -> Order
        requires address { address < 2 ^ 24 }
        requires unused { IsTrue (unused_are_zero (row_of operation).fields level address) }
        ensures order { IsOrder result }
        ensures value { result ≡ record { op = (row_of operation).number; level = level; address = address } }
    {
        Order {
            op: operation.number(),
            level,
            address,
        }
    }

    /// What the order does.
    pub fn operation(self) -> Operation
        requires { IsOrder self }
        ensures { operation_at self.op ≡ Some result }
    {
        match Operation::of(self.op) {
            Some(operation) => operation,
            None => unreachable!(),
        }
    }

    /// `op * 2^32 + level * 2^24 + address`.
    pub fn code(self) -> u64
        requires { IsOrder self }
        ensures { result ≡ code_of self }
    {
        self.op as u64 * NUMBER + self.level as u64 * LEVEL + self.address as u64
    }

    /// The order whose code this word is; None where it is the code of none.
    pub fn decode(word: u64) -> Option<Order>
        ensures value { result ≡ order_at word }
        ensures coded { IfSome result (λ order. IsOrder order × (code_of order ≡ word)) }
        ensures every { (order : Order) → IsOrder order → code_of order ≡ word → result ≡ Some order }
    {
        let number = word / NUMBER;
        if number >= NUMBERS {
            return None;
        }
        let op = number as u8;
        let level = (word / LEVEL % LEVELS) as u8;
        let address = (word % LEVEL) as u32;
        if has_row(op, level, address) {
            Some(Order { op, level, address })
        } else {
            None
        }
    }
}

fn has_row(op: u8, level: u8, address: u32) -> bool
    ensures { result ≡ is_row (operation_at op) level address }
{
    match Operation::of(op) {
        Some(operation) => leaves_unused(operation.fields(), level, address),
        None => false,
    }
}

// Without a branch for each kind of order, since every order of a run is decoded.
#[tactic(auto, using(crate::proofs::Table::unused_by_use))]
fn leaves_unused(fields: Fields, level: u8, address: u32) -> bool
    ensures { result ≡ unused_are_zero fields level address }
{
    (fields.has_level() || level == 0) && (fields.has_address() || address == 0)
}

#[cfg(test)]
mod tests {
    use super::*;

    #[test]
    fn codes_orders(rt: HostRuntime) {
        assert_eq!(rt; Order::of(Operation::Start, 1, 3).code(), 4311744515);
        assert_eq!(rt; Order::of(Operation::Base, 7, 0).code(), 219160772608);
        assert_eq!(rt;
            Order::decode(240518168575),
            Some(Order::of(Operation::CallF, 255, 16777215))
        );
        assert_eq!(rt;
            Order::decode(8589934592),
            Some(Order::of(Operation::Stop, 0, 0))
        );
        // BASE with an address, a number that is none, and one that has no 8 bits.
        assert_eq!(rt; Order::decode(219160772609), None);
        assert_eq!(rt; Order::decode(240518168576), None);
        assert_eq!(rt; Order::decode(1103806595072), None);
    }
}
