ghost use Rattle.std.specs.Prelude.{◌≡◌, [], ◌++◌, OnOk, OnErr};
ghost use Rattle.std.specs.Int.{w16, w32, w64};

use crate::Order;
use std::alloc::{AllocError, Global};
use std::marker::Model;

/// Bytes that are written at their end. A push that is refused for want of memory leaves them as they were.
#[derive(Debug, Drop)]
pub struct Out {
    bytes: Vec<u8>,
}

impl Model for Out {
    ghost use Rattle.std.specs.Prelude.{List, ℕ};

    ghost Value = { List ℕ };

    ghost view = { λ out. out.bytes.items };
}

impl Out {
    ghost use Rattle.cd_bytes.specs.Numbers.{bytes_of};

    /// No bytes.
    pub fn new(alloc: Global) -> Out
        ensures { result ≡ [] }
    {
        Out {
            bytes: Vec::new(alloc),
        }
    }

    /// Writes these bytes.
    pub fn push_slice(&mut self, bytes: &[u8]) -> Result<(), AllocError>
        ensures ok { OnOk result (self.new ≡ self.old ++ bytes.now) }
        ensures err { OnErr result (self.new ≡ self.old) }
    {
        self.bytes.extend_from_slice(bytes)
    }

    /// Writes the two bytes of a number in this order.
    pub fn push16(&mut self, value: u16, order: Order) -> Result<(), AllocError>
        ensures ok { OnOk result (self.new ≡ self.old ++ bytes_of w16 order value) }
        ensures err { OnErr result (self.new ≡ self.old) }
    {
        self.push_slice(&order.write16(value))
    }

    /// Writes the four bytes of a number in this order.
    pub fn push32(&mut self, value: u32, order: Order) -> Result<(), AllocError>
        ensures ok { OnOk result (self.new ≡ self.old ++ bytes_of w32 order value) }
        ensures err { OnErr result (self.new ≡ self.old) }
    {
        self.push_slice(&order.write32(value))
    }

    /// Writes the eight bytes of a number in this order.
    pub fn push64(&mut self, value: u64, order: Order) -> Result<(), AllocError>
        ensures ok { OnOk result (self.new ≡ self.old ++ bytes_of w64 order value) }
        ensures err { OnErr result (self.new ≡ self.old) }
    {
        self.push_slice(&order.write64(value))
    }

    /// All bytes that were written, in order.
    pub fn bytes(&self) -> &[u8]
        ensures { result.now ≡ self.now }
    {
        self.bytes.as_slice()
    }
}
