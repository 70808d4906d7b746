ghost use Rattle.std.specs.Prelude.{◌≡◌, ◌+◌, ◌^◌, ◌<◌, ◌∷◌, ◌++◌, length, take, OnOk, OnErr, IfOk};
ghost use Rattle.std.specs.Int.{w16, w32, w64};

use crate::Order;
use std::marker::Model;

/// Fewer bytes are left than a call needs.
#[derive(Clone, Copy, Debug, PartialEq, Eq)]
pub struct Short;

/// Reads bytes and numbers from the front of a slice, whose bytes it borrows. A call that is `Short` leaves it as it was.
#[derive(Debug, Drop)]
pub struct Cursor<'a> {
    // The bytes that are left.
    rest: &'a [u8],
    taken: usize,
}

impl<'a> Model for Cursor<'a> {
    ghost use Rattle.std.specs.Prelude.{◌+◌, ◌^◌, ◌<◌, length};
    ghost use Rattle.cd_bytes.specs.Reading.{Reading};

    ghost Value = { Reading };

    ghost view = { λ c. record { taken = c.taken; rest = c.rest.now } };

    ghost invariant = { λ c. c.taken + length c.rest.now < 2 ^ 64 };
}

impl<'a> Cursor<'a> {
    ghost use Rattle.cd_bytes.specs.Numbers.{number_of};
    ghost use Rattle.cd_bytes.specs.Reading.{fresh, Takes, IsShort};

    /// A cursor at the front of these bytes.
    pub fn new(bytes: &'a [u8]) -> Cursor<'a>
        ensures { result ≡ fresh bytes.now }
    {
        Cursor {
            rest: bytes,
            taken: 0,
        }
    }

    /// Takes the next `n` bytes, as they lie in the slice.
    pub fn take(&mut self, n: usize) -> Result<&'a [u8], Short>
        ensures takes { OnOk result (Takes self.old self.new n) }
        ensures joined { IfOk result (λ front. self.old.rest ≡ front.now ++ self.new.rest) }
        ensures front { IfOk result (λ front. front.now ≡ take n self.old.rest) }
        ensures size { IfOk result (λ front. length front.now ≡ n) }
        ensures short { OnErr result (IsShort self.old self.new n) }
    {
        if self.rest.len() < n {
            return Err(Short);
        }
        let (front, rest) = self.rest.split_at(n);
        self.rest = rest;
        self.taken += n;
        Ok(front)
    }

    // Takes the next N bytes as an array.
    fn array<const N: usize>(&mut self) -> Result<[u8; N], Short>
        ensures takes { OnOk result (Takes self.old self.new N) }
        ensures joined { IfOk result (λ front. self.old.rest ≡ front ++ self.new.rest) }
        ensures short { OnErr result (IsShort self.old self.new N) }
    {
        match self.rest.split_first_chunk::<N>() {
            None => Err(Short),
            Some((front, rest)) => {
                self.rest = rest;
                self.taken += N;
                Ok(*front)
            }
        }
    }

    /// Takes the next byte.
    pub fn number8(&mut self) -> Result<u8, Short>
        ensures takes { OnOk result (Takes self.old self.new 1) }
        ensures number { IfOk result (λ number. self.old.rest ≡ number ∷ self.new.rest) }
        ensures short { OnErr result (IsShort self.old self.new 1) }
    {
        let [number] = self.array::<1>()?;
        Ok(number)
    }

    /// Takes the next two bytes, as a number in this order.
    pub fn number16(&mut self, order: Order) -> Result<u16, Short>
        ensures takes { OnOk result (Takes self.old self.new 2) }
        ensures number { IfOk result (λ number. number ≡ number_of w16 order self.old.rest) }
        ensures short { OnErr result (IsShort self.old self.new 2) }
    {
        Ok(order.read16(self.array()?))
    }

    /// Takes the next four bytes, as a number in this order.
    pub fn number32(&mut self, order: Order) -> Result<u32, Short>
        ensures takes { OnOk result (Takes self.old self.new 4) }
        ensures number { IfOk result (λ number. number ≡ number_of w32 order self.old.rest) }
        ensures short { OnErr result (IsShort self.old self.new 4) }
    {
        Ok(order.read32(self.array()?))
    }

    /// Takes the next eight bytes, as a number in this order.
    pub fn number64(&mut self, order: Order) -> Result<u64, Short>
        ensures takes { OnOk result (Takes self.old self.new 8) }
        ensures number { IfOk result (λ number. number ≡ number_of w64 order self.old.rest) }
        ensures short { OnErr result (IsShort self.old self.new 8) }
    {
        Ok(order.read64(self.array()?))
    }

    /// How many bytes were taken so far.
    pub fn position(&self) -> usize
        ensures value { result ≡ self.now.taken }
        ensures fits { self.now.taken + length self.now.rest < 2 ^ 64 }
    {
        self.taken
    }

    /// How many bytes are left.
    pub fn left(&self) -> usize
        ensures { result ≡ length self.now.rest }
    {
        self.rest.len()
    }
}
