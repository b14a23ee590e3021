// A sink whose bytes lie in memory.
ghost use Rattle.std.specs.Prelude.{◌≡◌, ◌↔◌, ◌≤◌, [], ◌∷◌, ◌++◌, length, take, Some, IfOk, OnOk, OnErr, IsErr, IsTrue};
ghost use Rattle.patch_base.specs.Outside.{Rose, Appends, IsEndOnly};
ghost use Rattle.patch_base.specs.MemorySink.{fails_with, taken_of, after_write};

use crate::calls::{call_after, is_listed, one_more};
use crate::outside::{Failed, Memory, Sink};
use std::alloc::Global;
use std::marker::Model;

/// A sink in memory, with a room, a greatest number of bytes that one call takes, and a list of
/// calls that are to fail. It tells its bytes. A call fails where it is listed, and where a piece
/// that isn't empty meets no room; else it takes as many bytes as these limits allow.
/// Calls are numbered from 0 in the order made; past the last number of 64 bits none is listed.
#[derive(Drop)]
pub struct MemorySink {
    bytes: Vec<u8>,
    len: usize,
    most: usize,
    faults: u64,
    next_call: Option<u64>,
    failing: Vec<u64>,
}

impl Model for MemorySink {
    ghost use Rattle.std.specs.Prelude.{◌≤◌, length, take};
    ghost use Rattle.patch_base.specs.MemorySink.{Sunk};

    ghost Value = { Sunk };

    ghost view = { λ s. record {
      bytes = take s.len s.bytes.items;
      room = length s.bytes.items;
      most = s.most;
      faults = s.faults;
      next_call = s.next_call;
      failing = s.failing.items;
    } };

    ghost invariant = { λ s. (s.len ≤ length s.bytes.items) × (1 ≤ s.most) };
}

impl MemorySink {
    /// An empty sink with room for so many bytes, which takes at most `most` of them a call.
    pub fn new(alloc: Global, room: usize, most: usize) -> Result<MemorySink, Memory>
        requires { 1 ≤ most }
        ensures { IfOk result (λ s. s ≡ record {
          bytes = [];
          room = room;
          most = most;
          faults = 0;
          next_call = Some 0;
          failing = [];
        }) }
    {
        Ok(MemorySink {
            bytes: vec![in alloc; 0; room]?,
            len: 0,
            most,
            faults: 0,
            next_call: Some(0),
            failing: Vec::new(alloc),
        })
    }

    /// Lists a call that is to fail. Out of memory, nothing changes.
    pub fn fail_at(&mut self, call: u64) -> Result<(), Memory>
        ensures listed { OnOk result
            (self.new ≡ record self.old { failing = self.old.failing ++ call ∷ [] }) }
        ensures refused { OnErr result (self.new ≡ self.old) }
    {
        self.failing.push(call)?;
        Ok(())
    }

    /// The bytes taken so far.
    pub fn bytes(&self) -> &[u8]
        ensures { result.now ≡ self.now.bytes }
    {
        &self.bytes[..self.len]
    }
}

impl Sink for MemorySink {
    ghost use Rattle.std.specs.Prelude.{Some};

    ghost taken = { λ s. Some s.bytes };

    ghost faults = { λ s. s.faults };

    fn write(&mut self, bytes: &[u8]) -> Result<usize, Failed>
        ensures counts { self.old.faults ≤ self.new.faults }
        ensures appended { IfOk result
            (λ n. Appends (Some self.old.bytes) (Some self.new.bytes) bytes.now n) }
        ensures nothing { result ≡ Ok 0 → IsEndOnly self.old.faults self.new.faults bytes.now }
        ensures kept { OnErr result (self.new.bytes ≡ self.old.bytes) }
        ensures failed { OnErr result (Rose self.old.faults self.new.faults) }

        ensures fails { IsErr result ↔ IsTrue (fails_with self.old bytes.now) }
        ensures takes { IfOk result (λ n. n ≡ taken_of self.old bytes.now) }
        ensures after { self.new ≡ after_write self.old bytes.now }
    {
        let is_listed = is_listed(&self.failing, self.next_call);
        self.next_call = call_after(self.next_call);
        let room = self.bytes.len() - self.len;
        if is_listed || (!bytes.is_empty() && room == 0) {
            self.faults = one_more(self.faults);
            return Err(Failed);
        }
        let taken = bytes.len().min(self.most).min(room);
        let end = self.len + taken;
        self.bytes[self.len..end].copy_from_slice(&bytes[..taken]);
        self.len = end;
        Ok(taken)
    }
}
