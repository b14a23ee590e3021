// A pen: it holds bytes back on their way to a sink, so that they go there in big pieces.
ghost use Rattle.std.specs.Prelude.{◌≡◌, ◌+◌, ◌<◌, ◌≤◌, [], ◌∷◌, ◌++◌, length, decimal, OnOk, OnErr};
ghost use Rattle.patch_base.specs.Outside.{Rose, Grew, AppendsPrefix};
ghost use Rattle.patch_base.specs.Passes.{Passes};

use crate::outside::{Failed, Sink};
use crate::transfer::write_all;
use itoa::Buffer;
use std::marker::Model;

/// Bytes on their way to a sink, seen as the bytes that it holds: at most 8,192. What is put is held, and goes to the sink
/// where room is made or all is sent. A pen takes no memory. It isn't used after a fault: of what it then holds, some may
/// have gone to the sink.
#[derive(Drop)]
pub struct Pen {
    bytes: [u8; 8192],
    len: usize,
}

impl Model for Pen {
    ghost use Rattle.std.specs.Prelude.{List, ℕ, take, ◌≤◌};

    ghost Value = { List ℕ };

    ghost view = { λ p. take p.len p.bytes };

    ghost invariant = { λ p. p.len ≤ 8192 };
}

impl Pen {
    /// A pen that holds nothing.
    pub fn new() -> Pen
        ensures { result ≡ [] }
    {
        Pen {
            bytes: [0; 8192],
            len: 0,
        }
    }

    /// The bytes that it holds.
    pub fn held(&self) -> &[u8]
        ensures { result.now ≡ self.now }
    {
        &self.bytes[..self.len]
    }

    /// Drops the bytes that it holds.
    pub fn clear(&mut self)
        ensures { self.new ≡ [] }
    {
        self.len = 0;
    }

    /// Puts bytes, for which it has room.
    pub fn put(&mut self, bytes: &[u8])
        requires { length self.old + length bytes.now ≤ 8192 }
        ensures { self.new ≡ self.old ++ bytes.now }
    {
        let end = self.len + bytes.len();
        self.bytes[self.len..end].copy_from_slice(bytes);
        self.len = end;
    }

    /// Puts one byte, for which it has room.
    pub fn put_byte(&mut self, byte: u8)
        requires { length self.old < 8192 }
        ensures { self.new ≡ self.old ++ byte ∷ [] }
    {
        self.bytes[self.len] = byte;
        self.len += 1;
    }

    /// Puts the digits of a number, of which there are at most ten.
    pub fn put_decimal(&mut self, n: u32)
        requires { length self.old + 10 ≤ 8192 }
        ensures text { self.new ≡ self.old ++ decimal n }
        ensures few { length self.new ≤ length self.old + 10 }
    {
        let mut buffer = Buffer::new();
        self.put(buffer.format(n).as_bytes());
    }

    /// Sends all that is held.
    ///
    /// # Errors
    ///
    /// `Failed` where the sink failed, which then took a prefix of what was held.
    pub fn send<O: Sink>(&mut self, out: &mut O) -> Result<(), Failed>
        ensures counts { O.faults out.old ≤ O.faults out.new }
        ensures ok { OnOk result (Grew (O.taken out.old) (O.taken out.new) self.old) }
        ensures empty { OnOk result (self.new ≡ []) }
        ensures prefix { OnErr result (AppendsPrefix (O.taken out.old) (O.taken out.new) self.old) }
        ensures failed { OnErr result (Rose (O.faults out.old) (O.faults out.new)) }
    {
        write_all(out, &self.bytes[..self.len])?;
        self.len = 0;
        Ok(())
    }

    /// Leaves room for 4,096 bytes or more: sends all where more than 4,096 are held.
    ///
    /// # Errors
    ///
    /// `Failed` where the sink failed, which then took a prefix of what was held.
    pub fn make_room<O: Sink>(&mut self, out: &mut O) -> Result<(), Failed>
        ensures counts { O.faults out.old ≤ O.faults out.new }
        ensures ok { OnOk result (Passes (O.taken out.old) (O.taken out.new) self.old self.new []) }
        ensures room { OnOk result (length self.new ≤ 4096) }
        ensures prefix { OnErr result (AppendsPrefix (O.taken out.old) (O.taken out.new) self.old) }
        ensures failed { OnErr result (Rose (O.faults out.old) (O.faults out.new)) }
    {
        if self.len > 4096 {
            self.send(out)?;
        }
        Ok(())
    }

    /// Puts bytes of any number, and sends as many as it has to.
    ///
    /// # Errors
    ///
    /// `Failed` where the sink failed, which then took a prefix of what was held and of these.
    pub fn put_all<O: Sink>(&mut self, bytes: &[u8], out: &mut O) -> Result<(), Failed>
        ensures counts { O.faults out.old ≤ O.faults out.new }
        ensures ok { OnOk result (Passes (O.taken out.old) (O.taken out.new) self.old self.new
            bytes.now) }
        ensures room { OnOk result (length self.new ≤ 8191) }
        ensures prefix { OnErr result (AppendsPrefix (O.taken out.old) (O.taken out.new)
            (self.old ++ bytes.now)) }
        ensures failed { OnErr result (Rose (O.faults out.old) (O.faults out.new)) }
    {
        self.make_room(out)?;
        if bytes.len() < 4096 {
            self.put(bytes);
            return Ok(());
        }
        self.send(out)?;
        write_all(out, bytes)
    }
}
