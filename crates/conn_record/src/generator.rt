//! A state of 64 bits, and what is drawn from it.
ghost use Rattle.std.specs.Prelude.{◌≡◌, ◌++◌, ◌<◌, ◌^◌, OnOk};
ghost use Rattle.conn_record.specs.Generator.{next, drawn, after, letters, size};

use kj_base::{Bytes, NoMemory};

#[derive(Clone, Copy, Debug, PartialEq, Eq)]
pub(crate) struct Generator {
    pub state: u64,
}

impl Generator {
    /// Draws a number below 2^31.
    pub fn draw(&mut self) -> u64
        ensures state { self.new.state ≡ next self.old.state }
        ensures value { result ≡ drawn self.new.state }
        ensures small { result < 2 ^ 31 }
    {
        self.state = self
            .state
            .wrapping_mul(6_364_136_223_846_793_005)
            .wrapping_add(1_442_695_040_888_963_407);
        self.state >> 33
    }

    /// Draws the number of octets of a body.
    pub fn draw_size(&mut self) -> u8
        ensures state { self.new.state ≡ next self.old.state }
        ensures value { result ≡ size self.old.state }
        ensures small { result < 16 }
    {
        (self.draw() % 16) as u8
    }

    /// Appends so many letters, each from a draw. An `Err` may leave a part of them.
    pub fn push_letters(&mut self, count: u8, out: &mut Bytes) -> Result<(), NoMemory>
        ensures letters { OnOk result (out.new ≡ out.old ++ letters count self.old.state) }
        ensures after { OnOk result (self.new.state ≡ after count self.old.state) }
    {
        for _ in 0..count {
            let letter = b'a' + (self.draw() % 26) as u8;
            out.push(letter)?;
        }
        Ok(())
    }
}
