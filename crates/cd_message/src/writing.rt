//! A message as far as it is written.

ghost use Rattle.std.specs.Prelude.{◌≡◌, [], ◌<◌, ◌+◌};
ghost use Rattle.cd_name.specs.Names.{IsName};
ghost use Rattle.cd_name.specs.WrittenNames.{name_piece};
ghost use Rattle.cd_message.specs.Written.{bytes_piece};
ghost use Rattle.cd_message.specs.Putting.{Puts};

use cd_name::{Blob, NameWriter};
use std::alloc::{AllocError, Global};

// The most bytes of a message: over TCP its length stands before it in two bytes (RFC 1035 4.2.2).
pub(crate) const MAX_MESSAGE: usize = 65535;

// Why a message was not written.
#[derive(Clone, Copy)]
pub enum WriteFault {
    // It has more than 65,535 bytes.
    TooLong,
    NoMemory,
}

// The bytes of a message as far as it is written, and the names in them.
#[derive(Drop)]
pub struct Writing {
    pub bytes: Blob,
    pub names: NameWriter,
}

impl Writing {
    pub(crate) fn new(alloc: Global) -> Writing
        ensures bytes { result.bytes ≡ [] }
        ensures names { result.names ≡ [] }
    {
        Writing {
            bytes: Blob::from_vec(Vec::new(alloc)),
            names: NameWriter::new(alloc),
        }
    }

    // Appends bytes.
    pub(crate) fn put_bytes(&mut self, bytes: &[u8]) -> Result<(), WriteFault>
        ensures { Puts (bytes_piece bytes.now) self.old self.new result }
    {
        let size = self.bytes.as_slice().len();
        if size > MAX_MESSAGE || bytes.len() > MAX_MESSAGE - size {
            return Err(WriteFault::TooLong);
        }
        match self.bytes.push_slice(bytes) {
            Ok(()) => Ok(()),
            Err(AllocError) => Err(WriteFault::NoMemory),
        }
    }

    // Appends a name.
    pub(crate) fn put_name(&mut self, name: &[u8]) -> Result<(), WriteFault>
        requires { IsName name.now }
        ensures { Puts (name_piece name.now) self.old self.new result }
    {
        match self.names.put_slice(&mut self.bytes, name) {
            Ok(()) => {}
            Err(AllocError) => return Err(WriteFault::NoMemory),
        }
        if self.bytes.as_slice().len() > MAX_MESSAGE {
            return Err(WriteFault::TooLong);
        }
        Ok(())
    }
}
