//! Writes RDATA.

ghost use Rattle.std.specs.Prelude.{◌≡◌, ◌≤◌, List, ℕ, All, length};
ghost use Rattle.std.specs.List.{concat};
ghost use Rattle.cd_name.specs.Names.{IsName};
ghost use Rattle.cd_name.specs.WrittenNames.{name_piece};
ghost use Rattle.cd_message.specs.Shapes;
ghost use Rattle.cd_message.specs.Written;
ghost use Rattle.cd_message.specs.Written.{each_in_turn, rdata_piece, with_length};
ghost use Rattle.cd_message.specs.Putting.{Puts, AreNamesInFront, ArePartsOf};

use crate::shape::{Shape, shape_of};
use crate::writing::{WriteFault, Writing};
use cd_name::name_size;

// RDATA in its parts: bytes, names without pointers and bytes.
#[derive(Clone, Copy)]
pub struct Parts<'a> {
    pub before: &'a [u8],
    pub names: &'a [u8],
    pub after: &'a [u8],
}

// The number of bytes of so many names without pointers, one after the other, that some bytes begin with.
fn names_size(bytes: &[u8], count: usize) -> Option<usize>
    ensures { AreNamesInFront count bytes.now result }
{
    let mut end = 0;
    'names: for _ in 0..count {
        match name_size(&bytes[end..]) {
            Some(size) => end += size,
            None => return None,
        }
    }
    Some(end)
}

// The parts of RDATA that fills a shape.
fn parts_of_shape<'a>(shape: Shape, rdata: &'a [u8]) -> Option<Parts<'a>>
    ensures { ArePartsOf (Written.parts_of_shape shape rdata.now) result }
{
    if rdata.len() < shape.before {
        return None;
    }
    let rest = &rdata[shape.before..];
    let size = names_size(rest, shape.names)?;
    if rest.len() - size != shape.after {
        return None;
    }
    Some(Parts {
        before: &rdata[..shape.before],
        names: &rest[..size],
        after: &rest[size..],
    })
}

// The parts of RDATA of a type, if it fills a shape whose names are compressed.
fn compressed_parts<'a>(rtype: u16, rdata: &'a [u8]) -> Option<Parts<'a>>
    ensures { ArePartsOf (Written.compressed_parts (Shapes.shape_of rtype) rdata.now) result }
{
    match shape_of(rtype) {
        Some(shape) => {
            if shape.compressed {
                parts_of_shape(shape, rdata)
            } else {
                None
            }
        }
        None => None,
    }
}

impl Writing {
    // Appends names that stand one after the other without pointers.
    fn put_names(&mut self, names: &[u8]) -> Result<(), WriteFault>
        requires { length self.old.bytes ≤ 65535 }
        ensures { (list : List (List ℕ)) → All IsName list → names.now ≡ concat list →
            Puts (each_in_turn name_piece list) self.old self.new result }
    {
        let mut rest = names;
        'names: while let Some(size) = name_size(rest) {
            let (name, after) = rest.split_at(size);
            self.put_name(name)?;
            rest = after;
        }
        Ok(())
    }

    // Appends the RDATA of a type.
    fn put_rdata(&mut self, rtype: u16, rdata: &[u8]) -> Result<(), WriteFault>
        ensures { Puts (rdata_piece rtype rdata.now) self.old self.new result }
    {
        match compressed_parts(rtype, rdata) {
            Some(parts) => {
                self.put_bytes(parts.before)?;
                self.put_names(parts.names)?;
                self.put_bytes(parts.after)
            }
            None => self.put_bytes(rdata),
        }
    }

    // Appends the RDATA of a type after its length.
    pub(crate) fn put_rdata_with_length(
        &mut self,
        rtype: u16,
        rdata: &[u8],
    ) -> Result<(), WriteFault>
        ensures { Puts (with_length (rdata_piece rtype rdata.now)) self.old self.new result }
    {
        let at = self.bytes.as_slice().len();
        self.put_bytes(&[0, 0])?;
        self.put_rdata(rtype, rdata)?;
        let size = self.bytes.as_slice().len() - at - 2;
        let [high, low] = (size as u16).to_be_bytes();
        self.bytes.set(at, high);
        self.bytes.set(at + 1, low);
        Ok(())
    }
}
