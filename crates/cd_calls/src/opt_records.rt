ghost use Rattle.std.specs.Prelude.{◌<◌, ◌≤◌, length};
ghost use Rattle.cd_message.specs.Valid.{Valid};
ghost use Rattle.cd_edns.specs.Opts.{HasNoOpt};

use cd_edns::{Opt, opt_of, opt_ref, put_opt};
use cd_message::{Message, parse};
use cd_name::Blob;
use std::alloc::{AllocError, Global};

// A response with RCODE 0 and no OPT record.
const PLAIN: &[u8] = b"\x1a\x2b\x81\x80\0\0\0\0\0\0\0\0";

// Puts an OPT record into a message, and reads it back.
fn opt_put(alloc: Global, message: &mut Message, opt: Opt) -> Result<Option<Opt>, AllocError>
    requires none { HasNoOpt message.old }
    requires valid { Valid message.old }
    requires room { length message.old.additional < 65535 }
    requires short { length opt.rdata ≤ 65535 }
{
    put_opt(message, opt)?;
    opt_of(alloc, message)
}

#[test]
fn an_opt_record_is_put(rt: HostRuntime) -> Result<(), AllocError> {
    let opt = Opt {
        udp_size: 512,
        ext_rcode: 1,
        version: 2,
        dnssec_ok: true,
        rdata: Blob::from_vec(Vec::from_slice(rt.alloc(), b"\xab")?),
    };
    let Ok(parsed) = parse(rt.alloc(), PLAIN) else {
        return Err(AllocError);
    };
    let mut message = parsed.message;
    assert!(rt; message.additional.as_slice().len() < 65535);
    match opt_ref(&message) {
        Some(_found) => assert!(rt; false),
        None => match opt_put(rt.alloc(), &mut message, opt)? {
            Some(found) => {
                assert_eq!(rt;
                    (found.udp_size, found.ext_rcode, found.version),
                    (512, 1, 2)
                );
                assert!(rt; found.dnssec_ok);
                assert!(rt; found.rdata.as_slice() == b"\xab".as_slice());
            }
            None => assert!(rt; false),
        },
    }
    Ok(())
}
