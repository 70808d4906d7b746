//! The capture of a workload.

ghost use Rattle.std.specs.Prelude.{◌≡◌, ◌<◌, ◌≤◌, ◌++◌, IfOk, OnOk};
ghost use Rattle.cd_pcap.specs.Spelled.{spelling_of, spellings};
ghost use Rattle.cd_pcap.specs.Writing.{written_form};
ghost use Rattle.cd_workload.specs.Workload;

use crate::generator::{draw, next_state};
use crate::lookup::Lookup;
use crate::packets::{query_packet, query_time, response_packet, response_time};
use cd_bytes::Out;
use cd_name::Blob;
use cd_pcap::{write_header, write_packet};
use std::alloc::{AllocError, Global};

// Writes the record of the query. An `Err` is for want of memory.
fn put_query(alloc: Global, out: &mut Out, lookup: Lookup) -> Result<(), AllocError>
    requires { lookup.number < 200000 }
    ensures { OnOk result (out.new ≡ out.old ++ spelling_of written_form (Workload.query_record lookup)) }
{
    let packet = query_packet(alloc, lookup)?;
    write_packet(alloc, out, query_time(lookup), packet.as_slice())
}

// Writes the record of the response. An `Err` is for want of memory.
fn put_response(alloc: Global, out: &mut Out, lookup: Lookup) -> Result<(), AllocError>
    requires { lookup.number < 200000 }
    ensures { OnOk result (out.new ≡ out.old ++ spelling_of written_form (Workload.response_record lookup)) }
{
    let packet = response_packet(alloc, lookup)?;
    write_packet(alloc, out, response_time(lookup), packet.as_slice())
}

// Writes the records of a lookup. An `Err` is for want of memory.
fn put_lookup(alloc: Global, out: &mut Out, lookup: Lookup) -> Result<(), AllocError>
    requires { lookup.number < 200000 }
    ensures { OnOk result (out.new ≡ out.old ++ spellings written_form (Workload.records_of lookup)) }
{
    put_query(alloc, out, lookup)?;
    if lookup.drawn % 16 == 0 {
        return Ok(());
    }
    put_response(alloc, out, lookup)
}

/// The capture of so many lookups, each a query for an address and mostly its response, in packets of UDP over IPv4. What
/// is asked, and by whom, is drawn from a seed. An `Err` is for want of memory.
pub fn workload(alloc: Global, count: u64, seed: u64) -> Result<Blob, AllocError>
    requires { count ≤ 200000 }
    ensures { IfOk result (λ capture. capture ≡ Workload.workload count seed) }
{
    let mut out = Out::new(alloc);
    write_header(&mut out)?;
    let mut state = seed;
    'lookups: for number in 0..count {
        state = next_state(state);
        let drawn = draw(state);
        put_lookup(alloc, &mut out, Lookup { number, drawn })?;
    }
    Blob::from_slice(alloc, out.bytes())
}
