//! The capture of a workload: packets of DNS that are the same on each machine, by which a run is measured and compared.
//!
//! - A *lookup* is a query of a client for the address of a name, and mostly a response of the server.
//! - A *state* of the generator leads to the next one. The *seed* is the state before the first lookup. What is *drawn*
//!   at a state, its high 31 bits, tells the client, its port, the name, the address, and whether there is a response.
//! - The *workload* of a count and a seed is the capture of so many lookups, one every 250 µs.
//!
//! Example: the workload of one lookup from seed 0 on holds the query of 10.0.189.191, port 12831, for h807.example, and
//! after 100 µs the response of 192.0.2.53.
#![tactic(auto)]

mod ends;
mod generator;
pub mod laws;
mod lookup;
mod messages;
mod names;
mod packets;
mod summing;
mod writing;

pub use summing::file_sum;
pub use writing::workload;
