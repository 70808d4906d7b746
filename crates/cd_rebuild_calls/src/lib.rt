//! Calls of `cd_rebuild`, and of what writes a capture in `cd_pcap`, for what no table of values can say: each public
//! call with ample memory.
#![tactic(auto)]

#[cfg(test)]
mod pairs;
