//! Calls of `cd_workload`, for what no table of values can say: each public call with ample memory.
#![tactic(auto)]

#[cfg(test)]
mod lookups;
