//! How many bytes a block of a C-DNS file takes: a law on what the crates below define, with no code of its own.
//!
//! A block takes at most the weight of its run and 1,024 bytes (`laws`). So the limit of weight by which runs are cut
//! is a limit of bytes too. And the block of a run has numbers in the ranges in which a file is read, so it is read back.
//!
//! Example: a run of one query without a question, which weighs 256, is a block of at most 1,280 bytes.
#![tactic(auto)]

pub mod laws;
