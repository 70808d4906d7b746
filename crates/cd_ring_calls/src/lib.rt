//! Calls of the ring, for what no clause says: histories on one thread, threads of the caller's own, as many seats and
//! slots as there may be, and jobs that own memory.
#![tactic(auto)]

#[cfg(test)]
mod many_seats;
#[cfg(test)]
mod one_thread;
#[cfg(test)]
mod owned_jobs;
#[cfg(test)]
mod tasks;
#[cfg(test)]
mod threads;
