//! Tasks for the tests, and a step of a worker.
ghost use Rattle.std.specs.Prelude.{◌≡◌, ◌+◌, ◌^◌, ◌%◌};
ghost use Rattle.cd_ring.specs.Words.{IsPostOf, IsWorkOf, claims};

use cd_ring::{Post, Ring, Taken, Task, Work};
use std::alloc::Global;

// A job is a number, and its result the next one.
#[derive(Drop)]
pub(crate) struct Next;

impl Task for Next {
    type Job = u64;

    type Done = u64;

    ghost meets = { λ _ job done. done ≡ (job + 1) % 2 ^ 64 };

    fn perform(&self, job: &u64) -> u64 {
        job.wrapping_add(1)
    }
}

// A job is a text that it owns, and its result a copy of it, or None for want of memory.
#[derive(Drop)]
pub(crate) struct Copies {
    pub(crate) alloc: Global,
}

impl Task for Copies {
    type Job = Vec<u8>;

    type Done = Option<Vec<u8>>;

    ghost meets = { λ _ job done. Unit {0} };

    fn perform(&self, job: &Vec<u8>) -> Option<Vec<u8>> {
        let mut copy = Vec::new(self.alloc);
        match copy.extend_from_slice(job.as_slice()) {
            Ok(()) => Some(copy),
            Err(_) => None,
        }
    }
}

// Claims a job where one is READY, performs it and lays its result. Whether there was one.
pub(crate) fn serve_one<T: Task>(ring: &Ring<T>, work: &mut Work<T>) -> bool
    requires { IsWorkOf ring.now work.old }
    ensures { IsWorkOf ring.now work.new × (claims work.new ≡ claims work.old) }
{
    match work.try_claim(ring) {
        Some(claim) => {
            let done = ring.task().perform(&claim.job);
            work.finish(ring, claim, done);
            true
        }
        None => false,
    }
}

// Posts a job. Whether a slot was free.
pub(crate) fn posts<T: Task>(ring: &Ring<T>, post: &mut Post<T>, job: T::Job) -> bool
    requires { IsPostOf ring.now post.old }
    ensures { IsPostOf ring.now post.new }
{
    post.post(ring, job).is_ok()
}

// Takes a result. Whether it is this one.
pub(crate) fn takes(ring: &Ring<Next>, post: &mut Post<Next>, wanted: u64) -> bool
    requires { IsPostOf ring.now post.old }
    ensures { IsPostOf ring.now post.new }
{
    match post.take(ring) {
        Taken::Result(done) => done == wanted,
        _ => false,
    }
}

// Whether a take says that a worker has the oldest job.
pub(crate) fn is_busy(ring: &Ring<Next>, post: &mut Post<Next>) -> bool
    requires { IsPostOf ring.now post.old }
    ensures { IsPostOf ring.now post.new }
{
    matches!(post.take(ring), Taken::NotYet)
}
