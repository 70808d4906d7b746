//! A coordinator and two workers, each in a thread of the caller's own. Where no thread can be made the coordinator comes
//! first and does all jobs, and the workers find the ring stopped.
ghost use Rattle.std.specs.Prelude.{◌≡◌, [], true, All, IfSome};
ghost use Rattle.cd_ring.specs.Claims.{holds_none};
ghost use Rattle.cd_ring.specs.Words.{IsPostOf, jobs_out, IsWorkOf, claims};

use crate::tasks::{Next, serve_one};
use cd_name::List;
use cd_ring::{Post, Ring, Taken, Task, Work};
use std::sync::Wait;
use std::sync::atomic::{AtomicU64, Ordering};
use std::test::Fail;
use std::thread;
use std::thread::Threads;

// How often the coordinator looks whether both workers have begun, before it goes on without them.
const TURNS: u32 = 10_000_000;

// Serves the ring until it is stopped. The worker is counted as it begins.
fn serve<R: Wait, T: Task>(rt: &R, ring: &Ring<T>, begun: &AtomicU64, mut work: Work<T>) -> Work<T>
    requires { IsWorkOf ring.now work × (holds_none (claims work) ≡ true) }
    ensures { IsWorkOf ring.now result × (holds_none (claims result) ≡ true) }
{
    begun.fetch_add(1, Ordering::SeqCst);
    for _ in rt.forever() {
        if !serve_one(ring, &mut work) && work.stopped(ring) {
            break;
        }
    }
    work
}

// Takes what is there, until no job is out where `all` says so. How many results were taken, and whether each was next.
fn take_all<R: Wait>(
    rt: &R,
    ring: &Ring<Next>,
    post: &mut Post<Next>,
    mut taken: u64,
) -> (u64, bool)
    requires { IsPostOf ring.now post.old }
    ensures { IsPostOf ring.now post.new × (jobs_out post.new ≡ []) }
{
    let mut right = true;
    for _ in rt.forever() {
        match post.take(ring) {
            Taken::Result(done) => {
                right = right && done == taken.wrapping_add(1);
                taken = taken.wrapping_add(1);
            }
            Taken::NotYet => {}
            Taken::Empty => break,
        }
    }
    (taken, right)
}

// Waits until both workers have begun, but no longer than so many turns.
fn wait_for_both(begun: &AtomicU64) {
    for _ in 0..TURNS {
        if begun.load(Ordering::SeqCst) == 2 {
            break;
        }
    }
}

// Posts 1,000 jobs once the workers have begun, takes their results, and stops the ring. Whether they came in order.
fn lead<R: Wait>(
    rt: &R,
    ring: &Ring<Next>,
    begun: &AtomicU64,
    mut post: Post<Next>,
) -> (Post<Next>, bool)
    requires { IsPostOf ring.now post }
    ensures { IsPostOf ring.now result.0 × (jobs_out result.0 ≡ []) }
{
    wait_for_both(begun);
    let mut taken = 0u64;
    let mut right = true;
    for job in 0..1000u64 {
        if post.is_full() {
            let (count, next) = take_all(rt, ring, &mut post, taken);
            taken = count;
            right = right && next;
        }
        right = post.post(ring, job).is_ok() && right;
    }
    let (count, next) = take_all(rt, ring, &mut post, taken);
    post.stop(ring);
    (post, right && next && count == 1000)
}

// Two workers, each in a thread. Any task may be shared so, if its jobs and results may be sent.
fn serve_both<R: Threads + Wait + Sync, T: Task + Sync>(
    rt: &R,
    ring: &Ring<T>,
    begun: &AtomicU64,
    one: Work<T>,
    two: Work<T>,
) -> (Work<T>, Work<T>)
where
    T::Job: Send,
    T::Done: Send,
    requires one { IsWorkOf ring.now one × (holds_none (claims one) ≡ true) }
    requires two { IsWorkOf ring.now two × (holds_none (claims two) ≡ true) }
    ensures one { IsWorkOf ring.now result.0 × (holds_none (claims result.0) ≡ true) }
    ensures two { IsWorkOf ring.now result.1 × (holds_none (claims result.1) ≡ true) }
{
    thread::join(
        rt,
        || serve(rt, ring, begun, one),
        || serve(rt, ring, begun, two),
    )
}

// The last of the workers' seats.
fn take_work<T: Task>(ring: &Ring<T>, works: &mut Vec<Work<T>>) -> Option<Work<T>>
    requires { All (λ w. IsWorkOf ring.now w × (holds_none (claims w) ≡ true)) works.old.items }
    ensures work { IfSome result (λ w. IsWorkOf ring.now w × (holds_none (claims w) ≡ true)) }
    ensures works { All (λ w. IsWorkOf ring.now w × (holds_none (claims w) ≡ true)) works.new.items }
{
    works.pop()
}

#[test]
fn two_workers_keep_the_order(rt: HostRuntime) -> Result<(), Fail> {
    let (ring, post, works) = Ring::new(rt.alloc(), Next, 8, 2)?;
    let mut works = works.into_vec();
    let Some(one) = take_work(&ring, &mut works) else {
        panic!(rt; "no worker")
    };
    let Some(two) = take_work(&ring, &mut works) else {
        panic!(rt; "no second worker")
    };
    let begun = AtomicU64::new(0);
    let (_works, (post, right)) = thread::join(
        &rt,
        || serve_both(&rt, &ring, &begun, one, two),
        || lead(&rt, &ring, &begun, post),
    );
    assert!(rt; right);
    ring.close(post, List::from_vec(Vec::new(rt.alloc())));
    Ok(())
}
