//! Histories on one thread.
use crate::tasks::{Next, is_busy, posts, serve_one, takes};
use cd_name::List;
use cd_ring::{Ring, Taken, Task};
use std::test::Fail;

#[test]
fn two_slots_and_one_worker(rt: HostRuntime) -> Result<(), Fail> {
    let (ring, mut post, works) = Ring::new(rt.alloc(), Next, 2, 1)?;
    let Some(mut work) = works.into_vec().pop() else {
        panic!(rt; "no worker")
    };
    let first_posted = posts(&ring, &mut post, 10);
    let second_posted = posts(&ring, &mut post, 20);
    let handed_back = post.post(&ring, 30);
    assert!(rt; first_posted && second_posted && handed_back == Err(30) && post.is_full());
    let Some(claim) = work.try_claim(&ring) else {
        panic!(rt; "no claim")
    };
    let right = claim.job == 10 && claim.slot == 0;
    let busy = is_busy(&ring, &mut post);
    assert!(rt; right && busy);
    let done = ring.task().perform(&claim.job);
    work.finish(&ring, claim, done);
    let first = takes(&ring, &mut post, 11);
    let Some(claim) = work.try_claim(&ring) else {
        panic!(rt; "no second claim")
    };
    let right = claim.job == 20 && claim.slot == 1;
    let busy = is_busy(&ring, &mut post);
    assert!(rt; first && right && busy);
    let done = ring.task().perform(&claim.job);
    work.finish(&ring, claim, done);
    let second = takes(&ring, &mut post, 21);
    let Taken::Empty = post.take(&ring) else {
        panic!(rt; "a job is out")
    };
    let served = serve_one(&ring, &mut work);
    let posted = posts(&ring, &mut post, 40);
    let performed = takes(&ring, &mut post, 41);
    let early = work.stopped(&ring);
    assert!(rt; second && !served && posted && performed && !early);
    post.stop(&ring);
    let stopped = work.stopped(&ring);
    assert!(rt; stopped);
    let Taken::Empty = post.take(&ring) else {
        panic!(rt; "another job is out")
    };
    ring.close(post, List::from_vec(Vec::new(rt.alloc())));
    Ok(())
}

#[test]
fn one_slot_and_no_worker(rt: HostRuntime) -> Result<(), Fail> {
    let (ring, mut post, works) = Ring::new(rt.alloc(), Next, 1, 0)?;
    let posted = posts(&ring, &mut post, 7);
    let full = post.is_full();
    let taken = takes(&ring, &mut post, 8);
    assert!(rt; posted && full && taken && post.jobs_out() == 0);
    post.stop(&ring);
    let Taken::Empty = post.take(&ring) else {
        panic!(rt; "a job is out")
    };
    ring.close(post, works);
    Ok(())
}

#[test]
fn unused_seats_are_joined(rt: HostRuntime) -> Result<(), Fail> {
    let (ring, post, works) = Ring::new(rt.alloc(), Next, 4, 3)?;
    ring.close(post, works);
    Ok(())
}

// A worker may finish its claims in whatever order. The results come in the order of posting all the same.
#[test]
fn claims_are_finished_in_any_order(rt: HostRuntime) -> Result<(), Fail> {
    let (ring, mut post, works) = Ring::new(rt.alloc(), Next, 2, 1)?;
    let Some(mut work) = works.into_vec().pop() else {
        panic!(rt; "no worker")
    };
    let first_posted = posts(&ring, &mut post, 1);
    let second_posted = posts(&ring, &mut post, 2);
    assert!(rt; first_posted && second_posted);
    let Some(first) = work.try_claim(&ring) else {
        panic!(rt; "no first claim")
    };
    let Some(second) = work.try_claim(&ring) else {
        panic!(rt; "no second claim")
    };
    let first_done = ring.task().perform(&first.job);
    let second_done = ring.task().perform(&second.job);
    work.finish(&ring, second, second_done);
    let busy = is_busy(&ring, &mut post);
    work.finish(&ring, first, first_done);
    let first_taken = takes(&ring, &mut post, 2);
    let second_taken = takes(&ring, &mut post, 3);
    assert!(rt; busy && first_taken && second_taken);
    let Taken::Empty = post.take(&ring) else {
        panic!(rt; "a job is out")
    };
    ring.close(post, List::from_vec(Vec::new(rt.alloc())));
    Ok(())
}
