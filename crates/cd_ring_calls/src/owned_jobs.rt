//! Jobs and results that own memory.
use crate::tasks::{Copies, posts, serve_one};
use cd_name::List;
use cd_ring::{Ring, Taken};
use std::test::Fail;

// Whether a post handed this job back.
fn is_refused(answer: Result<(), Vec<u8>>, wanted: &[u8]) -> bool {
    match answer {
        Err(job) => job.as_slice() == wanted,
        Ok(()) => false,
    }
}

// Whether a take gave this result.
fn is_copy(answer: Taken<Option<Vec<u8>>>, wanted: &[u8]) -> bool {
    match answer {
        Taken::Result(Some(copy)) => copy.as_slice() == wanted,
        Taken::Result(None) => false,
        Taken::NotYet => false,
        Taken::Empty => false,
    }
}

// The result that a worker lays is the one that `take` gives. `perform` never gives this one.
#[test]
fn result_of_the_worker_is_taken(rt: HostRuntime) -> Result<(), Fail> {
    let alloc = rt.alloc();
    let job = vec![in alloc; 1u8]?;
    let own = vec![in alloc; 9u8]?;
    let (ring, mut post, works) = Ring::new(alloc, Copies { alloc }, 1, 1)?;
    let Some(mut work) = works.into_vec().pop() else {
        panic!(rt; "no worker")
    };
    let posted = posts(&ring, &mut post, job);
    let Some(claim) = work.try_claim(&ring) else {
        panic!(rt; "no claim")
    };
    work.finish(&ring, claim, Some(own));
    let taken = is_copy(post.take(&ring), &[9]);
    assert!(rt; posted && taken);
    let Taken::Empty = post.take(&ring) else {
        panic!(rt; "a job is out")
    };
    ring.close(post, List::from_vec(Vec::new(alloc)));
    Ok(())
}

#[test]
fn jobs_that_own_memory(rt: HostRuntime) -> Result<(), Fail> {
    let alloc = rt.alloc();
    let one = vec![in alloc; 1u8, 2, 3]?;
    let two = vec![in alloc; 4u8]?;
    let three = vec![in alloc; 5u8]?;
    let (ring, mut post, works) = Ring::new(alloc, Copies { alloc }, 2, 1)?;
    let Some(mut work) = works.into_vec().pop() else {
        panic!(rt; "no worker")
    };
    let first = posts(&ring, &mut post, one);
    let second = posts(&ring, &mut post, two);
    let handed_back = is_refused(post.post(&ring, three), &[5]);
    let served = serve_one(&ring, &mut work);
    let copied = is_copy(post.take(&ring), &[1, 2, 3]);
    let performed = is_copy(post.take(&ring), &[4]);
    assert!(rt; first && second && handed_back && served && copied && performed);
    let Taken::Empty = post.take(&ring) else {
        panic!(rt; "a job is out")
    };
    ring.close(post, List::from_vec(Vec::new(alloc)));
    Ok(())
}
