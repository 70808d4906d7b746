//! As many seats and slots as there may be.
ghost use Rattle.std.specs.Prelude.{◌≡◌, true, All};
ghost use Rattle.cd_ring.specs.Claims.{holds_none};
ghost use Rattle.cd_ring.specs.Words.{IsPostOf, IsWorkOf, claims};

use crate::tasks::{Next, serve_one};
use cd_name::List;
use cd_ring::{Post, Ring, Taken, Work};
use std::test::Fail;

// A worker serves four jobs, if so many are READY. How many it served.
fn serve_four(ring: &Ring<Next>, work: &mut Work<Next>) -> u32
    requires { IsWorkOf ring.now work.old }
    ensures { IsWorkOf ring.now work.new × (claims work.new ≡ claims work.old) }
{
    let first = serve_one(ring, work);
    let second = serve_one(ring, work);
    let third = serve_one(ring, work);
    let fourth = serve_one(ring, work);
    u32::from(first) + u32::from(second) + u32::from(third) + u32::from(fourth)
}

// Each worker serves four jobs. How many were served.
fn serve_all(ring: &Ring<Next>, mut works: Vec<Work<Next>>) -> u32
    requires { All (λ w. IsWorkOf ring.now w × (holds_none (claims w) ≡ true)) works.items }
{
    let mut served = 0u32;
    while let Some(mut work) = works.pop() {
        served = served.saturating_add(serve_four(ring, &mut work));
    }
    served
}

// Posts 256 jobs. Whether each was taken.
fn post_all(ring: &Ring<Next>, post: &mut Post<Next>) -> bool
    requires { IsPostOf ring.now post.old }
    ensures { IsPostOf ring.now post.new }
{
    let mut right = true;
    for job in 0..256u64 {
        right = post.post(ring, job).is_ok() && right;
    }
    right
}

// Takes 256 results. Whether each was next.
fn take_all(ring: &Ring<Next>, post: &mut Post<Next>) -> bool
    requires { IsPostOf ring.now post.old }
    ensures { IsPostOf ring.now post.new }
{
    let mut right = true;
    for job in 0..256u64 {
        match post.take(ring) {
            Taken::Result(done) => right = right && done == job + 1,
            _ => right = false,
        }
    }
    right
}

#[test]
fn all_seats_and_slots(rt: HostRuntime) -> Result<(), Fail> {
    let (ring, mut post, works) = Ring::new(rt.alloc(), Next, 256, 64)?;
    let right = post_all(&ring, &mut post);
    assert!(rt; right && post.is_full());
    let served = serve_all(&ring, works.into_vec());
    assert!(rt; served == 256);
    let right = take_all(&ring, &mut post);
    assert!(rt; right);
    let Taken::Empty = post.take(&ring) else {
        panic!(rt; "a job is out")
    };
    ring.close(post, List::from_vec(Vec::new(rt.alloc())));
    Ok(())
}
