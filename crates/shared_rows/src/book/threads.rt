//! Four threads, each of which does a task with a pass of its own, beside the others.
ghost use Rattle.std.specs.Prelude.{◌≡◌};

use std::alloc::Global;
use std::sync::Wait;
use std::thread::{Threads, join};

/// How often a thread's job went well, and the places of its entries.
#[derive(Drop)]
pub(crate) struct Work {
    pub(crate) made: u64,
    pub(crate) places: Vec<u64>,
}

/// What each of the threads does.
pub(crate) trait Task<P> {
    /// The passes with which it is done.
    ghost fits: { Self → P → Type 0 };

    /// All work of the thread of this number.
    fn run<H: Wait>(&self, rt: &H, alloc: Global, pass: P, thread: u64) -> (P, Work)
        requires { fits self.now pass }
        ensures { fits self.now result.0 };
}

/// What a thread gives back.
pub(crate) type Back<P> = (P, Work);

fn two_work<H: Threads + Wait + Sync, P: Drop + Send, J: Task<P> + Sync>(
    rt: &H,
    alloc: Global,
    task: &J,
    one: (P, u64),
    two: (P, u64),
) -> (Back<P>, Back<P>)
    requires { J.fits task.now one.0 × J.fits task.now two.0 }
    ensures { J.fits task.now result.0.0 × J.fits task.now result.1.0 }
{
    let (one, from_one) = one;
    let (two, from_two) = two;
    join(
        rt,
        move || -> Back<P>
            requires { J.fits task.now one }
            ensures { J.fits task.entry.now result.0 }
        { task.run(rt, alloc, one, from_one) },
        move || -> Back<P>
            requires { J.fits task.now two }
            ensures { J.fits task.entry.now result.0 }
        { task.run(rt, alloc, two, from_two) },
    )
}

/// Four threads do the task.
pub(crate) fn four_work<H: Threads + Wait + Sync, P: Drop + Send, J: Task<P> + Sync>(
    rt: &H,
    alloc: Global,
    task: &J,
    one: (P, P),
    two: (P, P),
) -> ((Back<P>, Back<P>), (Back<P>, Back<P>))
    requires one { J.fits task.now one.0 × J.fits task.now one.1 }
    requires two { J.fits task.now two.0 × J.fits task.now two.1 }
    ensures one { J.fits task.now result.0.0.0 × J.fits task.now result.0.1.0 }
    ensures two { J.fits task.now result.1.0.0 × J.fits task.now result.1.1.0 }
{
    let (first, second) = one;
    let (third, fourth) = two;
    join(
        rt,
        move || -> (Back<P>, Back<P>)
            requires { J.fits task.now first × J.fits task.now second }
            ensures { J.fits task.entry.now result.0.0 × J.fits task.entry.now result.1.0 }
        { two_work(rt, alloc, task, (first, 1), (second, 2)) },
        move || -> (Back<P>, Back<P>)
            requires { J.fits task.now third × J.fits task.now fourth }
            ensures { J.fits task.entry.now result.0.0 × J.fits task.entry.now result.1.0 }
        { two_work(rt, alloc, task, (third, 3), (fourth, 4)) },
    )
}
