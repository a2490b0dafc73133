//! Four threads, each of which does a job over a port of its own onto one book.
ghost use Rattle.std.specs.Prelude.{◌≡◌};
ghost use Rattle.turn_lock.specs.Known.{IsPassOf};

use crate::book::jobs::{Job, do_job};
use crate::book::opening::Users;
use crate::book::passes::another;
use crate::book::threads::{Back, Task, Work, four_work};
use auth_port::{Pass, SharedBook, Turns};
use std::alloc::Global;
use std::sync::Wait;
use std::thread::Threads;

// A job over the book under this lock.
#[derive(Drop)]
pub(crate) struct Shift<'a> {
    turns: &'a Turns<Users>,
    job: Job,
}

impl<'a> Task<Pass<Users>> for Shift<'a> {
    ghost fits = { λ shift pass. IsPassOf shift.turns.now pass };

    fn run<H: Wait>(
        &self,
        rt: &H,
        alloc: Global,
        pass: Pass<Users>,
        thread: u64,
    ) -> (Pass<Users>, Work)
        requires { IsPassOf self.now.turns.now pass }
        ensures { IsPassOf self.now.turns.now result.0 }
    {
        let mut port = SharedBook::new(rt, alloc, self.turns, pass);
        let made = do_job(&mut port, self.job, thread);
        let (pass, places) = port.into_pass();
        (pass, Work { made, places })
    }
}

/// What the four did.
pub(crate) type Works = (Work, Work, Work, Work);

// The pass has met those of all four.
fn met(
    turns: &Turns<Users>,
    backs: (
        (Back<Pass<Users>>, Back<Pass<Users>>),
        (Back<Pass<Users>>, Back<Pass<Users>>),
    ),
) -> (Pass<Users>, Works)
    requires one { IsPassOf turns.now backs.0.0.0 × IsPassOf turns.now backs.0.1.0 }
    requires two { IsPassOf turns.now backs.1.0.0 × IsPassOf turns.now backs.1.1.0 }
    ensures { IsPassOf turns.now result.0 }
{
    let ((one, two), (three, four)) = backs;
    let (mut pass, of_one) = one;
    let (other, of_two) = two;
    turns.meet(&mut pass, other);
    let (other, of_three) = three;
    turns.meet(&mut pass, other);
    let (other, of_four) = four;
    turns.meet(&mut pass, other);
    (pass, (of_one, of_two, of_three, of_four))
}

/// Four threads do the job. The pass has met theirs afterwards.
pub(crate) fn share<H: Threads + Wait + Sync>(
    rt: &H,
    alloc: Global,
    turns: &Turns<Users>,
    pass: Pass<Users>,
    job: Job,
) -> (Pass<Users>, Works)
    requires { IsPassOf turns.now pass }
    ensures { IsPassOf turns.now result.0 }
{
    let mut one = pass;
    let two = another(turns, &mut one);
    let three = another(turns, &mut one);
    let four = another(turns, &mut one);
    let shift = Shift { turns, job };
    let backs = four_work(rt, alloc, &shift, (one, two), (three, four));
    met(turns, backs)
}
