//! Work in another thread beside work in this one.
ghost use Rattle.std.specs.Prelude.{◌≡◌};

use std::snapshot::Snapshot;
use std::sync::Wait;
use std::thread::{self, Promise, Threads};

/// What is done once, by the thread that has it.
pub(crate) trait Duty {
    type Outcome;

    /// When it may be done.
    ghost may_begin: { Self → Type 0 };

    /// What may come of it.
    ghost ends_with: { Self → Self.Outcome → Type 0 };

    fn perform(self) -> Self::Outcome
        requires { may_begin self }
        ensures { ends_with self result };
}

// A call of a closure that is given away.
#[derive(Drop)]
struct Given<F> {
    closure: F,
}

impl<F: FnOnce() -> A, A> Duty for Given<F> {
    type Outcome = A;

    ghost may_begin = { λ call. F.pre call.closure };

    ghost ends_with = { λ call outcome. F.post call.closure outcome };

    fn perform(self) -> A {
        let Given { closure } = self;
        closure()
    }
}

// A call of a closure that is lent. The closure comes back with what it answers, so that one knows what it left in its captures.
#[derive(Drop)]
struct Call<'a, F> {
    closure: &'a mut F,
}

impl<'a, F: FnMut() -> A, A> Duty for Call<'a, F> {
    type Outcome = (&'a mut F, A);

    ghost may_begin = { λ call. F.pre call.closure.now };

    ghost ends_with = { λ call outcome. (outcome.0.ghost_name ≡ call.closure.ghost_name)
        × F.step call.closure.now outcome.1 outcome.0.now };

    fn perform(self) -> (&'a mut F, A) {
        let Call { closure } = self;
        let answer = closure();
        (closure, answer)
    }
}

// That of this duty comes what may come of it.
#[derive(Drop)]
struct Kept<T> {
    duty: Snapshot<T>,
}

impl<T: Duty> Promise<T::Outcome> for Kept<T> {
    ghost kept_by = { λ promise outcome. T.ends_with promise.duty.value outcome };
}

// Runs the first in a new thread and the other in this one. Where no thread can be made both are run in this one, the first before
// the other.
fn run_both<H, S, T, A, B>(rt: &H, there: S, here: T) -> (A, B)
where
    H: Threads + Wait,
    S: Duty<Outcome = A> + Send + Drop,
    T: Duty<Outcome = B> + Drop,
    A: Send + Drop,
    requires { S.may_begin there × T.may_begin here }
    ensures { S.ends_with there result.0 × T.ends_with here result.1 }
{
    thread::scope(
        thread::scope_env(),
        rt,
        move |scope| -> (A, B)
            requires { S.may_begin there × T.may_begin here }
            ensures { S.ends_with there result.0 × T.ends_with here result.1 }
        {
            let promise = Kept {
                duty: Snapshot::of(&there),
            };
            let task = move || -> A
                requires { S.may_begin there }
                ensures { S.ends_with there result }
            { there.perform() };
            match scope.spawn_with(promise, task) {
                Ok(handle) => {
                    let own = here.perform();
                    (handle.join(rt), own)
                }
                Err(refused) => {
                    let other = (refused.value)();
                    (other, here.perform())
                }
            }
        },
    )
}

// A last look at what was lent. It changes nothing, but by it the borrow checker knows that the loan came from the caller.
fn look_back<T>(lent: &mut T)
    ensures { lent.new ≡ lent.old }
{}

/// Calls the one closure in a new thread, and the other, which is lent, in this one. Where no thread can be made both are called in
/// this one, the one before the other, which so may wait for its end.
pub(crate) fn run_beside<H, S, F, A, B>(rt: &H, there: S, here: &mut F) -> (A, B)
where
    H: Threads + Wait,
    S: FnOnce() -> A + Send + Drop,
    F: FnMut() -> B,
    A: Send + Drop,
    requires { S.pre there × F.pre here.old }
    ensures there { S.post there result.0 }
    ensures here { F.step here.old result.1 here.new }
{
    let (other, (closure, answer)) = run_both(rt, Given { closure: there }, Call { closure: here });
    look_back(closure);
    (other, answer)
}
