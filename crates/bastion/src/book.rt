//! The book of the records that the keeper has: it is opened for a service, and ended after a session.
ghost use Rattle.std.specs.Prelude.{◌≡◌, IsSome, IfOk, IfErr};
ghost use Rattle.bastion.specs.SessionSteps.{EndsOver, GivesBack, Opened, OpenedBy, Opens, StopsEach, Unopened, opening_fault};

use crate::reading::server_rules_for;
use crate::server_rules::ServerRules;
use crate::{Device, Kit, Outcome, Refusal, Step, World};
use auth_machine::{Book, OpenFault, Policy};
use fw_types::Ending;
use gate_rules::{Rules, Service};
use std::alloc::Global;

/// So many requests fit in a history.
const MOST_ENTRIES: u64 = 4_194_304;

fn opening_fault(fault: OpenFault) -> Outcome
    ensures { result ≡ opening_fault fault }
{
    match fault {
        OpenFault::LoadFault => Outcome::Failed(Device::Records),
        OpenFault::BadRecord { name, at } => Outcome::Unread(Refusal::Record { name, at }),
        OpenFault::NoMemory => Outcome::NoMemory(Step::Records),
    }
}

/// Opens the book of the records that the keeper has. A keeper whose records can't be read goes back to the world.
pub fn open_book<T: Kit>(
    alloc: Global,
    world: &mut World<T>,
    policy: Policy,
) -> Result<Book<T::Keeper>, Outcome>
    requires keeper { IsSome world.old.inputs.keeper }
    ensures opened { IfOk result (λ book. Opened policy book world.old world.new) }
    ensures unopened { IfErr result (λ fault. Unopened fault world.old world.new) }
{
    let Some(keeper) = world.keeper.take() else {
        unreachable!()
    };
    match Book::open(alloc, keeper, policy, MOST_ENTRIES) {
        Ok(book) => Ok(book),
        Err((keeper, fault)) => {
            world.keeper = Some(keeper);
            Err(opening_fault(fault))
        }
    }
}

// So it is opened, with the rules beside it.
fn open_by<T: Kit>(
    alloc: Global,
    server_rules: ServerRules,
    world: &mut World<T>,
) -> Result<(Rules, Book<T::Keeper>), Outcome>
    requires keeper { IsSome world.old.inputs.keeper }
    ensures opened { IfOk result (λ both. OpenedBy server_rules both.0 both.1 world.old world.new) }
    ensures unopened { IfErr result (λ fault. Unopened fault world.old world.new) }
{
    let ServerRules { rules, policy } = server_rules;
    match open_book(alloc, world, policy) {
        Ok(book) => Ok((rules, book)),
        Err(outcome) => Err(outcome),
    }
}

/// Opens the book of the records for a service, by what the table with this name says, and answers the service's rules beside
/// it. The keeper is in the book; where what is needed can't be had, it is in its place.
pub(crate) fn open_for<T: Kit>(
    alloc: Global,
    name: &[u8],
    service: &Service,
    world: &mut World<T>,
) -> Result<(Rules, Book<T::Keeper>), Outcome>
    requires keeper { IsSome world.old.inputs.keeper }
    ensures opens { IfOk result (λ both. Opens name.now service.now both.0 both.1 world.old world.new) }
    ensures stops { IfErr result (λ outcome. StopsEach name.now service.now outcome world.old world.new) }
{
    match server_rules_for(alloc, name, service, world) {
        Ok(server_rules) => open_by(alloc, server_rules, world),
        Err(outcome) => Err(outcome),
    }
}

// Ends the book, whose keeper is there again.
fn give_back<T: Kit>(book: Book<T::Keeper>, world: &mut World<T>)
    ensures { GivesBack book world.old world.new }
{
    let (keeper, _history) = book.close();
    world.keeper = Some(keeper);
}

/// Ends the book over which a session came to this ending. The keeper is there again.
pub(crate) fn end_over<T: Kit>(
    book: Book<T::Keeper>,
    ending: Ending,
    world: &mut World<T>,
) -> Outcome
    ensures { EndsOver book ending result world.old world.new }
{
    let refused = book.refused();
    give_back(book, world);
    Outcome::Ended { ending, refused }
}
