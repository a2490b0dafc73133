//! What follows of each round.
ghost use Rattle.std.specs.Prelude.{ℕ, ◌++◌, Result, Ok};
ghost use Rattle.smapd_queue.specs.declared.round.Round.{Round};
ghost use Rattle.smapd_queue.specs.declared.round.RoundFault.{RoundFault};
ghost use Rattle.smapd_queue.specs.Laws.{AddsUp, WereFull};
ghost use Rattle.smapd_queue.specs.Meeting.{Meeting, last_turn};
ghost use Rattle.smapd_queue.specs.Round.{HandsOn};

/// The numbers of a round that ended well add up to as many turns as there might be, or no slot was full in the end, which the
/// store counted; then the full queue of a rack is empty.
pub fn the_numbers_add_up()
    ensures { (most : ℕ) (round : Round) (old new : Meeting) → HandsOn most (Ok round) old new → AddsUp most round old new }
{}

/// Each slot whose message was handed on was full when the round began, with the same message, if the store tells its queues.
/// So nothing is handed on that wasn't there.
pub fn each_slot_was_full()
    ensures { (most : ℕ) (result : Result Round RoundFault) (old new : Meeting) (hands : HandsOn most result old new) →
        WereFull (hands.turns ++ last_turn hands.ending) old }
{}
