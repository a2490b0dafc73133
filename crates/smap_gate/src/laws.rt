//! What holds of every session of mail.
ghost use Rattle.std.specs.Prelude.{◌≡◌, [], None, Ok};
ghost use Rattle.fw_types.specs.declared.ending.Ending.{Ending};
ghost use Rattle.session_acts.specs.Deeds.{deeds_ran, gives};
ghost use Rattle.session_acts.specs.Hearing.{TakesHeard, heard_in};
ghost use Rattle.session_acts.specs.Laws.{TellsClient, told};
ghost use Rattle.session_acts.specs.Session.{Held, deeds_of};
ghost use Rattle.session_acts.specs.Stored.{CountsFaulted, CountsUnslotted, PutsAllBack, faulted, unslotted};
ghost use Rattle.session_acts.specs.World.{World};
ghost use Rattle.smap_gate.specs.Dialogue.{smap_row, smap_rows};
ghost use Rattle.smap_gate.specs.Gate.{Gate};
ghost use Rattle.smap_gate.specs.LastHeard.{EndsThere, HasEnd};
ghost use Rattle.smap_gate.specs.Logging.{LogsDue};
ghost use Rattle.smap_gate.specs.Messages.{KeepsMessages};
ghost use Rattle.smap_gate.specs.Replies.{ToldInOrder};
ghost use Rattle.smap_gate.specs.Wanted.{AreWanted, AsksAreMet, DepositsAreAsked, greeting};

use crate::Place;
use session_acts::laws;

/// What a client was given by a session is the texts that it said, one after another, and a front of the one at which it
/// stopped, if it did at one.
pub fn the_client_is_told<Origin>()
    ensures { (gate : Gate) (old new : World Origin) (ending : Ending)
        (held : Held (smap_rows gate) smap_row old new ending) → TellsClient (gives told (deeds_of held)) old new }
{
    laws::the_client_is_told::<Origin, Place>()
}

/// What a session took of a client of which nothing was pending is the lines that it heard, each with its end, and the data of
/// its messages as they came, in the order in which it heard them. Behind that at most 4,096 bytes were taken, which are
/// pending.
pub fn the_client_is_heard<Origin>()
    ensures { (gate : Gate) (old new : World Origin) (ending : Ending)
        (held : Held (smap_rows gate) smap_row old new ending) → old.client.reader.pending ≡ [] →
        TakesHeard (gives heard_in (deeds_of held)) old.client new.client }
{
    laws::the_client_is_heard::<Origin, Place>()
}

/// What a client is told is a function of its lines and of what becomes of its messages: behind the greeting, for each line
/// and each message in order, its reply. It is told all of that, or a front of it, where the dialogue stopped. The reply to a
/// line depends on the lines before it by the sender and the recipients that stand, which they alone decide.
pub fn each_reply_is_told<Origin>()
    ensures { (gate : Gate) (old new : World Origin) (ending : Ending)
        (held : Held (smap_rows gate) smap_row old new ending) → ToldInOrder gate held }
{}

/// Each act of a dialogue is wanted (`each`, `specs/Wanted.antt`): nothing is said but what is owed, and no line is heard while
/// something is owed: a reply, memory for a recipient, a message, or its line in the log. At the end nothing is owed, unless
/// the session stopped. So a message is taken in right behind the line that asks for its data, from the sender and to the
/// recipients that stand, with the words before its data and with as many bytes as the gate lets a body have (`deposits`); and
/// right behind each such line one is (`asks`).
pub fn each_act_is_wanted<Origin>()
    ensures each { (gate : Gate) (old new : World Origin) (ending : Ending)
        (held : Held (smap_rows gate) smap_row old new ending) → AreWanted gate greeting (deeds_ran held.ran) }
    ensures deposits { (gate : Gate) (old new : World Origin) (ending : Ending)
        (held : Held (smap_rows gate) smap_row old new ending) → DepositsAreAsked gate (deeds_ran held.ran) }
    ensures asks { (gate : Gate) (old new : World Origin) (ending : Ending)
        (held : Held (smap_rows gate) smap_row old new ending) → AsksAreMet gate (deeds_ran held.ran) }
{}

/// A dialogue that comes to its end ends with QUIT, or with the end of what the client says, in place of a line or within a
/// message's data (`ended`). Behind that nothing is heard of the client (`there`).
pub fn the_dialogue_ends<Origin>()
    ensures there { (gate : Gate) (old new : World Origin) (ending : Ending)
        (held : Held (smap_rows gate) smap_row old new ending) → EndsThere (deeds_of held) }
    ensures ended { (gate : Gate) (old new : World Origin) (ending : Ending)
        (held : Held (smap_rows gate) smap_row old new ending) → held.dialogue ≡ Ok tt → HasEnd (deeds_ran held.ran) }
{}

/// The messages that were kept were put full in the store, in order, each in the slot whose number is told, and no other was.
/// Each is of the sender and to the recipients that stood when its data were asked for, which the lines alone decide, and its
/// body is that of the data that were heard. What becomes of a message that isn't kept reaches no slot that is full.
pub fn the_kept_messages_are_put<Origin>()
    ensures { (gate : Gate) (old new : World Origin) (ending : Ending)
        (held : Held (smap_rows gate) smap_row old new ending) → KeepsMessages gate held }
{}

/// Right behind a message that was kept its line is logged, with the number of its slot, of its recipients and of its bytes,
/// before anything is told, so no client is told of a message that the log doesn't have. No other line is logged, and none is
/// still due at the end.
pub fn each_kept_message_is_logged<Origin>()
    ensures { (gate : Gate) (old new : World Origin) (ending : Ending)
        (held : Held (smap_rows gate) smap_row old new ending) → LogsDue gate.peer None (deeds_ran held.ran) }
{}

/// Each slot that a session takes is put back.
pub fn the_slots_are_put_back<Origin>()
    ensures { (gate : Gate) (old new : World Origin) (ending : Ending) →
        Held (smap_rows gate) smap_row old new ending → PutsAllBack old new }
{
    laws::the_slots_are_put_back::<Origin, Place>()
}

/// The store counted each message for which no slot was free (`unslotted`), and each at which the disk of a slot failed
/// (`faulted`), as far as the counts go.
pub fn the_lost_messages_are_counted<Origin>()
    ensures unslotted { (gate : Gate) (old new : World Origin) (ending : Ending)
        (held : Held (smap_rows gate) smap_row old new ending) →
        CountsUnslotted (gives unslotted (deeds_of held)) old new }
    ensures faulted { (gate : Gate) (old new : World Origin) (ending : Ending)
        (held : Held (smap_rows gate) smap_row old new ending) →
        CountsFaulted (gives faulted (deeds_of held)) old new }
{
    laws::the_lost_messages_are_counted::<Origin, Place>()
}
