//! What holds of every session.
ghost use Rattle.std.specs.Prelude.{◌≡◌, ◌≢◌, ◌||◌, [], Bool, None, filter, length, map};
ghost use Rattle.std.specs.List.{AllByRecursion, list_any};
ghost use Rattle.auth_events.specs.Port.{places};
ghost use Rattle.fw_types.specs.declared.ending.Ending.{Ending};
ghost use Rattle.authsrv_gate.specs.Course.{may_be};
ghost use Rattle.authsrv_gate.specs.Dialogue.{rows, session_row};
ghost use Rattle.authsrv_gate.specs.Telling.{ToldInOrder};
ghost use Rattle.session_acts.specs.Course.{AreOfOne, Course, KeepsCourse};
ghost use Rattle.session_acts.specs.Deeds.{gives};
ghost use Rattle.session_acts.specs.Laws.{TellsClient, told};
ghost use Rattle.session_acts.specs.Serverless.{KeepsServerless};
ghost use Rattle.session_acts.specs.Session.{Held, deeds_of};
ghost use Rattle.session_acts.specs.Talk.{CountsAsks, Entered, ThrowsSalts, answered, asked, is_entered, is_refused_as_full, said_of, thrown};
ghost use Rattle.session_acts.specs.World.{World};

use crate::Place;
use session_acts::laws;

/// What a client was given by a session is the texts that it said, one after another, and a front of the one at which
/// it stopped, if it did at one; closing tells nothing.
pub fn the_client_is_told<Origin>()
    ensures { (console : Bool) (old new : World Origin) (ending : Ending)
        (held : Held rows (session_row console) old new ending) → TellsClient (gives told (deeds_of held)) old new }
{
    laws::the_client_is_told::<Origin, Place>()
}

/// Each reply that a client is told is told once, in the order of the requests that were answered: what it was given is the
/// greeting, a line for each reply of its talk, and one for each line that asked for nothing, as they came; or a front of
/// that, where the dialogue stopped. In a list the reply that no further record is there is told as `ok`, and what a client
/// asks by going away isn't answered to it.
pub fn each_reply_is_told<Origin>()
    ensures { (console : Bool) (old new : World Origin) (ending : Ending)
        (held : Held rows (session_row console) old new ending) → ToldInOrder held }
{}

/// A session asked each request for the session that was open, at a moment of the clock. What was answered stands in
/// the port's history as it was asked and answered, behind all that was seen before, but for what was refused because
/// no more entries fit (`entered`). The port says that it refused where it said so before or where one was so refused
/// (`refused`). Where these entries are the whole history, nothing else is in it (`whole`).
pub fn the_talk_is_entered<Origin>()
    ensures entered { (console : Bool) (old new : World Origin) (ending : Ending)
        (held : Held rows (session_row console) old new ending) →
        Entered (gives asked (deeds_of held)) old.office new.office }
    ensures refused { (console : Bool) (old new : World Origin) (ending : Ending)
        (held : Held rows (session_row console) old new ending) → new.office.port.refused ≡
        (old.office.port.refused || list_any is_refused_as_full (answered (gives asked (deeds_of held)))) }
    ensures whole { (console : Bool) (old new : World Origin) (ending : Ending)
        (held : Held rows (session_row console) old new ending) →
        old.office.port.mine ≡ [] → new.office.port.mine ≡ places (length new.office.port.seen) →
        map said_of new.office.port.seen ≡ filter is_entered (answered (gives asked (deeds_of held))) }
{
    laws::the_talk_is_entered::<Origin, Place>()
}

/// The port counted each request of a session, answered or not, and the Close that is owed too.
pub fn the_requests_are_counted<Origin>()
    ensures { (console : Bool) (old new : World Origin) (ending : Ending)
        (held : Held rows (session_row console) old new ending) → CountsAsks (gives asked (deeds_of held)) old new }
{
    laws::the_requests_are_counted::<Origin, Place>()
}

/// The salts that the dice gave in a session are those of the new passwords that it asked for, in order.
pub fn the_salts_are_thrown<Origin>()
    ensures { (console : Bool) (old new : World Origin) (ending : Ending)
        (held : Held rows (session_row console) old new ending) →
        ThrowsSalts (gives thrown (deeds_of held)) old new }
{
    laws::the_salts_are_thrown::<Origin, Place>()
}

/// A session that begins with none open asks something (`begun`), Open first. Where that is answered `Opened` it asks
/// Close once, as the last, and Open not again; else it asks nothing more (`course`). All its entries have one number,
/// the place of the first of them (`one`), which is 0 where they are the whole history (`whole`).
pub fn a_session_is_closed<Origin>()
    ensures begun { (console : Bool) (old new : World Origin) (ending : Ending)
        (held : Held rows (session_row console) old new ending) → gives asked (deeds_of held) ≢ [] }
    ensures course { (console : Bool) (old new : World Origin) (ending : Ending)
        (held : Held rows (session_row console) old new ending) → old.office.opened ≡ None →
        Course console (gives asked (deeds_of held)) }
    ensures one { (console : Bool) (old new : World Origin) (ending : Ending)
        (held : Held rows (session_row console) old new ending) → old.office.opened ≡ None →
        (entered : Entered (gives asked (deeds_of held)) old.office new.office) →
        AreOfOne entered.port.places entered.port.entries }
    ensures whole { (console : Bool) (old new : World Origin) (ending : Ending)
        (held : Held rows (session_row console) old new ending) → old.office.opened ≡ None →
        old.office.port.mine ≡ [] → new.office.port.mine ≡ places (length new.office.port.seen) →
        AllByRecursion (λ entry. entry.sid ≡ 0) new.office.port.seen }
{
    laws::a_session_is_closed_once::<Origin, Place>()
}

/// The rows keep the course of requests (`course`), and speak with no server (`serverless`). So what `session_acts` says
/// of such rows holds of a longer script that runs them, too.
pub fn what_the_rows_keep<Origin>()
    ensures course { (console : Bool) → KeepsCourse {Origin = Origin} console may_be rows (session_row console) }
    ensures serverless { (console : Bool) → KeepsServerless {Origin = Origin} rows (session_row console) }
{}
