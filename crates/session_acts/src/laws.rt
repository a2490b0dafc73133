//! What holds of every session, whatever its script.
ghost use Rattle.std.specs.Prelude.{◌≡◌, ◌≢◌, ◌||◌, ◌⊎◌, ℕ, Bool, List, [], true, None, Some, Ok, Err, filter, length, map};
ghost use Rattle.std.specs.List.{AllByRecursion, list_any};
ghost use Rattle.auth_events.specs.Port.{places};
ghost use Rattle.auth_events.specs.declared.reply.Reply.{Reply};
ghost use Rattle.auth_events.specs.declared.request.Request.TheVariants.{Open};
ghost use Rattle.fw_acts.specs.Acts.{Row, PlaceTable};
ghost use Rattle.fw_acts.specs.Acts.Row.{Do};
ghost use Rattle.fw_types.specs.declared.ending.Ending.{Ending};
ghost use Rattle.fw_types.specs.declared.ending.Ending.TheVariants.{NoMemory};
ghost use Rattle.session_acts.specs.Acts.Act.{Ask, Log, Relay};
ghost use Rattle.session_acts.specs.Causes.{is_spent_or};
ghost use Rattle.session_acts.specs.Client.{Denies, LogsFirst};
ghost use Rattle.session_acts.specs.Course.{AreOfOne, Course, CourseState, KeepsCourse};
ghost use Rattle.session_acts.specs.Acts.{Outcome};
ghost use Rattle.session_acts.specs.Deeds.{deeds_ran, gives};
ghost use Rattle.session_acts.specs.Denying.{denying_row, no_rows};
ghost use Rattle.session_acts.specs.FullPort.{RefusesOn};
ghost use Rattle.session_acts.specs.Hearing.{TakesHeard, heard_in};
ghost use Rattle.session_acts.specs.LastStop.{StopsLast, one_lacked_memory};
ghost use Rattle.session_acts.specs.Laws.{CallsDialer, CountsBroken, CountsRefusals, LinksDialer, TellsClient, TellsLog, broken_off, called, linked, logged, refused, told};
ghost use Rattle.session_acts.specs.Met.{Met, acts};
ghost use Rattle.session_acts.specs.Passing.{GivesServers, passed_over};
ghost use Rattle.session_acts.specs.RelayFronts.{KeepsQuiet, RelaysFronts};
ghost use Rattle.session_acts.specs.RelayLast.{CarriesAll, ConveysBoth, GivesLast, RelaysLast, StopsBefore};
ghost use Rattle.session_acts.specs.Relayed.{relayed, then_relay};
ghost use Rattle.session_acts.specs.Relaying.{Flow, Through, flow_of};
ghost use Rattle.session_acts.specs.Said.{SaysLines};
ghost use Rattle.session_acts.specs.Serverless.{CausedAlone, KeepsServerless, TakesExactly};
ghost use Rattle.session_acts.specs.ServersHeard.{HearsServers, heard_over};
ghost use Rattle.session_acts.specs.Session.{Held, RelaySession, Session, SessionAs, deeds_of};
ghost use Rattle.session_acts.specs.Standing.{AreReady, standing_of};
ghost use Rattle.session_acts.specs.Stored.{CountsFaulted, CountsUnslotted, PutsAllBack, PutsMails, faulted, kept, unslotted};
ghost use Rattle.session_acts.specs.Talk.{CountsAsks, Entered, ThrowsSalts, answered, asked, is_entered, is_refused_as_full, said_of, thrown};
ghost use Rattle.session_acts.specs.World.{Devices, IsUnlinked, Speaker, World, devices_of, most_taken};
ghost use Rattle.session_acts.specs.declared.cause.Cause.{Cause};

/// What a client was given by a session is what its deeds say and try to say, one after another: of a text at which the
/// client's sink failed, a front.
pub fn the_client_is_told<Origin, P>()
    ensures { (rows : PlaceTable (acts Origin) P) (first : Row (acts Origin) P) (old new : World Origin) (ending : Ending)
        (held : Held rows first old new ending) → TellsClient (gives told (deeds_of held)) old new }
{}

/// What a session took of a client of which nothing was pending is what its deeds heard, one piece after another: each line
/// with its end, what was read for nothing where no line was heard, the data of each message as they came, and what a relay
/// took. Behind that at most 4,096 bytes were taken, which are pending. So a session that stops has taken no more beyond the
/// line, or the end, to which the act belongs.
pub fn the_client_is_heard<Origin, P>()
    ensures { (rows : PlaceTable (acts Origin) P) (first : Row (acts Origin) P) (old new : World Origin) (ending : Ending)
        (held : Held rows first old new ending) → old.client.reader.pending ≡ [] →
        TakesHeard (gives heard_in (deeds_of held)) old.client new.client }
{}

/// The lines that a session hears of a client of Telnet, before it hears or relays anything else, are the first lines of what
/// it takes of the client, in order, by `lines_heard` of `telnet`; and they are all of them if it then hears the end.
pub fn the_lines_of_telnet_are_heard<Origin, P>()
    ensures { (rows : PlaceTable (acts Origin) P) (first : Row (acts Origin) P) (old new : World Origin) (ending : Ending)
        (held : Held rows first old new ending) → old.client.reader.pending ≡ [] →
        SaysLines (gives heard_in (deeds_of held)) old.client new.client }
{}

/// What the log was given by a session is what its deeds log and note, one after another: of a text at which the log
/// failed, a front.
pub fn the_log_is_told<Origin, P>()
    ensures { (rows : PlaceTable (acts Origin) P) (first : Row (acts Origin) P) (old new : World Origin) (ending : Ending)
        (held : Held rows first old new ending) → TellsLog (gives logged (deeds_of held)) old new }
{}

/// What the dialer was asked by a session is the destinations that it dialed and reached, and the doors and data links that
/// it asked for, in order.
pub fn the_dialer_is_asked<Origin, P>()
    ensures { (rows : PlaceTable (acts Origin) P) (first : Row (acts Origin) P) (old new : World Origin) (ending : Ending)
        (held : Held rows first old new ending) → CallsDialer (gives called (deeds_of held)) old new }
{}

/// As many links were hung up or let go in a session as came up by its deeds, where the dialer tells; and the dialer counted so
/// many come up, and none beside them, unless that count stands at its last value (`links`). At its end no main link is up
/// (`none`), nor are data links, where no link was up before (`apart`).
pub fn the_links_are_hung_up<Origin, P>()
    ensures links { (rows : PlaceTable (acts Origin) P) (first : Row (acts Origin) P) (old new : World Origin)
        (ending : Ending) (held : Held rows first old new ending) →
        LinksDialer (gives linked (deeds_of held)) old new }
    ensures none { (rows : PlaceTable (acts Origin) P) (first : Row (acts Origin) P) (old new : World Origin)
        (ending : Ending) → Held rows first old new ending → new.server.link ≡ None }
    ensures apart { (rows : PlaceTable (acts Origin) P) (first : Row (acts Origin) P) (old new : World Origin)
        (ending : Ending) → Held rows first old new ending → IsUnlinked old.server → new.server.pair ≡ None }
{}

/// Data links aren't asked for exactly where they can't be: where no main link is up, by the deeds before, or none of the doors
/// that these opened stands where one is wanted.
pub fn data_links_are_asked_for_where_they_can_be<Origin, P>()
    ensures { (rows : PlaceTable (acts Origin) P) (first : Row (acts Origin) P) (old new : World Origin) (ending : Ending)
        (held : Held rows first old new ending) → AreReady (standing_of old.server) (deeds_of held) }
{}

/// A session whose rows speak with no server leaves the dialer as it was.
pub fn no_server_is_met<Origin, P>()
    ensures { (rows : PlaceTable (acts Origin) P) (first : Row (acts Origin) P) (old new : World Origin) (ending : Ending) →
        Held rows first old new ending → KeepsServerless rows first → old.server.link ≡ None →
        new.server ≡ old.server }
{}

/// A session whose rows speak with no server doesn't end by one, and is idle or spent only since the client was (`caused`).
/// Of the client 2^40 bytes were taken exactly if the ending is `Spent` (`spent`). This holds over any dialer.
pub fn no_server_ends_it<Origin, P>()
    ensures caused { (rows : PlaceTable (acts Origin) P) (first : Row (acts Origin) P) (old new : Devices Origin)
        (ending : Ending) → Session rows first old new ending → KeepsServerless rows first → CausedAlone ending old new }
    ensures spent { (rows : PlaceTable (acts Origin) P) (first : Row (acts Origin) P) (old new : Devices Origin)
        (ending : Ending) → Session rows first old new ending → KeepsServerless rows first → TakesExactly ending old new }
{}

/// What servers were given, where no link was up before: of each link that was hung up in a session, where the dialer tells,
/// the texts that were passed over it, one after another, from where it came up to where it was hung up; of a text at which
/// the link failed, a front. Of two data links that were let go, the one to the server before the client's, one was given what
/// a copy gave it, and the other nothing.
pub fn the_servers_are_given<Origin, P>()
    ensures { (rows : PlaceTable (acts Origin) P) (first : Row (acts Origin) P) (old new : World Origin) (ending : Ending)
        (held : Held rows first old new ending) → IsUnlinked old.server →
        GivesServers (passed_over None (deeds_of held)) old new }
{}

/// What was heard of servers, where no link was up before: over each link that was hung up in a session, where the dialer
/// tells, what was taken is what was heard and relayed over it, one piece after another, from where it came up to where it
/// was hung up: each line with its end, each reply, what was read for nothing where no line was heard, and what a relay took.
/// Behind that at most 4,096 bytes were taken, which weren't heard. Of a data link that was let go it is what a copy took of it.
pub fn the_servers_are_heard<Origin, P>()
    ensures { (rows : PlaceTable (acts Origin) P) (first : Row (acts Origin) P) (old new : World Origin) (ending : Ending)
        (held : Held rows first old new ending) → IsUnlinked old.server →
        HearsServers (heard_over None (deeds_of held)) old new }
{}

/// A session asked each request for the session that it opened last and didn't ask to close, or for number 2^64 - 1
/// where there was none, at a moment of the clock. What was answered stands in the
/// port's history as it was asked and answered, behind all that was seen before, but for what was refused because no more
/// entries fit (`entered`). The port says that it refused where it said so before or where one was so refused (`refused`).
/// Where these entries are the whole history, nothing else is in it (`whole`).
pub fn the_talk_is_entered<Origin, P>()
    ensures entered { (rows : PlaceTable (acts Origin) P) (first : Row (acts Origin) P) (old new : World Origin)
        (ending : Ending) (held : Held rows first old new ending) →
        Entered (gives asked (deeds_of held)) old.office new.office }
    ensures refused { (rows : PlaceTable (acts Origin) P) (first : Row (acts Origin) P) (old new : World Origin)
        (ending : Ending) (held : Held rows first old new ending) → new.office.port.refused ≡
        (old.office.port.refused || list_any is_refused_as_full (answered (gives asked (deeds_of held)))) }
    ensures whole { (rows : PlaceTable (acts Origin) P) (first : Row (acts Origin) P) (old new : World Origin)
        (ending : Ending) (held : Held rows first old new ending) →
        old.office.port.mine ≡ [] → new.office.port.mine ≡ places (length new.office.port.seen) →
        map said_of new.office.port.seen ≡ filter is_entered (answered (gives asked (deeds_of held))) }
{}

/// The port counted each request of a session, be it one of the script's or the close that was owed, answered or not: one for
/// which there was no memory, say. So none of them can be left out.
pub fn the_requests_are_counted<Origin, P>()
    ensures { (rows : PlaceTable (acts Origin) P) (first : Row (acts Origin) P) (old new : World Origin) (ending : Ending)
        (held : Held rows first old new ending) → CountsAsks (gives asked (deeds_of held)) old new }
{}

/// Once the port's limit is known to be reached, be it before the session or from a reply in it, each request that is
/// answered is refused because of it.
pub fn a_full_port_refuses<Origin, P>()
    ensures { (rows : PlaceTable (acts Origin) P) (first : Row (acts Origin) P) (old new : World Origin) (ending : Ending)
        (held : Held rows first old new ending) →
        RefusesOn old.office.port.full (answered (gives asked (deeds_of held))) }
{}

/// The salts that the dice gave in a session are those of the new passwords that it asked for, in order.
pub fn the_salts_are_thrown<Origin, P>()
    ensures { (rows : PlaceTable (acts Origin) P) (first : Row (acts Origin) P) (old new : World Origin) (ending : Ending)
        (held : Held rows first old new ending) → ThrowsSalts (gives thrown (deeds_of held)) old new }
{}

/// At the end of a session, the one that it opened last at the port was asked to close. One that was open when another was
/// opened isn't followed any more.
pub fn the_session_is_closed<Origin, P>()
    ensures { (rows : PlaceTable (acts Origin) P) (first : Row (acts Origin) P) (old new : World Origin)
        (ending : Ending) → Held rows first old new ending → new.office.opened ≡ None }
{}

/// In a session whose rows keep the course, and before which none was open, nothing is asked, or Open first, with this
/// `console`. Where that is answered `Opened`, Close is asked once, as the last, be it by the rows or since it was owed, and
/// Open not again; else nothing more is asked (`course`). All its entries have one number, the place of the first of them
/// (`one`), which is 0 where they are the whole history (`whole`). Where the first row begins by asking Open, something is
/// asked, whatever the rows keep (`begun`).
pub fn a_session_is_closed_once<Origin, P>()
    ensures course { (console : Bool) (may_be : P → CourseState → Bool) (rows : PlaceTable (acts Origin) P)
        (first : Row (acts Origin) P) (old new : World Origin) (ending : Ending)
        (held : Held rows first old new ending) → KeepsCourse console may_be rows first → old.office.opened ≡ None →
        Course console (gives asked (deeds_of held)) }
    ensures one { (console : Bool) (may_be : P → CourseState → Bool) (rows : PlaceTable (acts Origin) P)
        (first : Row (acts Origin) P) (old new : World Origin) (ending : Ending)
        (held : Held rows first old new ending) → KeepsCourse console may_be rows first → old.office.opened ≡ None →
        (entered : Entered (gives asked (deeds_of held)) old.office new.office) →
        AreOfOne entered.port.places entered.port.entries }
    ensures whole { (console : Bool) (may_be : P → CourseState → Bool) (rows : PlaceTable (acts Origin) P)
        (first : Row (acts Origin) P) (old new : World Origin) (ending : Ending) → Held rows first old new ending →
        KeepsCourse console may_be rows first → old.office.opened ≡ None → old.office.port.mine ≡ [] →
        new.office.port.mine ≡ places (length new.office.port.seen) →
        AllByRecursion (λ entry. entry.sid ≡ 0) new.office.port.seen }
    ensures begun { (console : Bool) (rows : PlaceTable (acts Origin) P) (go : Reply → Row (acts Origin) P)
        (old new : World Origin) (ending : Ending) (held : Held rows (Do (Ask (Open console)) go) old new ending) →
        gives asked (deeds_of held) ≢ [] }
{}

/// A session whose dialogue stopped did acts, then the one at which it stopped, for a cause of that act, and then nothing but
/// what was owed. If the log fails at a line that has to be logged, say, nothing is told or dialed after it.
pub fn a_stop_is_last<Origin, P>()
    ensures { (rows : PlaceTable (acts Origin) P) (first : Row (acts Origin) P) (old new : World Origin) (ending : Ending)
        (cause : Cause) (held : Held rows first old new ending) → held.dialogue ≡ Err cause → StopsLast cause held }
{}

/// A session before which a line is logged: either the log fails within that line, and then nothing else is done at any
/// device (the client is told nothing, nothing is asked or dialed); or what the log is given begins with the line, and then
/// the session goes on as its rows say (`first`). So the verdict's line is logged before a client is told words. A client
/// that is denied is given the words, or a front of them, where the log has the whole line, and nothing else is done
/// (`denied`).
pub fn a_line_is_logged_first<Origin, P>()
    ensures first { (relays : Bool) (line : List ℕ) (rows : PlaceTable (acts Origin) P) (first : Row (acts Origin) P)
        (old new : Devices Origin) (ending : Ending)
        (session : SessionAs relays rows (Do (Log line) (λ done. first)) old new ending) →
        LogsFirst line rows first old new ending session }
    ensures denied { (line words : List ℕ) (old new : Devices Origin) (ending : Ending) →
        Session no_rows (denying_row line words) old new ending → Denies line words old new ending }
{}

/// In a session that ends for want of memory some request got no answer for that, be it one of the script's or the close that
/// was owed; or there was no memory to begin a message, or for what the script allots.
pub fn the_memory_was_lacking<Origin, P>()
    ensures { (rows : PlaceTable (acts Origin) P) (first : Row (acts Origin) P) (old new : World Origin) (ending : Ending)
        (held : Held rows first old new ending) → ending ≡ NoMemory → one_lacked_memory (deeds_of held) ≡ true }
{}

/// The dialer counted each destination that a session dialed or reached in vain, and each door and data link that it refused,
/// up to its last count.
pub fn the_refusals_are_counted<Origin, P>()
    ensures { (rows : PlaceTable (acts Origin) P) (first : Row (acts Origin) P) (old new : World Origin) (ending : Ending)
        (held : Held rows first old new ending) → CountsRefusals (gives refused (deeds_of held)) old new }
{}

/// The dialer counted each copy between data links that failed or was idle, as a fault or as idleness of a data link, unless
/// one of these counts stands at its last value.
pub fn the_broken_copies_are_counted<Origin, P>()
    ensures { (rows : PlaceTable (acts Origin) P) (first : Row (acts Origin) P) (old new : World Origin) (ending : Ending)
        (held : Held rows first old new ending) → CountsBroken (gives broken_off (deeds_of held)) old new }
{}

/// A session with a relay at the end of its dialogue: either the dialogue stopped, and there was no relay; or it came to its
/// end, and then there was one relay, and nothing after it but what was owed. The session stops at the relay unless both ways
/// are done (`last`).
pub fn the_relay_is_last<Origin, P>()
    ensures { (rows : PlaceTable (acts Origin) P) (first : Row (acts Origin) P) (old new : World Origin) (ending : Ending)
        (held : Held (relayed rows) (then_relay first) old new ending) → StopsBefore rows first held ⊎ RelaysLast rows first held }
{}

/// What a relay does, wherever a link is up. Each way begins with what was taken ahead of one side and goes on with what the
/// relay takes of it; what the way gave is what the other side was given, a front of that, at most 4,096 bytes short, and all
/// of it unless its sink failed, as a `Way` says (`conveys`). Where both ways are done, nothing is left of what either side
/// says, all of it was given to the other, and each was told that no more comes (`carries`).
///
/// In a session before which no link was up, the server of the relay was given what the dialogue passed to it, and then
/// what the way from the client gave: a front of what was taken of the client and not heard. Its link is the last that was
/// hung up, where the dialer tells (`given`).
pub fn a_relay_carries<Origin, P>()
    ensures conveys { (outcome : Outcome Relay) (flow : Flow) (old new : World Origin) → Met Relay outcome old new →
        flow_of outcome ≡ Some flow → ConveysBoth flow old new }
    ensures carries { (through : Through) (old new : World Origin) → Met Relay (Ok (Some through)) old new →
        CarriesAll through.flow old new }
    ensures given { (rows : PlaceTable (acts Origin) P) (first : Row (acts Origin) P) (old new : World Origin) (ending : Ending)
        (held : Held (relayed rows) (then_relay first) old new ending) (last : RelaysLast rows first held) (flow : Flow) →
        IsUnlinked old.server → flow_of last.outcome ≡ Some flow → GivesLast (deeds_ran last.talk) flow.up old new }
{}

/// What reached each side of a session with a relay whose rows take nothing of a server and give it nothing, where no link was
/// up and nothing was pending before. If nothing was relayed, the client was given what the session told, of it was taken what
/// the session heard, with at most 4,096 bytes behind, and over no link anything was given or taken. Else of the client was
/// taken what the dialogue heard and then, from the first byte that it didn't hear, what was taken for the way to the server;
/// it was given what the dialogue told, and then what was relayed to it. The last link that was hung up, where the dialer tells,
/// is that of the relay: its server was given what was relayed to it and nothing else, and of it nothing else was taken; over
/// the links before it nothing was given or taken. What was given to one side is a front of what was taken of the other, at
/// most 4,096 bytes short, and whole, to the server unless the ending is `ClientFault` or `ServerFault`, to the client unless
/// it is `ClientFault`. If it is `Done`, nothing is left on either side, and each was told that no more comes. `held` says so
/// of the worlds, `session` of a session over its devices, before which no link is up and nothing is pending.
pub fn fronts_are_relayed<Origin, P>()
    ensures held { (rows : PlaceTable (acts Origin) P) (first : Row (acts Origin) P) (old new : World Origin)
        (ending : Ending) (held : Held (relayed rows) (then_relay first) old new ending) → KeepsQuiet rows first →
        IsUnlinked old.server → old.client.reader.pending ≡ [] →
        RelaysFronts (deeds_of held) (devices_of old) (devices_of new) ending }
    ensures session { (rows : PlaceTable (acts Origin) P) (first : Row (acts Origin) P) (old new : Devices Origin)
        (ending : Ending) (session : RelaySession (relayed rows) (then_relay first) old new ending) →
        KeepsQuiet rows first → RelaysFronts (deeds_of session.held) old new ending }
{}

/// A session with a relay keeps the course of requests if its rows do.
pub fn a_relay_keeps_the_course<Origin, P>()
    ensures { (console : Bool) (may_be : P → CourseState → Bool) (rows : PlaceTable (acts Origin) P)
        (first : Row (acts Origin) P) → KeepsCourse console may_be rows first →
        KeepsCourse console may_be (relayed rows) (then_relay first) }
{}

/// If of the link that was up behind a dialogue, or its relay, as many bytes were taken as may be, 2^40, the session ends as
/// spent; or, if it may relay, by a failure or by idleness, which come before that.
pub fn a_used_up_link_ends_it<Origin, P>()
    ensures { (relays : Bool) (rows : PlaceTable (acts Origin) P) (first : Row (acts Origin) P) (old new : Devices Origin)
        (ending : Ending) (session : SessionAs relays rows first old new ending) (link : Speaker) →
        session.held.mid.server.link ≡ Some link → link.inlet.amount ≡ most_taken → is_spent_or relays ending ≡ true }
{}

/// The messages that a session kept stand in slots that were put full, in the order in which it kept them: at the back of the
/// full queue, where the store tells its queues, and at the end of the list of those put, where it keeps that list. Nothing
/// else was put full. Each has the message's sender and recipients and, as its body, that of the data that were heard, which
/// has as many bytes as the answer said.
pub fn the_messages_are_put<Origin, P>()
    ensures { (rows : PlaceTable (acts Origin) P) (first : Row (acts Origin) P) (old new : World Origin) (ending : Ending)
        (held : Held rows first old new ending) → PutsMails (gives kept (deeds_of held)) old new }
{}

/// Each slot that a session takes is put back: behind it those are out that were out before.
pub fn the_slots_are_put_back<Origin, P>()
    ensures { (rows : PlaceTable (acts Origin) P) (first : Row (acts Origin) P) (old new : World Origin) (ending : Ending) →
        Held rows first old new ending → PutsAllBack old new }
{}

/// The store counted each message of a session for which no slot was free (`unslotted`), and each at which the disk of a slot
/// failed (`faulted`), as far as the counts go.
pub fn the_lost_messages_are_counted<Origin, P>()
    ensures unslotted { (rows : PlaceTable (acts Origin) P) (first : Row (acts Origin) P) (old new : World Origin)
        (ending : Ending) (held : Held rows first old new ending) →
        CountsUnslotted (gives unslotted (deeds_of held)) old new }
    ensures faulted { (rows : PlaceTable (acts Origin) P) (first : Row (acts Origin) P) (old new : World Origin)
        (ending : Ending) (held : Held rows first old new ending) →
        CountsFaulted (gives faulted (deeds_of held)) old new }
{}
