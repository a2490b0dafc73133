//! What holds of every session of the FTP gateway.
ghost use Rattle.std.specs.Prelude.{◌≡◌, ◌≢◌, List, [], ◌∷◌, ◌++◌, length, None};
ghost use Rattle.auth_events.specs.Login.{login_in};
ghost use Rattle.auth_events.specs.Port.{places};
ghost use Rattle.fw_types.specs.declared.ending.Ending.{Ending};
ghost use Rattle.fw_types.specs.declared.ending.Ending.TheVariants.{AuthFault, NoMemory, NoRoute};
ghost use Rattle.session_acts.specs.Deeds.{Deed, deeds_ran, gives};
ghost use Rattle.session_acts.specs.Once.{OpensOnce};
ghost use Rattle.session_acts.specs.OwnLogin.{LoginStandsIn, number_opened};
ghost use Rattle.session_acts.specs.Session.{Held, deeds_of};
ghost use Rattle.session_acts.specs.Talk.{Entered, answered, asked};
ghost use Rattle.session_acts.specs.World.{IsUnlinked, World};
ghost use Rattle.ftp_gate.specs.Breaks.{CopiesCarry, CountsBreaks};
ghost use Rattle.ftp_gate.specs.Copied.{CopiesMarked};
ghost use Rattle.ftp_gate.specs.Dialogue.{ftp_row, ftp_rows};
ghost use Rattle.ftp_gate.specs.Due.{DoesWhatIsDue};
ghost use Rattle.ftp_gate.specs.Ends.{EndsThere, HasEnd};
ghost use Rattle.ftp_gate.specs.Gate.{Gate};
ghost use Rattle.ftp_gate.specs.Known.{known};
ghost use Rattle.ftp_gate.specs.Laws.{AreRight, AsksDue, AsksExactly, CopiesOwn, DenialsLogged, DialsCleared, FailuresToldOf, GivesPassage, IsDone, IsOutward, JoinsOwn, NeedsLogin, OpensOwn, PassesUnblocked};
ghost use Rattle.ftp_gate.specs.Naming.{names};
ghost use Rattle.ftp_gate.specs.Refusals.{CountsTold, JoinsAsked};

/// Where a destination is asked for, the command that was heard last is a USER that names it, whose verb isn't denied, and a
/// login stands, if one is asked for before it; no link is up; the permission line's `-dest` lets the destination pass. Since
/// that command stand, in order and with nothing between, with `-extnd` the permission for its host, which was asked and
/// given, and its connect line, which the log has whole.
pub fn each_dial_is_cleared<Origin>()
    ensures { (gate : Gate) (old new : World Origin) (ending : Ending) (held : Held (ftp_rows gate) ftp_row old new ending) →
        DialsCleared gate (deeds_of held) }
{}

/// The destinations that are asked for are those that the commands ask for, in order: all of them, unless the dialogue
/// stopped; then a front of them.
pub fn the_destinations_are_those_asked_for<Origin>()
    ensures { (gate : Gate) (old new : World Origin) (ending : Ending) (held : Held (ftp_rows gate) ftp_row old new ending) →
        AsksExactly gate held }
{}

/// Where the gateway tells the client that a verb is denied, that a login is asked for, that a destination is denied or a login,
/// the log was given the line of that denial right before, whole. A text that is no name is denied without a line.
pub fn each_denial_is_logged<Origin>()
    ensures { (gate : Gate) (old new : World Origin) (ending : Ending) (held : Held (ftp_rows gate) ftp_row old new ending) →
        DenialsLogged gate (deeds_of held) }
{}

/// The server is given what the commands are passed as, in order, and nothing else: all of it, unless the dialogue stopped;
/// then a front of it (`passage`). Whatever it is given is of a command whose verb isn't denied, and for which a login stands,
/// if one is asked for; and a link is up whose server greeted well (`unblocked`).
pub fn what_the_server_is_given<Origin>()
    ensures passage { (gate : Gate) (old new : World Origin) (ending : Ending) (held : Held (ftp_rows gate) ftp_row old new ending) →
        GivesPassage gate held }
    ensures unblocked { (gate : Gate) (old new : World Origin) (ending : Ending) (held : Held (ftp_rows gate) ftp_row old new ending) →
        PassesUnblocked gate (deeds_of held) }
{}

/// Data links are wanted by a transfer that was heard last and isn't blocked: one at the host of the server to which a link
/// is up, and at the port that the server told since in a reply of 227 to PASV; and the other as it was set, which is at the
/// client's own address, at a port from 1,024 on, or at a door (`joins`). They are wanted only while that link is up and, if
/// at a door, one stands: so the one to the server, at least, is asked for (`asked`). A door is opened for a PASV that was heard
/// last and isn't blocked, where a link is up whose server greeted well (`doors`). Data are copied the way of a transfer that was heard last and isn't
/// blocked, where both data links came up, and the server's last reply to it says that it transfers (`copies`). At each
/// copy both are still up (`carries`).
pub fn data_links_are_the_sessions_own<Origin>()
    ensures joins { (gate : Gate) (old new : World Origin) (ending : Ending) (held : Held (ftp_rows gate) ftp_row old new ending) →
        JoinsOwn gate (deeds_of held) }
    ensures asked { (gate : Gate) (old new : World Origin) (ending : Ending) (held : Held (ftp_rows gate) ftp_row old new ending) →
        JoinsAsked (deeds_of held) }
    ensures doors { (gate : Gate) (old new : World Origin) (ending : Ending) (held : Held (ftp_rows gate) ftp_row old new ending) →
        OpensOwn gate (deeds_of held) }
    ensures copies { (gate : Gate) (old new : World Origin) (ending : Ending) (held : Held (ftp_rows gate) ftp_row old new ending) →
        CopiesOwn gate (deeds_of held) }
    ensures carries { (gate : Gate) (old new : World Origin) (ending : Ending) (held : Held (ftp_rows gate) ftp_row old new ending) →
        CopiesCarry (deeds_of held) }
{}

/// At each copy two links were let go, where the dialer tells, and no link was up before the session. By their marks one was asked
/// for as a data link to a server, and the other as one to an address or at a door. What a copy to the client carried was taken
/// of the first and given to the second, and of a copy to the server the other way; nothing else went over either.
pub fn each_copy_goes_between_its_links<Origin>()
    ensures { (gate : Gate) (old new : World Origin) (ending : Ending) (held : Held (ftp_rows gate) ftp_row old new ending) →
        IsUnlinked old.server → CopiesMarked (deeds_of held) old new }
{}

/// Behind each deed comes next what is due, if something is; and no line is logged, no destination and no request asked for but
/// the close, no reply heard and nothing copied that isn't due. A line is due for a command that is blocked, for a destination that is refused or
/// asked for, for a login and one that failed, and for a command in `-log` that is passed, where that is a transfer once both data
/// links are up. A request is due for a user who is named, for a response where a user was named before, and with `-extnd` for a
/// destination that `-dest` lets pass; and the destination behind its connect line. The server's reply is due behind whatever it
/// is given, and another behind one that goes on. It is passed, but that to the gateway's own PASV and those behind a copy that
/// wasn't done to its end. Behind the reply to a transfer a copy is due, or that the data links are let go.
pub fn what_is_due_is_done<Origin>()
    ensures { (gate : Gate) (old new : World Origin) (ending : Ending) (held : Held (ftp_rows gate) ftp_row old new ending) →
        DoesWhatIsDue gate (deeds_of held) }
{}

/// Where the gateway tells the client that there is no route, no door, no data link or no data port, that the server closed, or
/// that a transfer ended early, that was so (`causes`): right before, the dial, the door or the data links were refused, the server told
/// no data port, or came to its end; or a copy wasn't done to its end, and behind it the server's replies were dropped, up to its
/// last. For each destination that was asked for in vain, and each time that the gateway tells that there is no door or no data
/// link, the dialer counted a refusal, unless its count stands at the last value (`told`). For each time that the gateway tells
/// that a transfer ended early which took fewer than 2^40 bytes, the dialer counted a failure or an idleness of a data link, unless
/// one of these counts stands at its last value (`broken`).
pub fn each_failure_has_its_cause<Origin>()
    ensures causes { (gate : Gate) (old new : World Origin) (ending : Ending) (held : Held (ftp_rows gate) ftp_row old new ending) →
        FailuresToldOf gate (deeds_of held) }
    ensures told { (gate : Gate) (old new : World Origin) (ending : Ending) (held : Held (ftp_rows gate) ftp_row old new ending) →
        CountsTold (deeds_of held) old new }
    ensures broken { (gate : Gate) (old new : World Origin) (ending : Ending) (held : Held (ftp_rows gate) ftp_row old new ending) →
        CountsBreaks (deeds_of held) old new }
{}

/// Each act is one of these, where it may come: lines are heard in one form, and what is said, asked, dialed, passed, joined and
/// copied is so as the other laws say; beside that the log is given a line, a reply of the server is heard, data links are let
/// go, and a link is hung up.
pub fn only_these_acts_come<Origin>()
    ensures { (gate : Gate) (old new : World Origin) (ending : Ending) (held : Held (ftp_rows gate) ftp_row old new ending) →
        AreRight gate (deeds_of held) }
{}

/// Each request that is asked is one that the command which was heard last asks for, and nothing was done since, but for the
/// close: for a user who is named an opening, or, at once or behind an opening, who that is; for a response whether it is right,
/// where a user was named before; for a destination that `-dest` lets pass, with `-extnd`, while no link is up, permission to
/// reach its host.
pub fn each_request_is_asked_for<Origin>()
    ensures { (gate : Gate) (old new : World Origin) (ending : Ending) (held : Held (ftp_rows gate) ftp_row old new ending) →
        AsksDue gate (deeds_of held) }
{}

/// Whether a login is known to stand is what the session's requests and their answers tell.
pub fn a_login_is_told_by_the_talk()
    ensures { (gate : Gate) (deeds : List Deed) → (known gate deeds).login ≡ login_in (answered (gives asked deeds)) }
{}

/// Where a login is asked for before the command that was heard last, whatever asks for a destination or gives the server
/// something comes after a login that stands in what this session entered: what it had asked by then and was entered is a front
/// of that, and in this front a login stands for the number that this session's opening was given (`own`). If the port's own
/// entries are the whole history, they are a front of it (`whole`).
pub fn the_login_is_this_sessions<Origin>()
    ensures own { (gate : Gate) (old new : World Origin) (ending : Ending) (held : Held (ftp_rows gate) ftp_row old new ending) →
        old.office.opened ≡ None → (entered : Entered (gives asked (deeds_of held)) old.office new.office) →
        (before after : List Deed) (deed : Deed) → deeds_of held ≡ before ++ deed ∷ after → IsOutward deed.act →
        NeedsLogin gate (known gate before) →
        LoginStandsIn (number_opened (gives asked (deeds_of held))) (gives asked before) entered.port.entries }
    ensures whole { (gate : Gate) (old new : World Origin) (ending : Ending) (held : Held (ftp_rows gate) ftp_row old new ending) →
        old.office.opened ≡ None → old.office.port.mine ≡ [] →
        new.office.port.mine ≡ places (length new.office.port.seen) → (before after : List Deed) (deed : Deed) →
        deeds_of held ≡ before ++ deed ∷ after → IsOutward deed.act → NeedsLogin gate (known gate before) →
        LoginStandsIn (number_opened (gives asked (deeds_of held))) (gives asked before) new.office.port.seen }
{}

/// Where no session was open before: openings that opened none, and then nothing is asked, or Open once more; where that is
/// answered `Opened`, Close is asked once, as the last, and Open not again.
pub fn a_session_is_opened_once<Origin>()
    ensures { (gate : Gate) (old new : World Origin) (ending : Ending) (held : Held (ftp_rows gate) ftp_row old new ending) →
        old.office.opened ≡ None → OpensOnce (gives asked (deeds_of held)) }
{}

/// Behind the end of what the client says, the end of what the server says, the last reply to QUIT that was passed, and the
/// goodbye to a client without a server, at most these are done: the client is told that the server closed, a link is hung up,
/// a session at the port is closed (`there`). A dialogue that comes to its end ends with one of these (`ended`).
pub fn the_dialogue_ends<Origin>()
    ensures there { (gate : Gate) (old new : World Origin) (ending : Ending) (held : Held (ftp_rows gate) ftp_row old new ending) →
        EndsThere gate (deeds_of held) }
    ensures ended { (gate : Gate) (old new : World Origin) (ending : Ending) (held : Held (ftp_rows gate) ftp_row old new ending) →
        IsDone held.dialogue → HasEnd gate (deeds_ran held.ran) }
{}

/// Where no session was open before, and no line that was heard is AUTHORIZE with a name, nothing is asked of the port
/// (`unasked`), and so no session ends for want of memory (`ample`) or by the port (`unfailed`). None ends since a destination couldn't be reached (`routed`).
pub fn what_ends_no_session<Origin>()
    ensures unasked { (gate : Gate) (old new : World Origin) (ending : Ending) (held : Held (ftp_rows gate) ftp_row old new ending) →
        old.office.opened ≡ None → gives names (deeds_of held) ≡ [] → gives asked (deeds_of held) ≡ [] }
    ensures ample { (gate : Gate) (old new : World Origin) (ending : Ending) (held : Held (ftp_rows gate) ftp_row old new ending) →
        old.office.opened ≡ None → gives names (deeds_of held) ≡ [] → ending ≢ NoMemory }
    ensures unfailed { (gate : Gate) (old new : World Origin) (ending : Ending) (held : Held (ftp_rows gate) ftp_row old new ending) →
        old.office.opened ≡ None → gives names (deeds_of held) ≡ [] → ending ≢ AuthFault }
    ensures routed { (gate : Gate) (old new : World Origin) (ending : Ending) →
        Held (ftp_rows gate) ftp_row old new ending → ending ≢ NoRoute }
{}
