//! What holds of every session of the Telnet gateway.
ghost use Rattle.std.specs.Prelude.{◌≡◌, ◌≢◌, true, false, List, [], ◌∷◌, ◌++◌, length, None};
ghost use Rattle.auth_events.specs.Port.{places};
ghost use Rattle.fw_outside.specs.declared.ask.Ask.TheVariants.{Main};
ghost use Rattle.fw_types.specs.declared.dest.Dest.{Dest};
ghost use Rattle.fw_types.specs.declared.ending.Ending.{Ending};
ghost use Rattle.fw_types.specs.declared.ending.Ending.TheVariants.{AuthFault, NoMemory, NoRoute};
ghost use Rattle.session_acts.specs.Deeds.{Deed, deeds_ran, gives};
ghost use Rattle.session_acts.specs.Hearing.{heard_in};
ghost use Rattle.session_acts.specs.Laws.{called};
ghost use Rattle.session_acts.specs.RelayFronts.{RelaysFronts};
ghost use Rattle.session_acts.specs.RelayLast.{RelaysLast};
ghost use Rattle.session_acts.specs.Relayed.{relayed, then_relay};
ghost use Rattle.session_acts.specs.Said.{lines_said};
ghost use Rattle.session_acts.specs.Session.{Held, RelaySession, deeds_of};
ghost use Rattle.session_acts.specs.Talk.{Entered, asked};
ghost use Rattle.session_acts.specs.World.{Devices, IsUnlinked, World, devices_of};
ghost use Rattle.tn_gate.specs.Asked.{lines_in, turns_of};
ghost use Rattle.tn_gate.specs.Asking.{AsksWhatIsDue};
ghost use Rattle.tn_gate.specs.Course.{OpensOnce};
ghost use Rattle.tn_gate.specs.Dialogue.{tn_row, tn_rows};
ghost use Rattle.tn_gate.specs.Due.{LogsWhatIsDue};
ghost use Rattle.tn_gate.specs.Ends.{EndsThere, HasEnd};
ghost use Rattle.tn_gate.specs.Gate.{Gate, asks_login};
ghost use Rattle.tn_gate.specs.Laws.{AsksExactly, DenialsLogged, DialsCleared, LinesDialed};
ghost use Rattle.tn_gate.specs.Login.{LoginStandsIn, number_opened};

/// Right before a destination is asked for stand, in order, the client's line that asks for it, with `-extnd` the permission
/// for its host, and its connect line, which the log has whole; the permission line's `-dest` allows it; and where that line
/// asks for a login, one stands in what this session has asked and was answered up to there (`dials`). Right behind each
/// connect line that the log has whole its destination is asked for (`lines`).
pub fn each_dial_is_cleared<Origin>()
    ensures dials { (gate : Gate) (old new : World Origin) (ending : Ending)
        (held : Held (relayed (tn_rows gate)) (then_relay (tn_row gate)) old new ending) →
        DialsCleared gate (deeds_of held) }
    ensures lines { (gate : Gate) (old new : World Origin) (ending : Ending)
        (held : Held (relayed (tn_rows gate)) (then_relay (tn_row gate)) old new ending) →
        LinesDialed gate (deeds_of held) }
{}

/// Where the client is told that a destination is denied, or a login, the log was given the line of that denial right before,
/// whole: for the destination that was wanted, by the line that refuses it; for the user whose login failed by the answer
/// right before, with the reason of that answer. A text that is no name is denied without a line, where no command is taken
/// and no response is waited for (`told`). The log is given each line that is due, be it for a denial, a login or a link, and no other, right
/// behind what it is due for (`due`).
pub fn each_denial_is_logged<Origin>()
    ensures told { (gate : Gate) (old new : World Origin) (ending : Ending)
        (held : Held (relayed (tn_rows gate)) (then_relay (tn_row gate)) old new ending) →
        DenialsLogged gate (deeds_of held) }
    ensures due { (gate : Gate) (old new : World Origin) (ending : Ending)
        (held : Held (relayed (tn_rows gate)) (then_relay (tn_row gate)) old new ending) →
        LogsWhatIsDue gate (deeds_of held) }
{}

/// The destinations that are asked for are those that the client's lines ask for, in order: the commands to connect to a
/// destination that the permission line allows and that is cleared. All of them are asked for, unless the dialogue stopped;
/// then a front of them is (`asks`). The lines are those that were heard (`lines`), which are the first lines of the client's
/// text (`the_lines_of_telnet_are_heard` of `session_acts`).
pub fn the_destinations_are_those_asked_for<Origin>()
    ensures asks { (gate : Gate) (old new : World Origin) (ending : Ending)
        (held : Held (relayed (tn_rows gate)) (then_relay (tn_row gate)) old new ending) → AsksExactly gate held }
    ensures lines { (gate : Gate) (old new : World Origin) (ending : Ending)
        (held : Held (relayed (tn_rows gate)) (then_relay (tn_row gate)) old new ending) →
        lines_in (turns_of (deeds_of held)) ≡ lines_said (gives heard_in (deeds_of held)) }
{}

/// For each line that is heard, and for each answer, the request that is due is asked, and no other, before a further line is
/// heard and before the end, unless the client can't be told something before: for a name an opening, where no session is
/// open, and behind that, or else at once, whether the name is a user's; for a response whether that is right; with `-extnd`,
/// for a command to connect, permission, if `-dest` lets the destination pass.
pub fn each_request_is_due<Origin>()
    ensures { (gate : Gate) (old new : World Origin) (ending : Ending)
        (held : Held (relayed (tn_rows gate)) (then_relay (tn_row gate)) old new ending) →
        AsksWhatIsDue gate (deeds_of held) }
{}

/// Behind a link that came up, behind `quit` where commands are taken, and behind the end of what the client says, no line is
/// heard and no destination is asked for (`there`). A dialogue that comes to its end ends with one of these (`ended`).
pub fn the_dialogue_ends<Origin>()
    ensures there { (gate : Gate) (old new : World Origin) (ending : Ending)
        (held : Held (relayed (tn_rows gate)) (then_relay (tn_row gate)) old new ending) →
        EndsThere gate (deeds_of held) }
    ensures ended { (gate : Gate) (old new : World Origin) (ending : Ending)
        (held : Held (relayed (tn_rows gate)) (then_relay (tn_row gate)) old new ending) →
        (last : RelaysLast (tn_rows gate) (tn_row gate) held) → HasEnd gate (deeds_ran last.talk) }
{}

/// Where no session was open before: openings that opened none, and then nothing is asked, or Open once more; where that is
/// answered `Opened`, Close is asked once, as the last, and Open not again.
pub fn a_session_is_opened_once<Origin>()
    ensures { (gate : Gate) (old new : World Origin) (ending : Ending)
        (held : Held (relayed (tn_rows gate)) (then_relay (tn_row gate)) old new ending) → old.office.opened ≡ None →
        OpensOnce (gives asked (deeds_of held)) }
{}

/// Where a login is asked for, whatever asks for a destination comes after a login that stands in what this session entered:
/// what it had asked by then and was entered is a front of that, and in this front a login stands for the number that this
/// session's opening was given (`own`). If the port's own entries are the whole history, they are a front of it (`whole`).
pub fn the_login_is_this_sessions<Origin>()
    ensures own { (gate : Gate) (old new : World Origin) (ending : Ending)
        (held : Held (relayed (tn_rows gate)) (then_relay (tn_row gate)) old new ending) → old.office.opened ≡ None →
        (entered : Entered (gives asked (deeds_of held)) old.office new.office) → asks_login gate.options ≡ true →
        (before after : List Deed) (deed : Deed) (dest : Dest) → deeds_of held ≡ before ++ deed ∷ after →
        called deed.act deed.outcome ≡ Main dest ∷ [] →
        LoginStandsIn (number_opened (gives asked (deeds_of held))) (gives asked before) entered.port.entries }
    ensures whole { (gate : Gate) (old new : World Origin) (ending : Ending)
        (held : Held (relayed (tn_rows gate)) (then_relay (tn_row gate)) old new ending) → old.office.opened ≡ None →
        old.office.port.mine ≡ [] → new.office.port.mine ≡ places (length new.office.port.seen) →
        asks_login gate.options ≡ true → (before after : List Deed) (deed : Deed) (dest : Dest) →
        deeds_of held ≡ before ++ deed ∷ after → called deed.act deed.outcome ≡ Main dest ∷ [] →
        LoginStandsIn (number_opened (gives asked (deeds_of held))) (gives asked before) new.office.port.seen }
{}

/// What reached each side. If bytes were relayed, of the client was taken what the dialogue heard and then, from the first byte
/// that it didn't hear, what was relayed: the server was given a front of that, and nothing else. The client was given what the
/// dialogue told, and then a front of what was taken of the server. Each is at most 4,096 bytes short, and whole unless a source
/// or a sink failed, as `fronts_are_relayed` of `session_acts` says; over any other link nothing was given or taken. If none
/// were, since no link came up or the client couldn't be told of it, at most 4,096 bytes more were taken of the client than the
/// dialogue heard, and over no link anything was given or taken. `held` says so where no link was up and nothing pending before, `session` of a session over
/// its devices.
pub fn fronts_are_relayed<Origin>()
    ensures held { (gate : Gate) (old new : World Origin) (ending : Ending)
        (held : Held (relayed (tn_rows gate)) (then_relay (tn_row gate)) old new ending) → IsUnlinked old.server →
        old.client.reader.pending ≡ [] → RelaysFronts (deeds_of held) (devices_of old) (devices_of new) ending }
    ensures session { (gate : Gate) (old new : Devices Origin) (ending : Ending)
        (session : RelaySession (relayed (tn_rows gate)) (then_relay (tn_row gate)) old new ending) →
        RelaysFronts (deeds_of session.held) old new ending }
{}

/// Where no session was open before, and the permission line asks for no login, nothing is asked of the port (`unasked`), and so
/// no session ends for want of memory (`ample`) or by the port (`unfailed`). None ends since a destination couldn't be reached (`routed`).
pub fn what_ends_no_session<Origin>()
    ensures unasked { (gate : Gate) (old new : World Origin) (ending : Ending)
        (held : Held (relayed (tn_rows gate)) (then_relay (tn_row gate)) old new ending) → old.office.opened ≡ None →
        asks_login gate.options ≡ false → gives asked (deeds_of held) ≡ [] }
    ensures ample { (gate : Gate) (old new : World Origin) (ending : Ending) →
        Held (relayed (tn_rows gate)) (then_relay (tn_row gate)) old new ending → old.office.opened ≡ None →
        asks_login gate.options ≡ false → ending ≢ NoMemory }
    ensures unfailed { (gate : Gate) (old new : World Origin) (ending : Ending) →
        Held (relayed (tn_rows gate)) (then_relay (tn_row gate)) old new ending → old.office.opened ≡ None →
        asks_login gate.options ≡ false → ending ≢ AuthFault }
    ensures routed { (gate : Gate) (old new : World Origin) (ending : Ending) →
        Held (relayed (tn_rows gate)) (then_relay (tn_row gate)) old new ending → ending ≢ NoRoute }
{}
