//! What holds of every session of the plug.
ghost use Rattle.std.specs.Prelude.{List, ℕ};
ghost use Rattle.fw_types.specs.declared.dest.Dest.{Dest};
ghost use Rattle.fw_types.specs.declared.ending.Ending.{Ending};
ghost use Rattle.plug_gate.specs.Dialogue.{plug_row};
ghost use Rattle.plug_gate.specs.Laws.{Ends, GivesFronts, Links, Plugs};
ghost use Rattle.session_acts.specs.Deeds.{deeds_ran};
ghost use Rattle.session_acts.specs.Denying.{no_rows};
ghost use Rattle.session_acts.specs.Relayed.{relayed};
ghost use Rattle.session_acts.specs.Session.{Held, RelaySession};
ghost use Rattle.session_acts.specs.World.{Devices, World};

/// What a session's dialogue did: the log failed within the connect line, and nothing else was done, for that cause; or the
/// line was logged, and the destination refused, for which it stopped; or the line was logged, the destination reached, and bytes were relayed.
pub fn the_line_is_first<Origin>()
    ensures { (line : List ℕ) (dest : Dest) (old new : World Origin) (ending : Ending)
        (held : Held (relayed no_rows) (plug_row line dest) old new ending) →
        Plugs line dest held.dialogue (deeds_ran held.ran) }
{}

/// A destination is asked for exactly if the log has the whole connect line; it is the one that the line names, it is asked
/// for once, and no other is. The client is told nothing but what the relay carries to it.
pub fn the_destination_is_the_lines<Origin>()
    ensures { (line : List ℕ) (dest : Dest) (old new : World Origin) (ending : Ending) →
        Held (relayed no_rows) (plug_row line dest) old new ending → Links line dest old new ending }
{}

/// How a session ended, and what was done at each device: the log failed within the connect line, and the ending is
/// `LogFault`; or the log has the line, the destination was refused, and the ending is `NoRoute`; or the log has the line,
/// both sides were linked, and the ending is that of the two ways. Nothing else was done at any device.
pub fn the_ending_tells<Origin>()
    ensures { (line : List ℕ) (dest : Dest) (old new : Devices Origin) (ending : Ending) →
        RelaySession (relayed no_rows) (plug_row line dest) old new ending → Ends line dest old new ending }
{}

/// What reached each side: the server was given a front of what was taken of the client, and the client a front of what was
/// taken of the server, each at most 4,096 bytes short. The first is whole unless the ending is `ClientFault` or
/// `ServerFault`, the second unless it is `ClientFault`. If it is `Done`, nothing is left on either side, and each was told
/// that no more comes.
pub fn fronts_are_given<Origin>()
    ensures { (line : List ℕ) (dest : Dest) (old new : Devices Origin) (ending : Ending) →
        RelaySession (relayed no_rows) (plug_row line dest) old new ending → GivesFronts old new ending }
{}
