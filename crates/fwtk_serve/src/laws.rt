//! What follows of what is said of each session, and of the slots. Each function states a law and does nothing.
ghost use Rattle.std.specs.Prelude.{◌≡◌, ◌≤◌, List, None, length};
ghost use Rattle.acceptors.specs.AcceptorView.{AcceptorView};
ghost use Rattle.auth_events.specs.declared.entry.Entry.{Entry};
ghost use Rattle.auth_machine.specs.Port.{BookOrigin};
ghost use Rattle.fw_types.specs.declared.peer.Peer.{Peer};
ghost use Rattle.fwtk_serve.specs.Accounts.{NoneIsLost};
ghost use Rattle.fwtk_serve.specs.Full.{AreFullWith};
ghost use Rattle.fwtk_serve.specs.RulesFor.{first_for, rules_for};
ghost use Rattle.fwtk_serve.specs.Sessions.{Both};
ghost use Rattle.fwtk_serve.specs.Working.{DoorView, ServedDoor};
ghost use Rattle.gate_rules.specs.Reading.{RuleBook};
ghost use Rattle.gate_rules.specs.Verdict.{verdict_of};
ghost use Rattle.gate_rules.specs.declared.service.Service.{Service};
ghost use Rattle.gate_rules.specs.declared.verdict.Verdict.TheVariants.{Deny};
ghost use Rattle.spool_pool.specs.Ends.{IsSettled};
ghost use Rattle.spool_rack.specs.Store.{Handed, Queues};
ghost use Rattle.turn_lock.specs.Known.{Lock};

/// The port of a session at a door is full only where the history has as many entries as fit, in the end too.
pub fn a_port_is_full_only_with_the_history()
    ensures { (rules : List (Service × RuleBook)) (lock : Lock BookOrigin) (first : Both) (history : List Entry)
        (old : AcceptorView) (new : DoorView) (door : ServedDoor rules lock first history old new) →
        length history ≤ lock.limit
        → AreFullWith rules lock history first door.last new.sittings door.worked.serves.were }
{}

/// Whoever asks for a service that has no rules is denied by line 0.
pub fn a_service_without_rules_denies_by_line_0()
    ensures { (service : Service) (rules : List (Service × RuleBook)) (peer : Peer) → first_for service rules ≡ None
        → verdict_of (rules_for service rules) peer ≡ Deny 0 }
{}

/// Of the messages that were in the slots at first, those that were put, and those of slots that were broken then, each is in the
/// slots that are left, or was released or set aside, and none is there twice.
pub fn no_message_is_lost()
    ensures { (lists : Handed) (left : Queues) → IsSettled lists left → NoneIsLost lists.began lists left }
{}
