//! What holds of every port over a link. Each function states laws and does nothing.
ghost use Rattle.std.specs.Prelude.{[], ◌∷◌, ◌++◌, codes};
ghost use Rattle.auth_machine.specs.Policy.{PolicyView};
ghost use Rattle.remote_port.specs.Entries.{answered};
ghost use Rattle.remote_port.specs.Remote.{RemoteView};
ghost use Rattle.remote_port.specs.Texts.{RemoteTexts};
ghost use Rattle.auth_remote.specs.HonestServer.{HonestServer};
ghost use Rattle.auth_remote.specs.Same.{Same};

use authsrv_gate::{Place, laws as gate};
use authsrv_lines::laws as lines;
use session_acts::laws as sessions;

/// The replies of an honest server are those that its history has: each request that it answered, other than by saying that
/// its history is full, has its entry there, one after another, in one session. The entry has the same request and the same
/// reply, but for the number of the session, which the link doesn't tell, and for whether the session is at a console.
pub fn same<Origin>()
    ensures { (p : RemoteView) (texts : RemoteTexts p) (honest : HonestServer Origin texts.given (texts.read ++ texts.ahead)) →
        Same (answered p.talk.seen) honest.old.port honest.new.port }
{
    lines::inverse();
    lines::asked_again();
    gate::each_reply_is_told::<Origin>();
    gate::the_talk_is_entered::<Origin>();
    gate::a_session_is_closed::<Origin>();
    sessions::the_client_is_told::<Origin, Place>();
    sessions::the_client_is_heard::<Origin, Place>();
}

/// A server can be honest: one that was told `quit` over any policy, and said that it is ready and then `ok`, is.
pub fn a_server_is_honest<Origin>()
    ensures { (origin : Origin) (policy : PolicyView) → HonestServer Origin (codes "quit" ++ 10 ∷ []) ((codes "authsrv ready"
        ++ 10 ∷ []) ++ (codes "ok" ++ 10 ∷ [])) }
{
    lines::asked_again();
}
