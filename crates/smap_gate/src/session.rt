//! A session of the mail gateway.
ghost use Rattle.std.specs.Prelude.{◌≡◌, true};
ghost use Rattle.session_acts.specs.Causes.{SessionKeeps, WaitsFor};
ghost use Rattle.session_acts.specs.Serverless.{CausedAlone, TakesExactly};
ghost use Rattle.session_acts.specs.Session.{Session};
ghost use Rattle.smap_gate.specs.Dialogue.{smap_row, smap_rows};
ghost use Rattle.smap_gate.specs.Dummies.{lent};
ghost use Rattle.smap_gate.specs.Ends.{is_own};
ghost use Rattle.smap_gate.specs.Gate.{Fits};

use crate::dummies::{NoClock, NoDice, NoPort};
use crate::script::SmapScript;
use fw_outside::{Sink, Source};
use fw_types::{Ending, Peer};
use session_acts::{Nowhere, mail_session_over};
use spool_rack::MailStore;
use std::alloc::Global;

/// A session of mail with this client: messages are taken, of at most so many bytes in the body and so many recipients, and
/// each is put in a slot of the store, whole. One that is kept is logged, and then told by its slot's number. At most 2^40
/// bytes are taken of the client.
///
/// The answer is `Done` at the client's end or after QUIT; else why the session stopped. A message whose data had no end then
/// is in no slot. A device that failed or was idle has counted it.
pub fn smap_session<S, K, G, M>(
    alloc: Global,
    peer: &Peer,
    max_bytes: u64,
    max_rcpts: u32,
    from: &mut S,
    to: &mut K,
    logs: &mut G,
    store: &mut M,
) -> Ending
where
    S: Source,
    K: Sink,
    G: Sink,
    M: MailStore,
    requires { Fits record { peer = peer.now; most_bytes = max_bytes; most_rcpts = max_rcpts } }
    ensures session { Session (smap_rows record { peer = peer.now; most_bytes = max_bytes; most_rcpts = max_rcpts }) smap_row
        (lent (S.source_view from.old) (K.sink_view to.old) (G.sink_view logs.old) (M.store_view store.old))
        (lent (S.source_view from.new) (K.sink_view to.new) (G.sink_view logs.new) (M.store_view store.new))
        result }
    ensures keeps { SessionKeeps
        (lent (S.source_view from.old) (K.sink_view to.old) (G.sink_view logs.old) (M.store_view store.old))
        (lent (S.source_view from.new) (K.sink_view to.new) (G.sink_view logs.new) (M.store_view store.new)) }
    ensures caused { CausedAlone result
        (lent (S.source_view from.old) (K.sink_view to.old) (G.sink_view logs.old) (M.store_view store.old))
        (lent (S.source_view from.new) (K.sink_view to.new) (G.sink_view logs.new) (M.store_view store.new)) }
    ensures waited { WaitsFor result
        (lent (S.source_view from.old) (K.sink_view to.old) (G.sink_view logs.old) (M.store_view store.old))
        (lent (S.source_view from.new) (K.sink_view to.new) (G.sink_view logs.new) (M.store_view store.new)) }
    ensures spent { TakesExactly result
        (lent (S.source_view from.old) (K.sink_view to.old) (G.sink_view logs.old) (M.store_view store.old))
        (lent (S.source_view from.new) (K.sink_view to.new) (G.sink_view logs.new) (M.store_view store.new)) }
    ensures own { is_own result ≡ true }
{
    let script = SmapScript::new(alloc, peer, max_bytes, max_rcpts);
    let mut port = NoPort;
    let mut dialer = Nowhere::new();
    let mut clock = NoClock;
    let mut dice = NoDice;
    mail_session_over(
        &script,
        &mut port,
        from,
        to,
        logs,
        &mut dialer,
        &mut clock,
        &mut dice,
        store,
    )
}
