ghost use Rattle.std.specs.Prelude.{◌≡◌};
ghost use Rattle.auth_machine.specs.Answer.{answer_of};
ghost use Rattle.auth_machine.specs.Login.{answers_only, drops, in_phase, settles, turns};
ghost use Rattle.auth_machine.specs.Powers.{stores};
ghost use Rattle.auth_records.specs.Spelling.{fields};

use crate::record_change::{ChallengeChange, RecordChange, SessionChange};
use crate::user_record::UserRecord;
use crate::{Phase, Session};
use auth_events::{Denial, Reply};
use auth_records::Record;
use std::marker::Model;

/// What a request is answered, and what it changes.
#[derive(Drop)]
pub(crate) struct Change {
    pub(crate) reply: Reply,
    pub(crate) records: RecordChange,
    pub(crate) session: SessionChange,
    pub(crate) challenge: ChallengeChange,
}

impl Model for Change {
    ghost use Rattle.auth_machine.specs.Answer.{answer_of};
    ghost use Rattle.auth_machine.specs.State.{Change};

    ghost Value = { Change };

    ghost view = { λ c. record {
      answer = answer_of c.reply;
      records = c.records;
      session = c.session;
      challenge =
          c.challenge;
    } };
}

// The session in this phase.
pub(crate) fn in_phase(session: &Session, phase: Phase) -> Session
    ensures { result ≡ in_phase phase session.now }
{
    Session {
        sid: session.sid,
        console: session.console,
        phase,
    }
}

impl Change {
    // This reply alone.
    pub(crate) fn only(reply: Reply) -> Change
        ensures { result ≡ answers_only (answer_of reply) }
    {
        Change {
            reply,
            records: RecordChange::Leave,
            session: SessionChange::Stay,
            challenge: ChallengeChange::Same,
        }
    }

    // A denial alone.
    pub(crate) fn denied(denial: Denial) -> Change
        ensures { result ≡ answers_only (answer_of (Reply.Denied denial)) }
    {
        Change::only(Reply::Denied(denial))
    }

    // This reply and phase.
    pub(crate) fn turns(session: &Session, reply: Reply, phase: Phase) -> Change
        ensures { result ≡ turns session.now (answer_of reply) phase }
    {
        Change {
            reply,
            records: RecordChange::Leave,
            session: SessionChange::Become(in_phase(session, phase)),
            challenge: ChallengeChange::Same,
        }
    }

    // This reply and phase, and the session's challenge is dropped.
    pub(crate) fn drops(session: &Session, reply: Reply, phase: Phase) -> Change
        ensures { result ≡ drops session.now (answer_of reply) phase }
    {
        Change {
            reply,
            records: RecordChange::Leave,
            session: SessionChange::Become(in_phase(session, phase)),
            challenge: ChallengeChange::Drop,
        }
    }

    // The same, and the record becomes this one.
    pub(crate) fn settles(session: &Session, reply: Reply, phase: Phase, user: UserRecord) -> Change
        ensures { result ≡ settles session.now (answer_of reply) phase user }
    {
        Change {
            reply,
            records: RecordChange::Put(user),
            session: SessionChange::Become(in_phase(session, phase)),
            challenge: ChallengeChange::Drop,
        }
    }
}

// The record becomes this one.
pub(crate) fn stores(user: Record) -> Change
    ensures { result ≡ stores (fields user) }
{
    Change {
        reply: Reply::Ok,
        records: RecordChange::Put(UserRecord { record: user }),
        session: SessionChange::Stay,
        challenge: ChallengeChange::Same,
    }
}
