use crate::Policy;
use crate::user_record::UserRecord;
use std::marker::Model;

/// What a history stands on: the policy and the records that were loaded.
#[derive(Drop)]
pub struct Loaded {
    pub(crate) policy: Policy,
    pub(crate) records: Vec<UserRecord>,
}

impl Model for Loaded {
    ghost use Rattle.auth_machine.specs.History.{Origin};

    ghost Value = { Origin };

    ghost view = { λ loaded. record { policy = loaded.policy; records = loaded.records.items } };
}
