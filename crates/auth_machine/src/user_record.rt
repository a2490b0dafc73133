use auth_records::Record;
use std::marker::Model;

/// A record as the machine knows it: without what its type says of it.
#[derive(Drop)]
pub struct UserRecord {
    pub(crate) record: Record,
}

impl Model for UserRecord {
    ghost use Rattle.auth_records.specs.Spelling.{Fields, fields};

    ghost Value = { Fields };

    ghost view = { λ user. fields user.record };
}
