//! What the options of a command name, but for the table.
use fw_types::Dest;
use std::marker::Model;

/// What the options of a command name.
#[derive(Drop)]
pub struct Places<'a> {
    /// The file with the records.
    pub db: &'a [u8],
    /// The folder with the files of the slots.
    pub spool: &'a [u8],
    /// How many slots there are: 1 to 64.
    pub slots: u32,
    /// The program that mail is handed to.
    pub mailer: &'a [u8],
    /// The server that knows the users, where it isn't this host.
    pub remote: Option<Dest>,
}

impl<'a> Model for Places<'a> {
    ghost use Rattle.bastion.specs.Words.{PlaceNames};

    ghost Value = { PlaceNames };

    ghost view = { λ places. record { db = places.db.now; spool = places.spool.now; slots = places.slots; mailer = places.mailer.now; remote = places.remote } };
}
