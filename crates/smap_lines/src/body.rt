ghost use Rattle.std.specs.Prelude.{◌≡◌, ◌≤◌, [], false, length, IsTrue, None};
ghost use Rattle.smap_lines.specs.Body.{body_from};

use crate::place::Place;
use arrayvec::ArrayVec;
use std::marker::Model;

/// What a byte of a mail's data brings.
#[derive(Drop)]
pub enum BodyStep {
    /// These bytes of the body, or none.
    Bytes(ArrayVec<u8, 2>),
    /// The end of the body: the byte is the LF of the line that is a period alone.
    End,
}

/// A reader of the data that follow the line DATA (RFC 821, sections 4.1.1 and 4.5.2).
#[derive(Drop)]
pub struct MailBody {
    place: Place,
}

impl Model for MailBody {
    ghost use Rattle.smap_lines.specs.Place.{view_at};
    ghost use Rattle.smap_lines.specs.MailBodyView.{MailBodyView};

    ghost Value = { MailBodyView };

    ghost view = { λ b. view_at b.place };
}

impl MailBody {
    ghost use Rattle.smap_lines.specs.MailBodyView.{GivesBody, may_be_held};

    /// A reader at the beginning of a body.
    pub fn new() -> MailBody
        ensures { result ≡ record { middle = false; pending = [] } }
    {
        MailBody {
            place: Place::Start,
        }
    }

    /// Takes the next byte of the data. It holds back at most a period that begins a line, such a period and CR, or a
    /// CR. Behind the end of a body it stands at the beginning of another.
    pub fn feed(&mut self, byte: u8) -> BodyStep
        ensures gives { GivesBody result self.old self.new byte }
        ensures prompt { body_from self.new.middle self.new.pending ≡ None }
        ensures held { length self.new.pending ≤ 2 }
        ensures pending { IsTrue (may_be_held self.new.middle self.new.pending) }
        ensures end { result ≡ BodyStep.End → self.new ≡ record { middle = false; pending = [] } }
    {
        if self.place.is_last(byte) {
            self.place = Place::Start;
            return BodyStep::End;
        }
        let (place, bytes) = self.place.behind(byte);
        self.place = place;
        BodyStep::Bytes(bytes)
    }
}
