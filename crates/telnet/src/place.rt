//! Where the reading of a text's items stands, and the data that a byte gives there.
ghost use Rattle.std.specs.Prelude.{◌≡◌, [], ◌∷◌, IfSome};
ghost use Rattle.telnet.specs.Place.{held, Strips};

/// Interpret as command (RFC 854, "TELNET COMMAND STRUCTURE").
const IAC: u8 = 255;
/// The end of a subnegotiation.
const SE: u8 = 240;
/// The beginning of a subnegotiation.
const SB: u8 = 250;
/// The first of WILL, WON'T, DO and DON'T, which follow each other.
const WILL: u8 = 251;

const DONT: u8 = 254;

/// What of an item has come.
#[derive(Clone, Copy, Debug, PartialEq, Eq)]
pub(crate) enum Place {
    /// Nothing.
    Data,
    /// IAC.
    Command,
    /// IAC and WILL, WON'T, DO or DON'T.
    Choice,
    /// A subnegotiation without its end.
    Inside,
    /// A subnegotiation without its end, and IAC.
    InsideCommand,
}

fn in_data(byte: u8) -> (Place, Option<u8>)
    ensures strips { Strips [] (held result.0) byte result.1 }
    ensures whole { IfSome result.1 (λ _. held result.0 ≡ []) }
{
    if byte == IAC {
        (Place::Command, None)
    } else {
        (Place::Data, Some(byte))
    }
}

fn in_command(byte: u8) -> (Place, Option<u8>)
    ensures strips { Strips (255 ∷ []) (held result.0) byte result.1 }
    ensures whole { IfSome result.1 (λ _. held result.0 ≡ []) }
{
    match byte {
        IAC => (Place::Data, Some(IAC)),
        SB => (Place::Inside, None),
        WILL..=DONT => (Place::Choice, None),
        _ => (Place::Data, None),
    }
}

fn in_choice(byte: u8) -> (Place, Option<u8>)
    ensures strips { Strips (255 ∷ 251 ∷ []) (held result.0) byte result.1 }
    ensures whole { IfSome result.1 (λ _. held result.0 ≡ []) }
{
    let _ = byte;
    (Place::Data, None)
}

fn inside(byte: u8) -> (Place, Option<u8>)
    ensures strips { Strips (255 ∷ 250 ∷ []) (held result.0) byte result.1 }
    ensures whole { IfSome result.1 (λ _. held result.0 ≡ []) }
{
    if byte == IAC {
        (Place::InsideCommand, None)
    } else {
        (Place::Inside, None)
    }
}

fn inside_command(byte: u8) -> (Place, Option<u8>)
    ensures strips { Strips (255 ∷ 250 ∷ 255 ∷ []) (held result.0) byte result.1 }
    ensures whole { IfSome result.1 (λ _. held result.0 ≡ []) }
{
    if byte == SE {
        (Place::Data, None)
    } else {
        (Place::Inside, None)
    }
}

impl Place {
    /// Where the reading stands behind a byte, and the data byte that it gives, which ends an item.
    pub(crate) fn behind(self, byte: u8) -> (Place, Option<u8>)
        ensures strips { Strips (held self) (held result.0) byte result.1 }
        ensures whole { IfSome result.1 (λ _. held result.0 ≡ []) }
    {
        match self {
            Place::Data => in_data(byte),
            Place::Command => in_command(byte),
            Place::Choice => in_choice(byte),
            Place::Inside => inside(byte),
            Place::InsideCommand => inside_command(byte),
        }
    }
}
