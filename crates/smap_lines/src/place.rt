//! Where the reading of a body stands, and the bytes that a byte gives there.
ghost use Rattle.std.specs.Prelude.{◌≡◌, ◌≢◌, false, true, [], ◌∷◌};
ghost use Rattle.smap_lines.specs.Place.{is_last, LeadsTo, view_at};

use arrayvec::ArrayVec;

/// What of a line has come.
#[derive(Clone, Copy, Debug, PartialEq, Eq)]
pub(crate) enum Place {
    /// Nothing.
    Start,
    /// A period.
    Period,
    /// A period and CR.
    PeriodReturn,
    /// Some bytes, all of which are given.
    Middle,
    /// Bytes and then CR, of which all but the CR are given.
    Return,
}

fn one(byte: u8) -> ArrayVec<u8, 2>
    ensures { result.items ≡ byte ∷ [] }
{
    let mut bytes = ArrayVec::new();
    bytes.push(byte);
    bytes
}

fn two(first: u8, second: u8) -> ArrayVec<u8, 2>
    ensures { result.items ≡ first ∷ second ∷ [] }
{
    let mut bytes = one(first);
    bytes.push(second);
    bytes
}

fn at_start(byte: u8) -> (Place, ArrayVec<u8, 2>)
    ensures { LeadsTo record { middle = false; pending = [] } (view_at result.0) byte result.1.items }
{
    match byte {
        b'.' => (Place::Period, ArrayVec::new()),
        b'\r' => (Place::Return, ArrayVec::new()),
        _ => (Place::Middle, one(byte)),
    }
}

fn behind_period(byte: u8) -> (Place, ArrayVec<u8, 2>)
    ensures { LeadsTo record { middle = false; pending = 46 ∷ [] } (view_at result.0) byte result.1.items }
{
    match byte {
        b'\r' => (Place::PeriodReturn, ArrayVec::new()),
        _ => (Place::Middle, one(byte)),
    }
}

fn behind_period_return(byte: u8) -> (Place, ArrayVec<u8, 2>)
    requires { byte ≢ 10 }
    ensures { LeadsTo record { middle = false; pending = 46 ∷ 13 ∷ [] } (view_at result.0) byte result.1.items }
{
    match byte {
        b'\r' => (Place::Return, one(b'\r')),
        _ => (Place::Middle, two(b'\r', byte)),
    }
}

fn in_middle(byte: u8) -> (Place, ArrayVec<u8, 2>)
    ensures { LeadsTo record { middle = true; pending = [] } (view_at result.0) byte result.1.items }
{
    match byte {
        b'\r' => (Place::Return, ArrayVec::new()),
        _ => (Place::Middle, one(byte)),
    }
}

fn behind_return(byte: u8) -> (Place, ArrayVec<u8, 2>)
    ensures { LeadsTo record { middle = true; pending = 13 ∷ [] } (view_at result.0) byte result.1.items }
{
    match byte {
        b'\n' => (Place::Start, two(b'\r', byte)),
        b'\r' => (Place::Return, one(b'\r')),
        _ => (Place::Middle, two(b'\r', byte)),
    }
}

impl Place {
    /// Whether the byte ends the line that is a period alone.
    pub(crate) fn is_last(self, byte: u8) -> bool
        ensures { result ≡ is_last self byte }
    {
        match self {
            Place::PeriodReturn => byte == b'\n',
            _ => false,
        }
    }

    /// Where the reading stands behind a byte, and what that gives of the body.
    pub(crate) fn behind(self, byte: u8) -> (Place, ArrayVec<u8, 2>)
        requires { is_last self byte ≡ false }
        ensures { LeadsTo (view_at self) (view_at result.0) byte result.1.items }
    {
        match self {
            Place::Start => at_start(byte),
            Place::Period => behind_period(byte),
            Place::PeriodReturn => behind_period_return(byte),
            Place::Middle => in_middle(byte),
            Place::Return => behind_return(byte),
        }
    }
}
