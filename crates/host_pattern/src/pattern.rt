ghost use Rattle.std.specs.Prelude.{◌≡◌, ◌+◌, Bool, not, position, IsTrue, OnOk, IfErr};
ghost use Rattle.host_pattern.specs.Pattern.{is_body_byte, is_body, with_body, parsed, read_as, written, begins_negated, body_of};
ghost use Rattle.host_pattern.specs.Bucket.{bucket_of};
ghost use Rattle.host_pattern.specs.Party.{body_matches};

use crate::bucket::{Bucket, bucket_of};
use crate::fault::PatternFault;
use crate::mask::is_well_masked;
use crate::party::body_matches;
use crate::steps::Steps;
use arrayvec::ArrayVec;
use fw_types::{Peer, append, copy_of, is_name_byte};
use std::marker::Model;
use std::sync::ledger::Ledger;

const LONGEST: usize = 255;

/// A pattern for hosts, as it was written: an optional `!`, and a body of 1 to 255 letters, digits, `.`, `-`, `_` and
/// `*`, or an address and a mask, two dotted quads joined by a colon.
#[derive(Drop)]
pub struct Pattern {
    negated: bool,
    body: ArrayVec<u8, 255>,
}

impl Model for Pattern {
    ghost use Rattle.std.specs.Prelude.{IsTrue};
    ghost use Rattle.host_pattern.specs.Pattern.{Written, is_body};

    ghost Value = { Written };

    ghost view = { λ pattern. record { negated = pattern.negated; body = pattern.body.items } };

    ghost invariant = { λ pattern. IsTrue (is_body pattern.body.items) };
}

fn is_body_byte(byte: u8) -> bool
    ensures { result ≡ is_body_byte byte }
{
    is_name_byte(byte) || byte == b'*' || byte == b':'
}

/// The place of the first byte that may not stand in a body.
fn bad_place(body: &[u8]) -> Option<usize>
    ensures { result ≡ position (λ b. not (is_body_byte b)) body.now }
{
    body.iter().position(|byte| !is_body_byte(*byte))
}

/// Whether a text begins with `!`, and what follows it.
pub(crate) fn unmarked(text: &[u8]) -> (bool, &[u8])
    ensures negated { result.0 ≡ begins_negated text.now }
    ensures body { result.1.now ≡ body_of text.now }
{
    match text {
        [b'!', body @ ..] => (true, body),
        _ => (false, text),
    }
}

/// Whether a text is a body, or the first thing that is wrong with it.
pub(crate) fn check_body(body: &[u8]) -> Result<(), PatternFault>
    ensures ok { OnOk result (IsTrue (is_body body.now)) }
    ensures err { IfErr result (λ why. (negated : Bool) → with_body negated body.now ≡ Err why) }
{
    if body.is_empty() {
        return Err(PatternFault::Empty);
    }
    if body.len() > LONGEST {
        return Err(PatternFault::TooLong);
    }
    match bad_place(body) {
        Some(at) => Err(PatternFault::BadByte { at }),
        None if is_well_masked(body) => Ok(()),
        None => Err(PatternFault::BadMask),
    }
}

/// Whether a body matches the party. It is one step.
pub(crate) fn test_body<L: Ledger>(body: &[u8], party: &Peer, steps: &mut Steps<L>) -> bool
    ensures answer { result ≡ body_matches body.now party.now }
    ensures one_step { steps.new ≡ steps.old + 1 }
{
    steps.tick();
    body_matches(body, party)
}

impl Pattern {
    /// The pattern that a text is.
    ///
    /// # Errors
    ///
    /// The first that applies: `Empty` where nothing but perhaps a leading `!` stands, `TooLong` where more than 255
    /// bytes follow, `BadByte` at the first that is no letter, digit, `.`, `-`, `_`, `*` or `:`, `BadMask` where a colon
    /// stands among them that doesn't join two dotted quads.
    #[tactic(auto, unfolding(crate::specs::Pattern::parsed))]
    pub fn parse(text: &[u8]) -> Result<Pattern, PatternFault>
        ensures { result ≡ parsed text.now }
    {
        let (negated, body) = unmarked(text);
        Pattern::with_body(negated, body)
    }

    fn with_body(negated: bool, body: &[u8]) -> Result<Pattern, PatternFault>
        ensures { result ≡ with_body negated body.now }
    {
        match check_body(body) {
            Err(why) => Err(why),
            Ok(()) => Ok(Pattern {
                negated,
                body: copy_of(body),
            }),
        }
    }

    /// Whether it begins with `!`.
    pub fn negated(&self) -> bool
        ensures { result ≡ self.now.negated }
    {
        self.negated
    }

    /// What follows the `!`, in the case in which it was written.
    pub fn body(&self) -> &[u8]
        ensures body { result.now ≡ self.now.body }
        ensures form { IsTrue (is_body self.now.body) }
    {
        self.body.as_slice()
    }

    /// Sets `out` to its text, as it was written.
    pub fn write(&self, out: &mut ArrayVec<u8, 256>)
        ensures text { out.new.items ≡ written self.now }
        ensures back { read_as out.new.items ≡ self.now }
    {
        out.clear();
        if self.negated {
            out.push(b'!');
        }
        append(out, self.body());
    }

    /// An equal pattern.
    pub fn twin(&self) -> Pattern
        ensures { result ≡ self.now }
    {
        Pattern {
            negated: self.negated,
            body: copy_of(self.body.as_slice()),
        }
    }

    /// Whose addresses it can match, by their first octet. It takes no memory.
    pub fn bucket(&self) -> Bucket
        ensures { result ≡ bucket_of self.now.body }
    {
        bucket_of(self.body.as_slice())
    }

    /// Whether the body matches the party, whether or not the pattern begins with `!`. It is one step.
    pub fn matches<L: Ledger>(&self, party: &Peer, steps: &mut Steps<L>) -> bool
        ensures answer { result ≡ body_matches self.now.body party.now }
        ensures one_step { steps.new ≡ steps.old + 1 }
    {
        test_body(self.body.as_slice(), party, steps)
    }
}
