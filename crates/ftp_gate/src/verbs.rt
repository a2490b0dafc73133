//! Lists of verbs.
ghost use Rattle.std.specs.Prelude.{◌≡◌};
ghost use Rattle.ftp_gate.specs.Gate.{asks_login, has_verb, is_listed};

use crate::kind::is_quit;
use fw_types::{Verb, VerbList};
use gate_rules::Options;

/// Whether a list has the verb.
pub(crate) fn has_verb(verbs: &VerbList, verb: &Verb) -> bool
    ensures { result ≡ has_verb verbs.now verb.now }
{
    verbs.verbs().iter().any(|one| one.text() == verb.text())
}

fn is_listed(verbs: &Option<VerbList>, verb: &Verb) -> bool
    ensures { result ≡ is_listed verbs.now verb.now }
{
    match verbs {
        Some(verbs) => has_verb(verbs, verb),
        None => false,
    }
}

/// Whether a login is asked for before this verb.
pub(crate) fn asks_login(options: &Options, verb: &Verb) -> bool
    ensures { result ≡ asks_login options.now verb.now }
{
    !is_quit(verb.text()) && (is_listed(&options.auth, verb) || options.authall || options.extnd)
}
