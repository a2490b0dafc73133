ghost use Rattle.std.specs.Prelude.{◌≡◌, ◌+◌, ◌≤◌, [], length};
ghost use Rattle.gate_rules.specs.Options.{no_options};
ghost use Rattle.gate_rules.specs.Verdict.{allows, destination_steps, list_allows, list_length, list_steps};

use fw_types::{Dest, OctetsList, Peer, VerbList};
use host_pattern::{PatternList, Steps};
use std::alloc::Global;
use std::sync::ledger::Ledger;

/// What a permit line says besides its hosts.
#[derive(Drop)]
pub struct Options {
    /// The program and its arguments, or nothing where there is no `-exec`.
    pub exec: OctetsList,
    /// The destinations, where there is a `-dest`.
    pub dest: Option<PatternList>,
    /// For which verbs a login is asked, where there is an `-auth`. No verb where a login is asked before any connect.
    pub auth: Option<VerbList>,
    /// Whether a login is asked for everything.
    pub authall: bool,
    /// Whether, besides, the rules on operations decide each destination.
    pub extnd: bool,
    /// The verbs that are denied.
    pub deny: VerbList,
    /// The verbs that are logged when they are passed.
    pub log: VerbList,
    /// The target of the plug.
    pub plug_to: Option<Dest>,
}

impl Options {
    // No option.
    pub(crate) fn none(alloc: Global) -> Options
        ensures { result ≡ no_options }
    {
        Options {
            exec: OctetsList::new(alloc),
            dest: None,
            auth: None,
            authall: false,
            extnd: false,
            deny: VerbList::new(),
            log: VerbList::new(),
            plug_to: None,
        }
    }
}

fn list_allows<L: Ledger>(
    patterns: &Option<PatternList>,
    party: &Peer,
    steps: &mut Steps<L>,
) -> bool
    ensures answer { result ≡ list_allows patterns.now party.now }
    ensures steps { steps.new ≡ steps.old + list_steps patterns.now party.now }
    ensures bound { steps.new ≤ steps.old + list_length patterns.now }
{
    match patterns {
        Some(patterns) => patterns.matches(party, steps),
        None => true,
    }
}

/// Whether a client with these options may go to a destination: always where there is no `-dest`, else where its list
/// matches the destination's host. It takes no memory, and makes one step a pattern, up to the first whose body matches.
pub fn destination<L: Ledger>(options: &Options, dest: &Dest, steps: &mut Steps<L>) -> bool
    ensures answer { result ≡ allows options.now dest.now }
    ensures steps { steps.new ≡ steps.old + destination_steps options.now dest.now }
    ensures bound { steps.new ≤ steps.old + list_length options.now.dest }
{
    list_allows(&options.dest, &dest.party(), steps)
}
