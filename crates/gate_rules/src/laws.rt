//! What the definitions of `specs/` come to. Each function states one law and does nothing.
ghost use Rattle.std.specs.Prelude.{◌≡◌, ℕ, ◌<◌, List, ◌∷◌, ◌++◌, length, drop, find, false, Ok, Err, None, is_ok, IsTrue};
ghost use Rattle.std.specs.List.{list_all};
ghost use Rattle.fw_types.specs.declared.peer.Peer.{Peer};
ghost use Rattle.host_pattern.specs.declared.word.Word.{Word};
ghost use Rattle.netperm_table.specs.declared.line.Line.{Line};
ghost use Rattle.gate_rules.specs.declared.fault.Why.{Why as Cause};
ghost use Rattle.gate_rules.specs.declared.fault.Why.TheVariants as why;
ghost use Rattle.gate_rules.specs.declared.parsed_option.ParsedOption.{ParsedOption};
ghost use Rattle.gate_rules.specs.declared.rule.Rule.{Rule};
ghost use Rattle.gate_rules.specs.declared.service.Service.{Service};
ghost use Rattle.gate_rules.specs.declared.setting.Assigned.{Assigned};
ghost use Rattle.gate_rules.specs.declared.hours.Hours.{Hours};
ghost use Rattle.gate_rules.specs.Hours.{hours_of_operation};
ghost use Rattle.gate_rules.specs.Lists.{is_pattern, mapped, patterns_of};
ghost use Rattle.gate_rules.specs.Options.{options_after, option_at, width_at};
ghost use Rattle.gate_rules.specs.Reading.{is_of, rules_of, effect_of};
ghost use Rattle.gate_rules.specs.Service.{keyword};
ghost use Rattle.gate_rules.specs.Why.{is_shown};
ghost use Rattle.gate_rules.specs.Verdict.{decided_by, rule_matches, verdict_of};

/// A line of other services might as well not stand in the table.
pub fn other_lines_say_nothing()
    ensures { (service : Service) (before : List Line) (line : Line) (after : List Line) →
        is_of (keyword service) line ≡ false
        → rules_of service (before ++ line ∷ after) ≡ rules_of service (before ++ after) }
{}

/// The first line of a service that can't be read is its fault, whatever follows.
pub fn the_first_bad_line_is_the_fault()
    ensures { (service : Service) (before : List Line) (line : Line) (after : List Line) (cause : Cause)
        → IsTrue (is_ok (rules_of service before)) → IsTrue (is_of (keyword service) line) →
        effect_of service line ≡ Err cause
        → rules_of service (before ++ line ∷ after) ≡ Err (record { line = line.number; why = cause }) }
{}

/// A cause that a word of a line shows is the line's, whatever words follow: so it is that of the leftmost such word.
pub fn a_cause_that_a_word_shows_stays()
    ensures { (service : Service) (line : Line) (more : List Word) (cause : Cause) → IsTrue (is_shown cause)
        → effect_of service line ≡ Err cause
        → effect_of service (record line { words = line.words ++ more }) ≡ Err cause }
{}

/// After 64 patterns the next word is one too many, whatever it is and whatever follows.
pub fn a_65th_pattern_is_too_many()
    ensures { (words : List Word) (word : Word) (more : List Word) → length words ≡ 64 →
        IsTrue (list_all is_pattern words)
        → patterns_of (words ++ word ∷ more) ≡ Err why.TooMany }
{}

/// A word that is no pattern, and comes before the 65th, counts whatever follows.
pub fn an_earlier_bad_pattern_counts()
    ensures { (words : List Word) (word : Word) (more : List Word) → length words < 64 → is_pattern word ≡ false
        → patterns_of (words ++ word ∷ more) ≡ Err why.BadPattern }
{}

/// What comes after an option and its value is read like options that stand alone.
pub fn options_follow_one_another()
    ensures { (service : Service) (word : Word) (words : List Word) (option : ParsedOption) →
        option_at service word words ≡ Ok option
        → options_after service 0 (word ∷ words) ≡ mapped (λ more.
        option ∷ more) (options_after service 0 (drop (width_at service word words) words)) }
{}

/// Hours are minutes of a day.
pub fn hours_are_of_one_day()
    ensures { (line : Line) (hours : Hours) → hours_of_operation line ≡ Some hours → (hours.from < 1440) × (hours.to < 1440) }
{}

/// The first rule whose host list matches decides.
pub fn the_first_match_decides()
    ensures { (before : List Rule) (rule : Rule) (after : List Rule) (settings : List Assigned) (peer : Peer)
        → find (rule_matches peer) before ≡ None → IsTrue (rule_matches peer rule)
        → verdict_of (record { rules = before ++ rule ∷ after; settings = settings }) peer ≡ decided_by (Some rule) }
{}
