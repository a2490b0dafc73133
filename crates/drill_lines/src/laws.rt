//! What the definitions of `specs/` come to. Each function states laws and does nothing.
ghost use Rattle.std.specs.Prelude.{◌≡◌, ℕ, ◌+◌, ◌≤◌, [], ◌∷◌, codes, IsTrue, is_ok, Ok, Some, None};
ghost use Rattle.drill_lines.specs.Draws.{draws};
ghost use Rattle.drill_lines.specs.Drill.{drilled, peers_asked, table_text};
ghost use Rattle.drill_lines.specs.declared.plan.Drill.{Drill};
ghost use Rattle.drill_lines.specs.declared.tally.Tally.{Tally};

/// The first draws from 1, and the lines and the peers of two that are drawn from it.
pub fn the_first_draws()
    ensures draws { draws 10 1 ≡ 16838 ∷ 5758 ∷ 10113 ∷ 17515 ∷ 31051 ∷ 5627 ∷ 23010 ∷ 7419 ∷ 16212 ∷ 4086 ∷ [] }
    ensures table { table_text (record { start = 1; count = 2 }) ≡
        codes "tn-gw: permit-hosts 12.1.*\ntn-gw: deny-hosts 13.3.*\n" }
    ensures peers { peers_asked (record { start = 1; count = 2 })
        ≡ record { addr = Some (12 ∷ 3 ∷ 0 ∷ 1 ∷ []); name = None } ∷
        record { addr = Some (10 ∷ 6 ∷ 0 ∷ 1 ∷ []); name = None } ∷ [] }
{}

/// A drill of four, worked whole. Its lines deny 11.5.*, permit 13.0.*, permit 11.6.* and deny 11.6.*. Its peers are
/// 10.4.0.1, which no line fits, 11.6.0.1, which the third line permits before the fourth denies it, and twice
/// 11.5.0.1, which the first line denies.
pub fn a_small_drill()
    ensures table { table_text (record { start = 643; count = 4 }) ≡
        codes "tn-gw: deny-hosts 11.5.*\ntn-gw: permit-hosts 13.0.*\ntn-gw: permit-hosts 11.6.*\ntn-gw: deny-hosts 11.6.*\n" }
    ensures peers { peers_asked (record { start = 643; count = 4 })
        ≡ record { addr = Some (10 ∷ 4 ∷ 0 ∷ 1 ∷ []); name = None } ∷
        record { addr = Some (11 ∷ 6 ∷ 0 ∷ 1 ∷ []); name = None } ∷
        record { addr = Some (11 ∷ 5 ∷ 0 ∷ 1 ∷ []); name = None } ∷
        record { addr = Some (11 ∷ 5 ∷ 0 ∷ 1 ∷ []); name = None } ∷ [] }
    ensures counts { drilled (record { start = 643; count = 4 }) ≡
        Ok (record { permits = 1; denials = 2; unmatched = 1 }) }
{}

/// Each peer counts once: the counts of a drill add up to the number of its peers.
pub fn the_counts_add_up()
    ensures { (drill : Drill) (tally : Tally) → drilled drill ≡ Ok tally →
        tally.permits + tally.denials + tally.unmatched ≡ drill.count }
{}

/// What is drawn can be read: a drill of at most 10,000 has counts, whatever number it is drawn from.
pub fn what_is_drawn_can_be_read()
    ensures { (drill : Drill) → drill.count ≤ 10000 → IsTrue (is_ok (drilled drill)) }
{}
