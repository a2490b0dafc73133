//! What the buckets of rules come to. Each function states laws and does nothing.
ghost use Rattle.std.specs.Prelude.{◌≡◌, ℕ, ◌≤◌, List, [], ◌∷◌, ◌++◌, length, slice_index, false, IsTrue, Some};
ghost use Rattle.std.specs.List.{list_any};
ghost use Rattle.fw_types.specs.declared.peer.Peer.{Peer};
ghost use Rattle.gate_rules.specs.declared.rule.Rule.{Rule};
ghost use Rattle.gate_rules.specs.declared.setting.Assigned.{Assigned};
ghost use Rattle.gate_rules.specs.Bucket.{bucket, stands_in};
ghost use Rattle.gate_rules.specs.Verdict.{verdict_steps};

/// Where one rule alone has a pattern that belongs to the first octet of a peer's address or to every one, the peer's
/// bucket has this rule alone (`alone`). So a verdict takes at most as many steps as the rule's list has patterns, however
/// many rules stand before it and behind it (`steps`).
pub fn a_lone_rule_of_an_octet()
    ensures alone { (before : List Rule) (rule : Rule) (after : List Rule) (peer : Peer) (addr : List ℕ) →
        peer.addr ≡ Some addr → list_any (stands_in (slice_index addr 0)) before ≡ false →
        IsTrue (stands_in (slice_index addr 0) rule) → list_any (stands_in (slice_index addr 0)) after ≡ false
        → bucket peer (before ++ rule ∷ after) ≡ rule ∷ [] }
    ensures steps { (before : List Rule) (rule : Rule) (after : List Rule) (settings : List Assigned) (peer : Peer)
        (addr : List ℕ) →
        peer.addr ≡ Some addr → list_any (stands_in (slice_index addr 0)) before ≡ false →
        IsTrue (stands_in (slice_index addr 0) rule) → list_any (stands_in (slice_index addr 0)) after ≡ false
        → verdict_steps (record { rules = before ++ rule ∷ after; settings = settings }) peer ≤ length rule.hosts }
{}
