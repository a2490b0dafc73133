use auth_machine::Policy;
use gate_rules::Rules;

/// What the table says of a service whose sessions stand on the users' records: the rules for its clients, and what the
/// authentication server goes by.
#[derive(Drop)]
pub struct ServerRules {
    pub rules: Rules,
    pub policy: Policy,
}
