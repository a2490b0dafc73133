//! What runs over the slots of one spool come to, with crashes between them and inside them, as laws on public functions
//! without parameters. There is no other code here.
#![tactic(auto)]

pub mod laws;
