//! What threads share: a lock, a pool of slots, a book of users, and a server. Each module prints what came of it, and `stdout` of
//! `fwtk_rows` says what has to be printed.
#![tactic(auto)]

pub mod book;
pub mod pool;
pub mod serve;
pub mod turn;
