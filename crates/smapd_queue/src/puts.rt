//! Taking a slot with a message, and putting it where it belongs by what its mailer answered.
ghost use Rattle.std.specs.Prelude.{◌≡◌, true};
ghost use Rattle.spool_rack.specs.Store.{IsOut, MayPutAside, MayPutBroken, MayPutFull, PutsBroken, TakesFull};
ghost use Rattle.spool_rack.specs.Store.{put_aside, put_free, put_full};
ghost use Rattle.smapd_queue.specs.declared.word.Word.TheVariants as words;
ghost use Rattle.smapd_queue.specs.Steps.{Accepts, IsLent, IsLentUnread, Refuses, as_broken};

use crate::word::Word;
use fw_types::NoMemory;
use spool_rack::{Aside, Broken, Free, Full, MailStore};

/// A slot with a message, if there is one.
#[tactic(auto, using(spool_rack::proofs::SeenLemmas::full_seen))]
pub(crate) fn take_full<M: MailStore>(store: &mut M) -> Option<Full<M::D>>
    ensures { TakesFull result (M.store_view store.old) (M.store_view store.new) }
{
    match store.take_full() {
        Some(full) => Some(full),
        None => None,
    }
}

// Puts back a slot that is free.
fn put_free<M: MailStore>(store: &mut M, free: Free<M::D>)
    requires { IsOut free.number (M.store_view store.old).out }
    ensures { M.store_view store.new ≡ put_free free (M.store_view store.old) }
{
    store.put_free(free);
}

// Puts back a slot with a message.
fn put_full<M: MailStore>(store: &mut M, full: Full<M::D>)
    requires { MayPutFull full (M.store_view store.old).out }
    ensures { M.store_view store.new ≡ put_full full (M.store_view store.old) }
{
    store.put_full(full);
}

// Puts back a slot whose message was set aside.
fn put_aside<M: MailStore>(store: &mut M, aside: Aside<M::D>)
    requires { MayPutAside aside (M.store_view store.old).out }
    ensures { M.store_view store.new ≡ put_aside aside (M.store_view store.old) }
{
    store.put_aside(aside);
}

// Puts back a slot whose disk failed.
fn put_broken<M: MailStore>(store: &mut M, broken: Broken<M::D>)
    requires { MayPutBroken broken (M.store_view store.old).out }
    ensures { PutsBroken broken (M.store_view store.old) (M.store_view store.new) }
{
    store.put_broken(broken);
}

// Puts back a slot as it was taken.
#[tactic(auto, using(crate::proofs::LentLemmas::may_put_full))]
fn put_back<M: MailStore>(store: &mut M, full: Full<M::D>)
    requires { IsLent full (M.store_view store.old).out }
    ensures { M.store_view store.new ≡ put_full full (M.store_view store.old) }
{
    put_full(store, full);
}

/// Puts back a slot whose message a mailer failed to take.
pub(crate) fn keep<M: MailStore>(store: &mut M, full: Full<M::D>) -> Word
    requires { IsLent full (M.store_view store.old).out }
    ensures word { result ≡ words.Failed }
    ensures puts { M.store_view store.new ≡ put_full full (M.store_view store.old) }
{
    put_back(store, full);
    Word::Failed
}

/// Puts back a slot for want of memory.
pub(crate) fn lack<M: MailStore>(store: &mut M, full: Full<M::D>) -> NoMemory
    requires { IsLent full (M.store_view store.old).out }
    ensures { M.store_view store.new ≡ put_full full (M.store_view store.old) }
{
    put_back(store, full);
    NoMemory
}

/// Puts back a slot that couldn't be read.
#[tactic(auto, using(crate::proofs::LentLemmas::may_give_up))]
pub(crate) fn give_up<M: MailStore>(store: &mut M, full: Full<M::D>) -> Word
    requires unread { full.unread ≡ true }
    requires lent { IsLentUnread full (M.store_view store.old).out }
    ensures word { result ≡ words.Broken }
    ensures puts { PutsBroken (as_broken full) (M.store_view store.old) (M.store_view store.new) }
{
    put_broken(store, full.into_broken());
    Word::Broken
}

/// Frees a slot whose message was accepted.
pub(crate) fn free_slot<M: MailStore>(store: &mut M, full: Full<M::D>) -> Word
    requires { IsLent full (M.store_view store.old).out }
    ensures { Accepts result full (M.store_view store.old) (M.store_view store.new) }
{
    match full.release() {
        Ok(free) => {
            put_free(store, free);
            Word::Accepted
        }
        Err(broken) => {
            put_broken(store, broken);
            Word::Broken
        }
    }
}

/// Sets a slot aside whose message was refused.
pub(crate) fn set_aside<M: MailStore>(store: &mut M, full: Full<M::D>) -> Word
    requires { IsLent full (M.store_view store.old).out }
    ensures { Refuses result full (M.store_view store.old) (M.store_view store.new) }
{
    match full.set_aside() {
        Ok(aside) => {
            put_aside(store, aside);
            Word::Refused
        }
        Err(broken) => {
            put_broken(store, broken);
            Word::Broken
        }
    }
}
