//! Reading the message of a full slot.
ghost use Rattle.std.specs.Prelude.{◌≡◌, None, length, IfOk, IfErr, IfSome, OnOk};
ghost use Rattle.fw_disk.specs.Moments.{Now};
ghost use Rattle.slot_bytes.specs.Layout.{Mail};
ghost use Rattle.slot_bytes.specs.Reading.Reading.{Whole};
ghost use Rattle.slot_bytes.specs.SlotView.{mail_view};
ghost use Rattle.spool_slots.specs.declared.read_back.ReadBack.TheVariants.{NoMemory};
ghost use Rattle.spool_slots.specs.Looks.{IsHeadOf};
ghost use Rattle.spool_slots.specs.Media.{IsFull, IsSettled};
ghost use Rattle.spool_slots.specs.Messages.{Costs, IsBodyAt};

use crate::looking::{Look, look_through};
use crate::{ReadBack, SlotWhy};
use fw_disk::{Disk, Failed};
use fw_types::Octets;
use slot_bytes::{Head, Message};
use std::alloc::Global;

// The disk gave bytes that a full slot can't hold.
fn doubted<D: Disk>(disk: &mut D) -> ReadBack
    requires { (D.disk_view disk.old).told ≡ None }
    ensures told { (D.disk_view disk.new).told ≡ (D.disk_view disk.old).told }
    ensures err { Costs result (D.disk_view disk.old) (D.disk_view disk.new) }
{
    disk.doubt();
    ReadBack::DiskFault
}

// Room for the body.
fn room_for(alloc: Global, head: &Head) -> Result<Vec<u8>, ReadBack>
    ensures room { IfOk result (λ body. length body.items ≡ head.now.len) }
    ensures err { IfErr result (λ fault. fault ≡ NoMemory) }
{
    let mut body = Vec::new(alloc);
    match body.resize(head.len as usize, 0) {
        Ok(()) => Ok(body),
        Err(_) => Err(ReadBack::NoMemory),
    }
}

// Fills a buffer that is as long as the body behind the head.
#[tactic(auto, using(crate::proofs::OpenLemmas::filled_body, crate::proofs::OpenLemmas::short_body))]
fn fill_body<D: Disk>(
    disk: &mut D,
    head: &Head,
    place: u64,
    body: &mut [u8],
) -> Result<(), ReadBack>
    requires room { length body.old ≡ head.now.len }
    requires full { Now IsFull (D.disk_view disk.old) }
    requires head { IfSome (D.disk_view disk.old).told (λ tape. IsHeadOf head.now place tape.now.seen) }
    ensures told { (D.disk_view disk.new).told ≡ (D.disk_view disk.old).told }
    ensures body { OnOk result (IfSome (D.disk_view disk.old).told (λ tape.
        IsBodyAt head.now place body.new tape.now.seen)) }
    ensures faults { OnOk result ((D.disk_view disk.new).faults ≡ (D.disk_view disk.old).faults) }
    ensures err { IfErr result (λ fault. Costs fault (D.disk_view disk.old) (D.disk_view disk.new)) }
{
    match disk.read(place, body) {
        Ok(count) => {
            if count < head.len as usize {
                return Err(doubted(disk));
            }
            Ok(())
        }
        Err(Failed) => Err(ReadBack::DiskFault),
    }
}

// Reads the body behind the head.
fn read_body<D: Disk>(
    alloc: Global,
    disk: &mut D,
    head: &Head,
    place: u64,
) -> Result<Vec<u8>, ReadBack>
    requires full { Now IsFull (D.disk_view disk.old) }
    requires head { IfSome (D.disk_view disk.old).told (λ tape. IsHeadOf head.now place tape.now.seen) }
    ensures told { (D.disk_view disk.new).told ≡ (D.disk_view disk.old).told }
    ensures body { IfOk result (λ body. IfSome (D.disk_view disk.old).told (λ tape.
        IsBodyAt head.now place body.items tape.now.seen)) }
    ensures faults { OnOk result ((D.disk_view disk.new).faults ≡ (D.disk_view disk.old).faults) }
    ensures err { IfErr result (λ fault. Costs fault (D.disk_view disk.old) (D.disk_view disk.new)) }
{
    let mut body = match room_for(alloc, head) {
        Ok(body) => body,
        Err(_) => return Err(ReadBack::NoMemory),
    };
    match fill_body(disk, head, place, &mut body) {
        Ok(()) => Ok(body),
        Err(fault) => Err(fault),
    }
}

// The message with this head and this body.
fn message_of(head: Head, body: Vec<u8>) -> Message
    ensures { mail_view result ≡ record { from = head.from; rcpts = head.rcpts; body = body.items } }
{
    Message {
        from: head.from,
        rcpts: head.rcpts,
        body: Octets::of(body),
    }
}

// Reads the message behind the head.
fn read_kept<D: Disk>(
    alloc: Global,
    disk: &mut D,
    head: Head,
    place: u64,
) -> Result<Message, ReadBack>
    requires full { Now IsFull (D.disk_view disk.old) }
    requires head { IfSome (D.disk_view disk.old).told (λ tape. IsHeadOf head place tape.now.seen) }
    ensures told { (D.disk_view disk.new).told ≡ (D.disk_view disk.old).told }
    ensures message { IfOk result (λ message. (m : Mail) → Now (IsSettled (Whole m)) (D.disk_view disk.old)
        → IfSome (D.disk_view disk.old).told (λ _. mail_view message ≡ m)) }
    ensures faults { OnOk result ((D.disk_view disk.new).faults ≡ (D.disk_view disk.old).faults) }
    ensures err { IfErr result (λ fault. Costs fault (D.disk_view disk.old) (D.disk_view disk.new)) }
{
    match read_body(alloc, disk, &head, place) {
        Ok(body) => Ok(message_of(head, body)),
        Err(fault) => Err(fault),
    }
}

/// Reads the message of a full slot.
#[tactic(auto, using(crate::proofs::OpenLemmas::never_free, crate::proofs::OpenLemmas::never_spoiled))]
pub(crate) fn read_message<D: Disk>(alloc: Global, disk: &mut D) -> Result<Message, ReadBack>
    requires { Now IsFull (D.disk_view disk.old) }
    ensures told { (D.disk_view disk.new).told ≡ (D.disk_view disk.old).told }
    ensures message { IfOk result (λ message. (m : Mail) → Now (IsSettled (Whole m)) (D.disk_view disk.old)
        → IfSome (D.disk_view disk.old).told (λ _. mail_view message ≡ m)) }
    ensures faults { OnOk result ((D.disk_view disk.new).faults ≡ (D.disk_view disk.old).faults) }
    ensures err { IfErr result (λ fault. Costs fault (D.disk_view disk.old) (D.disk_view disk.new)) }
{
    match look_through(alloc, disk) {
        Ok(Look::Kept(head, place)) => read_kept(alloc, disk, head, place),
        Ok(Look::Free) => Err(doubted(disk)),
        Ok(Look::Bad { at: _ }) => Err(doubted(disk)),
        Err(SlotWhy::NoMemory) => Err(ReadBack::NoMemory),
        Err(SlotWhy::DiskFault) => Err(ReadBack::DiskFault),
        Err(SlotWhy::BadSlot { at: _ }) => Err(ReadBack::DiskFault),
    }
}
