// What a write of a word of the RAMs does, or why it is refused. Every function here only reads.
// (The RAMs' sizes are asked for, and no type's: `sound::lists` says why.)
ghost use Rattle.std.specs.Prelude.{Ok, Err, ◌≡◌, ◌<◌, length};
ghost use Rattle.ground.specs.Choice.{need};
ghost use Rattle.rules.specs.Memory.{send_size, receive_size, descriptors, lists, send_part, receive_part, is_free_block};
ghost use Rattle.rules.specs.Writes.{judge_send_word, judge_receive_word};

use notices::next_of;
use rules::sizes::{CONTROL1_WORD, DESCRIPTOR_SIZE, DESCRIPTORS, LISTS_FROM, NQR_FROM, SLOT_SIZE};
use rules::{
    BlockAddress, DescriptorIndex, ListIndex, ReceivePart, ReceiveStore, Refusal, SendPart,
    SendStore, SlotIndex, Writing,
};
use tables::{descriptor_at, go_rule, head_word, is_active, is_block};

// What a write does, where its value is a good one.
#[tactic(auto, unfolding(ground::specs::Choice::need))]
pub(crate) fn checked(good: bool, does: Writing) -> Result<Writing, Refusal>
    ensures { result ≡ need good (Err Refusal.BadValue) (Ok does) }
{
    if good {
        Ok(does)
    } else {
        Err(Refusal::BadValue)
    }
}

// A block address whose next word is 0.
#[tactic(auto, using(laws::proofs::Sound::is_block_lem), unfolding(rules::specs::Memory::is_free_block))]
pub(crate) fn is_free_block(notices: &[u32], a: u32) -> bool
    ensures { result ≡ is_free_block notices.now a }
{
    is_block(notices.len(), a) && next_of(notices, BlockAddress(a)) == 0
}

// Where the descriptors end, and DIO begins.
const DESCRIPTOR_WORDS: u32 = DESCRIPTORS * DESCRIPTOR_SIZE;

// What word i of Send RAM is.
#[tactic(auto, using(ground::proofs::Choice::branches), unfolding(rules::specs::Memory::send_part))]
fn send_part(i: u32) -> SendPart
    ensures { result ≡ send_part i }
{
    if i < DESCRIPTOR_WORDS {
        return SendPart::OfDescriptor(DescriptorIndex(i / DESCRIPTOR_SIZE), i % DESCRIPTOR_SIZE);
    }
    SendPart::Direct(i)
}

// What word i of Receive RAM is.
#[tactic(auto, using(ground::proofs::Choice::branches), unfolding(rules::specs::Memory::receive_part))]
fn receive_part(i: u32) -> ReceivePart
    ensures { result ≡ receive_part i }
{
    if i < LISTS_FROM {
        return ReceivePart::OfSlot(SlotIndex(i / SLOT_SIZE), i % SLOT_SIZE);
    }
    if NQR_FROM as u32 <= i {
        return ReceivePart::Fixed;
    }
    if i % 2 == 0 {
        return ReceivePart::Head(ListIndex((i - LISTS_FROM) / 2));
    }
    ReceivePart::Token(ListIndex((i - LISTS_FROM) / 2))
}

// A descriptor's word.
#[tactic(auto, using(ground::proofs::Choice::judging, ground::proofs::Tests::not_both), unfolding(rules::specs::Writes::judge_send_word, ground::specs::Choice::pick))]
fn judge_descriptor_word(
    send: &[u32],
    datalength: usize,
    d: DescriptorIndex,
    k: u32,
    v: u32,
) -> Result<Writing, Refusal>
    requires { (d.0 < descriptors) × (length send.now ≡ send_size) }
    ensures { result ≡ judge_send_word send.now datalength (SendPart.OfDescriptor d k) v }
{
    if matches!(k, 4 | 6 | 7 | 12..) {
        return Err(Refusal::ReadOnly);
    }
    let words = descriptor_at(send, d);
    let go = v / 0x1000_0000 % 2 == 1;
    let msg_size = v % 0x100_0000;
    let starts = (k == CONTROL1_WORD) & go;
    let stops = (k == CONTROL1_WORD) & !go;
    // "Writes to an active descriptor answer active, except control1 with go 0"
    if is_active(words) & !stops {
        return Err(Refusal::Active);
    }
    // "A control1 write with go 1 needs" the go rule.
    if starts & !go_rule(words, v, msg_size, datalength) {
        return Err(Refusal::BadValue);
    }
    if starts {
        return Ok(Writing::StoresSend(SendStore::Start(d)));
    }
    Ok(Writing::StoresSend(SendStore::Word(d, k)))
}

// Word i of Send RAM.
#[tactic(auto, using(laws::proofs::Writing::send_part_lem), unfolding(rules::specs::Writes::judge_send_word))]
pub(crate) fn judge_send_word(
    send: &[u32],
    datalength: usize,
    i: u32,
    v: u32,
) -> Result<Writing, Refusal>
    requires { length send.now ≡ send_size }
    ensures { result ≡ judge_send_word send.now datalength (send_part i) v }
{
    match send_part(i) {
        SendPart::OfDescriptor(d, k) => judge_descriptor_word(send, datalength, d, k, v),
        SendPart::Direct(at) => Ok(Writing::StoresSend(SendStore::DirectWord(at))),
    }
}

// A list's head.
#[tactic(auto, using(ground::proofs::Choice::judging), unfolding(rules::specs::Writes::judge_receive_word))]
fn judge_head(receive: &[u32], notices: &[u32], l: ListIndex, v: u32) -> Result<Writing, Refusal>
    requires { (l.0 < lists) × (length receive.now ≡ receive_size) }
    ensures { result ≡ judge_receive_word receive.now notices.now (ReceivePart.Head l) v }
{
    if receive[head_word(l)] != 0 {
        return Err(Refusal::ReadOnly);
    }
    if !is_free_block(notices, v) {
        return Err(Refusal::BadValue);
    }
    Ok(Writing::StoresReceive(ReceiveStore::FirstBlock(l, BlockAddress(v))))
}

// Word i of Receive RAM.
#[tactic(auto, using(laws::proofs::Writing::receive_part_lem, ground::proofs::Choice::judging), unfolding(rules::specs::Writes::judge_receive_word, ground::specs::Choice::pick))]
pub(crate) fn judge_receive_word(
    receive: &[u32],
    notices: &[u32],
    i: u32,
    v: u32,
) -> Result<Writing, Refusal>
    requires { length receive.now ≡ receive_size }
    ensures { result ≡ judge_receive_word receive.now notices.now (receive_part i) v }
{
    match receive_part(i) {
        ReceivePart::OfSlot(i, 2) => Ok(Writing::StoresReceive(ReceiveStore::SlotWord2(i))),
        ReceivePart::OfSlot(i, k @ (0 | 1 | 6)) => {
            Ok(Writing::StoresReceive(ReceiveStore::SlotWord(i, k)))
        }
        ReceivePart::OfSlot(..) | ReceivePart::Fixed => Err(Refusal::ReadOnly),
        ReceivePart::Head(l) => judge_head(receive, notices, l, v),
        ReceivePart::Token(l) => {
            let enqueue = v % 2 == 1;
            let token = v / 2 % 0x8000_0000;
            let stores = Writing::StoresReceive(ReceiveStore::ListToken(l));
            checked(!enqueue | (token != 0), stores)
        }
    }
}
