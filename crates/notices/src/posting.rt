// When a notice can be posted, and the one posting behind message, ack, fault and the end of a send.
// (Receive RAM's size is asked for, and no type's: `sound::lists` says why. A queue's place in it is a parameter, as NQR and AQR differ in it.)
ghost use Rattle.std.specs.Prelude.{◌≡◌, ◌+◌, ◌≤◌, ◌<◌, length};
ghost use Rattle.rules.specs.Memory.{receive_size, lists, queue_size};
ghost use Rattle.rules.specs.Notices.{can_post, can_post_all, push_aqr, push_nqr, empty_interrupt, fill_head, enqueue_token, post_all};
ghost use Rattle.rules.specs.Notices as rule;
ghost use Rattle.laws.specs.Postings.{Listed};
ghost use Rattle.notices.specs.Steps.{Pushable, Pushes, Does, Posts, Enqueues, Postable, PostableAll};

use crate::{Step, blocks};
use rules::sizes::{AQR_FROM, NBQR_FROM, NQR_FROM, QUEUE_SIZE};
use rules::{BlockAddress, ListIndex, Notice, Posting, Queue, Saved};
use tables::{head_word, token_word};

// Whether a list can be posted to: a set head, a waiting block, and room for the token where it is pushed.
#[tactic(auto, unfolding(rules::specs::Notices::can_post))]
fn can_post(s: Saved, receive: &[u32], l: ListIndex) -> bool
    requires { (l.0 < lists) × (length receive.now ≡ receive_size) }
    ensures { result ≡ can_post s receive.now l }
{
    receive[head_word(l)] != 0
        && s.nbqr.length != 0
        && (receive[token_word(l)] % 2 == 0 || (s.nqr.length < QUEUE_SIZE))
}

// A queue after a push, its interrupt bit, and the interrupt.
#[derive(Clone, Copy)]
struct Pushed {
    queue: Queue,
    bit: u32,
    interrupt: u32,
}

// A push that interrupts where the queue was empty and its bit off, and then sets the bit.
#[tactic(auto, using(ground::proofs::Choice::branches), unfolding(rules::specs::Notices::bit_after, rules::specs::Notices::interrupt_of))]
fn push_interrupting(
    q: Queue,
    bit: u32,
    receive: &mut [u32],
    from: usize,
    number: u32,
    word: u32,
) -> Pushed
    requires { (q.place < queue_size) × (q.length < queue_size) × (from + queue_size ≤ length receive.old) }
    ensures { Pushes from number q bit word receive.old result receive.new }
{
    let queue = q.push(receive, from, word);
    if (q.length == 0) & (bit == 0) {
        return Pushed {
            queue,
            bit: 1,
            interrupt: number,
        };
    }
    Pushed {
        queue,
        bit,
        interrupt: 0,
    }
}

// A word on AQR, with interrupt 1. It and the next stay two: which queue and which bit they store is all that they say.
#[tactic(auto, unfolding(rules::specs::Notices::push_aqr))]
pub fn push_aqr(word: u32, s: Saved, receive: &mut [u32]) -> Step
    requires { Pushable s.aqr receive.old }
    ensures { Does (push_aqr word) 1 s receive.old result receive.new }
{
    let done = push_interrupting(s.aqr, s.inthi, receive, AQR_FROM, 1, word);
    Step {
        saved: Saved {
            aqr: done.queue,
            inthi: done.bit,
            ..s
        },
        interrupts: done.interrupt,
    }
}

// A word on NQR, with interrupt 2.
#[tactic(auto, unfolding(rules::specs::Notices::push_nqr))]
fn push_nqr(word: u32, s: Saved, receive: &mut [u32]) -> Step
    requires { Pushable s.nqr receive.old }
    ensures { Does (push_nqr word) 2 s receive.old result receive.new }
{
    let done = push_interrupting(s.nqr, s.intlo, receive, NQR_FROM, 2, word);
    Step {
        saved: Saved {
            nqr: done.queue,
            intlo: done.bit,
            ..s
        },
        interrupts: done.interrupt,
    }
}

// With enqueue, the token goes on NQR.
#[tactic(auto, using(crate::proofs::Steps::push_asks))]
fn enqueue_token(word: u32, s: Saved, receive: &mut [u32]) -> Step
    requires { Enqueues word s receive.old }
    ensures { Does (enqueue_token word) 2 s receive.old result receive.new }
{
    let enqueue = word % 2 == 1;
    let token = word / 2 % 0x8000_0000;
    if enqueue {
        push_nqr(token, s, receive)
    } else {
        Step {
            saved: s,
            interrupts: 0,
        }
    }
}

// Interrupt 4, where NBQR is empty after a removal.
#[tactic(auto, using(ground::proofs::Choice::branches), unfolding(rules::specs::Notices::empty_interrupt))]
fn empty_interrupt(q: Queue) -> u32
    ensures { (result ≡ empty_interrupt q) × (result ≤ 4) }
{
    if q.length == 0 { 4 } else { 0 }
}

// The head block is filled, and the oldest waiting block is its next and the new head.
#[tactic(auto, using(crate::proofs::Steps::fill_asks))]
fn fill_head(l: ListIndex, n: Notice, s: Saved, receive: &mut [u32], notices: &mut [u32]) -> Step
    requires { Postable s receive.old (length notices.old) l }
    ensures { Posts (fill_head l n) 4 s receive.old notices.old result
        receive.new notices.new }
{
    let head = head_word(l);
    let oldest = s.nbqr.remove(receive, NBQR_FROM);
    let next = oldest.word;
    blocks::fill_block(notices, BlockAddress(receive[head]), n, next);
    receive[head] = next;
    Step {
        saved: Saved {
            nbqr: oldest.queue,
            ..s
        },
        interrupts: empty_interrupt(oldest.queue),
    }
}

// A posting on a list that can be posted to.
fn post(l: ListIndex, n: Notice, s: Saved, receive: &mut [u32], notices: &mut [u32]) -> Step
    requires { Postable s receive.old (length notices.old) l }
    ensures { Posts (rule.post l n) 6 s receive.old notices.old result
        receive.new notices.new }
{
    let token = receive[token_word(l)];
    let filled = fill_head(l, n, s, receive, notices);
    let told = enqueue_token(token, filled.saved, receive);
    Step {
        saved: told.saved,
        interrupts: filled.interrupts + told.interrupts,
    }
}

// Whether what a call has to post can be posted.
#[tactic(auto, unfolding(rules::specs::Notices::can_post_all))]
pub fn can_post_all(s: Saved, receive: &[u32], p: Option<Posting>) -> bool
    requires { Listed p × (length receive.now ≡ receive_size) }
    ensures { result ≡ can_post_all s receive.now p }
{
    match p {
        None => true,
        Some(p) => can_post(s, receive, p.list),
    }
}

// What a call has to post is posted.
pub fn post_all(p: Option<Posting>, s: Saved, receive: &mut [u32], notices: &mut [u32]) -> Step
    requires { PostableAll s receive.old (length notices.old) p }
    ensures { Posts (post_all p) 6 s receive.old notices.old result receive.new notices.new }
{
    match p {
        None => Step {
            saved: s,
            interrupts: 0,
        },
        Some(p) => post(p.list, p.notice, s, receive, notices),
    }
}
