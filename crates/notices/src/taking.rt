// The take: which block it takes, or why it is refused; and what it moves.
// (Receive RAM's size is asked for, and no type's: `sound::lists` says why.)
ghost use Rattle.std.specs.Prelude.{◌≡◌, ◌<◌, length};
ghost use Rattle.rules.specs.Memory.{receive_size, lists};
ghost use Rattle.rules.specs.Notices.{place_of};
ghost use Rattle.rules.specs.Calls.{judge_take};
ghost use Rattle.laws.specs.Lent.{seen};
ghost use Rattle.notices.specs.Steps.{Takeable, TakeableTo, Takes, Acts};

use crate::blocks;
use replies::refuse;
use rules::sizes::{BLOCK_SIZE, LISTS, QUEUE_SIZE};
use rules::{Answer, BlockAddress, ListIndex, Refusal, Reply, Saved, Seen, Taking};
use tables::{is_block, place_word};

// A list's reader's place.
fn place_of(receive: &[u32], l: ListIndex) -> u32
    requires { (l.0 < lists) × (length receive.now ≡ receive_size) }
    ensures { result ≡ place_of receive.now l }
{
    receive[place_word(l)]
}

// What a take of list l into a room of so many words does, by the table's rows in their order.
#[tactic(auto, using(sound::proofs::Passing::gated_go, ground::proofs::Choice::judging, crate::proofs::Steps::place_asks), unfolding(rules::specs::Calls::judge_take))]
pub fn judge_take(m: &Seen<'_>, l: u32, room: usize) -> Result<Taking, Refusal>
    ensures { result ≡ judge_take (seen m.now) l room }
{
    let s = m.saved;
    let receive = m.receive;
    let notices = m.notices;
    sound::gate(s, m.send, receive, m.bytes.len(), notices.len())?;
    if LISTS <= l {
        return Err(Refusal::BadValue);
    }
    if room < BLOCK_SIZE {
        return Err(Refusal::Short);
    }
    let place = place_of(receive, ListIndex(l));
    if place == 0 {
        return Err(Refusal::Empty);
    }
    let next = blocks::next_of(notices, BlockAddress(place));
    if next == 0 {
        return Err(Refusal::Empty);
    }
    if !is_block(notices.len(), next) {
        return Err(Refusal::Unsound);
    }
    if QUEUE_SIZE <= s.nbqr.length {
        return Err(Refusal::Full);
    }
    Ok(Taking {
        list: ListIndex(l),
        block: BlockAddress(place),
        next: BlockAddress(next),
    })
}

// The reader's place moves on to the next, the block's next goes to 0, and the block back to NBQR.
#[tactic(auto, using(crate::proofs::Steps::taken))]
fn take_block(t: Taking, s: Saved, receive: &mut [u32], notices: &mut [u32]) -> Saved
    requires { Takeable s receive.old (length notices.old) t.list t.block }
    ensures { Takes t s receive.old notices.old result receive.new notices.new }
{
    receive[place_word(t.list)] = t.next.0;
    notices[blocks::block_first(t.block) + 3] = 0;
    blocks::push_nbqr(t.block, s, receive)
}

// By what was judged: a block's words come to the room, and its word 0 is the value.
#[tactic(auto, using(crate::proofs::Steps::block_asks, crate::proofs::Steps::room_asks, crate::proofs::Steps::value_asks, crate::proofs::Steps::take_asks, crate::proofs::Steps::acts_no, crate::proofs::Steps::acts_takes))]
pub fn act_take(
    t: Result<Taking, Refusal>,
    s: Saved,
    receive: &mut [u32],
    notices: &mut [u32],
    room: &mut [u32],
) -> Answer
    requires { TakeableTo t s receive.old (length notices.old) (length room.old) }
    ensures { Acts t s receive.old notices.old room.old result
        receive.new notices.new room.new }
{
    match t {
        Err(why) => refuse(s, why),
        Ok(t) => {
            blocks::copy_block(notices, t.block, room);
            let value = notices[blocks::block_first(t.block)];
            Answer {
                reply: Reply::Done(value),
                interrupts: 0,
                saved: take_block(t, s, receive, notices),
            }
        }
    }
}
