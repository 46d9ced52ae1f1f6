// A write acted on, by its verdict.
ghost use Rattle.registers.specs.Writing.{Writable, Writes};

use crate::{map, reset, storing};
use notices::push_nbqr;
use replies::refuse;
use rules::{Answer, Refusal, Saved, Writing};

// A write of v to register number a, by what it was judged to do. (The memories stay apart: `&mut` says which a write may store in.)
#[tactic(auto, using(crate::proofs::Acted::acting), unfolding(rules::specs::Calls::act_write, rules::specs::Calls::write_done))]
pub fn act_write(
    w: Result<Writing, Refusal>,
    s: Saved,
    send: &mut [u32],
    receive: &mut [u32],
    notices: &mut [u32],
    a: u32,
    v: u32,
) -> Answer
    requires { Writable w s send.old receive.old }
    ensures { Writes w a v s send.old receive.old notices.old result
        send.new receive.new notices.new }
{
    let saved = match w {
        Err(why) => return refuse(s, why),
        Ok(Writing::Reset) => reset::reset(v, send, receive, notices),
        Ok(Writing::Sets(n)) => storing::number_set(n, v, s),
        Ok(Writing::Gives(b)) => push_nbqr(b, s, receive),
        Ok(Writing::StoresSend(x)) => {
            storing::store_send(x, v, send);
            s
        }
        Ok(Writing::StoresReceive(x)) => {
            storing::store_receive(x, v, receive);
            s
        }
    };
    map::done(map::decode(a), 0, saved)
}
