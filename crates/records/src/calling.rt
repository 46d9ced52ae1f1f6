// A record's kind, and the call that it asks for.
ghost use Rattle.std.specs.Prelude.{◌≡◌, length};
ghost use Rattle.rules.specs.Station.{record_size, kind_of};
ghost use Rattle.laws.specs.Lent.{leaves};
ghost use Rattle.records.specs.Records.{machine_of, Keeps, PacketTo, Gives};

use crate::machine::Lent;
use rules::Answer;
use rules::sizes::{BLOCK_SIZE, PACKET_MOST, RECORD_SIZE};

// The kind, byte 0. "A torn last record is kind 0, length ignored." (A number: a line prints it, known or not.)
#[tactic(auto, using(crate::proofs::Asked::kind_whole, crate::proofs::Asked::kind_torn))]
pub(crate) fn kind_of(record: &[u8]) -> u8
    ensures { result ≡ kind_of «record».now }
{
    if record.len() == RECORD_SIZE {
        record[0]
    } else {
        0
    }
}

// Where a whole record's packet ends.
#[tactic(auto, using(crate::proofs::Asked::packet_to, crate::proofs::Asked::no_packet))]
fn packet_end(record: &[u8]) -> usize
    requires { length «record».now ≡ record_size }
    ensures { PacketTo «record».now result }
{
    let n = words::get(record, 12);
    if n <= PACKET_MOST as u32 {
        16 + n as usize
    } else {
        16
    }
}

// The call that a whole record asks for. (By the format's numbers: each arm hands over other memories.)
fn call_whole(m: &mut Lent<'_>, record: &[u8]) -> Answer
    requires { length «record».now ≡ record_size }
    ensures keeps { Keeps m.old m.new }
    ensures gives { Gives (machine_of m.old) «record».now
        (leaves result m.new.send.now m.new.receive.now m.new.bytes.now m.new.notices.now) }
{
    let s = m.saved;
    let send = &mut *m.send;
    let receive = &mut *m.receive;
    let bytes = &mut *m.bytes;
    let notices = &mut *m.notices;
    let first = words::get(record, 4);
    match record[0] {
        1 => engine::write(
            s,
            send,
            receive,
            bytes,
            notices,
            first,
            words::get(record, 8),
        ),
        2 => engine::read(s, send, receive, bytes, notices, first),
        3 => {
            let end = packet_end(record);
            engine::receive(s, send, receive, bytes, notices, &record[16..end])
        }
        4 => {
            let mut room = [0u8; PACKET_MOST];
            engine::send(s, send, receive, bytes, notices, first == 1, &mut room)
        }
        5 => {
            let mut room = [0u32; BLOCK_SIZE];
            engine::take(s, send, receive, bytes, notices, first, &mut room)
        }
        _ => engine::unknown(s, send, receive, bytes, notices),
    }
}

// The call that a record asks for; a torn one asks for none that is known.
pub(crate) fn call(m: &mut Lent<'_>, record: &[u8]) -> Answer
    ensures keeps { Keeps m.old m.new }
    ensures gives { Gives (machine_of m.old) «record».now
        (leaves result m.new.send.now m.new.receive.now m.new.bytes.now m.new.notices.now) }
{
    if record.len() == RECORD_SIZE {
        call_whole(m, record)
    } else {
        let s = m.saved;
        let send = &mut *m.send;
        let receive = &mut *m.receive;
        let bytes = &mut *m.bytes;
        let notices = &mut *m.notices;
        engine::unknown(s, send, receive, bytes, notices)
    }
}
