// The calls of boundary for C and Rust programs that link a static library: each calls the one of its name there, and promises the same.
// A lent slice is a pointer and its length. (Each memory is a parameter of its own: that is what C calls.)
#![tactic(auto)]

ghost use Rattle.std.specs.Prelude.{[], eqb};
ghost use Rattle.rules.specs.Calls.{write_call, read_call, receive_call, send_call, take_call};
ghost use Rattle.boundary.specs.Boundary.{lent, Exports, ExportsFilling};

// A write of a value to the register with that number.
#[unsafe(no_mangle)]
pub extern "C" fn valmthosh_write(
    saved: &mut [u32],
    send: &mut [u32],
    receive: &mut [u32],
    bytes: &[u8],
    notices: &mut [u32],
    register: u32,
    value: u32,
    answer: &mut [u32],
) -> u32
    ensures { Exports (λ m. write_call m register value) result
        (lent saved.old send.old receive.old bytes.now notices.old [] answer.old)
        (lent saved.new send.new receive.new bytes.now notices.new [] answer.new) }
{
    boundary::valmthosh_write(
        saved, send, receive, bytes, notices, register, value, answer,
    )
}

// A read of the register with that number.
#[unsafe(no_mangle)]
pub extern "C" fn valmthosh_read(
    saved: &mut [u32],
    send: &[u32],
    receive: &[u32],
    bytes: &[u8],
    notices: &[u32],
    register: u32,
    answer: &mut [u32],
) -> u32
    ensures { Exports (λ m. read_call m register) result
        (lent saved.old send.now receive.now bytes.now notices.now [] answer.old)
        (lent saved.new send.now receive.now bytes.now notices.now [] answer.new) }
{
    boundary::valmthosh_read(saved, send, receive, bytes, notices, register, answer)
}

// A receipt of a packet.
#[unsafe(no_mangle)]
pub extern "C" fn valmthosh_receive(
    saved: &mut [u32],
    send: &[u32],
    receive: &mut [u32],
    bytes: &mut [u8],
    notices: &mut [u32],
    packet: &[u8],
    answer: &mut [u32],
) -> u32
    ensures { Exports (λ m. receive_call m packet.now) result
        (lent saved.old send.now receive.old bytes.old notices.old [] answer.old)
        (lent saved.new send.now receive.new bytes.new notices.new [] answer.new) }
{
    boundary::valmthosh_receive(saved, send, receive, bytes, notices, packet, answer)
}

// A send into a packet room, with the fabric ready (1) or not (anything else).
#[unsafe(no_mangle)]
pub extern "C" fn valmthosh_send(
    saved: &mut [u32],
    send: &mut [u32],
    receive: &mut [u32],
    bytes: &[u8],
    notices: &mut [u32],
    ready: u32,
    room: &mut [u8],
    answer: &mut [u32],
) -> u32
    ensures { ExportsFilling (λ m room. send_call m (eqb ready 1) room) result
        (lent saved.old send.old receive.old bytes.now notices.old room.old answer.old)
        (lent saved.new send.new receive.new bytes.now notices.new room.new answer.new) }
{
    boundary::valmthosh_send(saved, send, receive, bytes, notices, ready, room, answer)
}

// A take from the list with that number, into a notice room.
#[unsafe(no_mangle)]
pub extern "C" fn valmthosh_take(
    saved: &mut [u32],
    send: &[u32],
    receive: &mut [u32],
    bytes: &[u8],
    notices: &mut [u32],
    list: u32,
    room: &mut [u32],
    answer: &mut [u32],
) -> u32
    ensures { ExportsFilling (λ m room. take_call m list room) result
        (lent saved.old send.now receive.old bytes.now notices.old room.old answer.old)
        (lent saved.new send.now receive.new bytes.now notices.new room.new answer.new) }
{
    boundary::valmthosh_take(saved, send, receive, bytes, notices, list, room, answer)
}
