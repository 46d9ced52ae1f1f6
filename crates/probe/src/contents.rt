// What a case is made of: its head, and the saved state, memories and rooms of the sizes that the head says.
use crate::bytes::{Page, read_bytes, read_words, write_bytes, write_words};
use boundary::{
    ANSWER_WORDS, SAVED_WORDS, unknown_call, valmthosh_read, valmthosh_receive, valmthosh_send,
    valmthosh_take, valmthosh_write,
};
use std::io::{self, Read, Write};

// A case's head: the call's kind and its two numbers, and the sizes of the memories and rooms.
pub(crate) const HEAD_WORDS: usize = 9;

// All of it, lent to one call.
#[derive(Drop)]
pub(crate) struct Contents<'a> {
    saved: [u32; SAVED_WORDS],
    send: &'a mut [u32],
    receive: &'a mut [u32],
    data: &'a mut [u8],
    notices: &'a mut [u32],
    packet: &'a mut [u8],
    room: &'a mut [u32],
}

impl<'a> Contents<'a> {
    // In the order of the format.
    pub(crate) fn read(&mut self, from: &mut impl Read, page: &mut Page) -> io::Result<()> {
        read_words(from, &mut self.saved, page)?;
        read_words(from, self.send, page)?;
        read_words(from, self.receive, page)?;
        read_bytes(from, self.data)?;
        read_words(from, self.notices, page)?;
        read_bytes(from, self.packet)?;
        read_words(from, self.room, page)
    }

    // The same. (Two, since each step of theirs is another function's.) Each part is written, whatever became of those before it: `and` works
    // out both.
    pub(crate) fn write(&self, to: &mut impl Write, page: &mut Page) -> io::Result<()> {
        write_words(to, &self.saved, page)
            .and(write_words(to, self.send, page))
            .and(write_words(to, self.receive, page))
            .and(write_bytes(to, self.data))
            .and(write_words(to, self.notices, page))
            .and(write_bytes(to, self.packet))
            .and(write_words(to, self.room, page))
    }

    // The call of a kind: write, read, receive, send, take; any other is an unknown call. The answer's three words. (A kind is a number of the
    // format, and each call is lent other memories.)
    pub(crate) fn call(&mut self, kind: u32, a: u32, b: u32) -> [u32; ANSWER_WORDS] {
        let mut answer = [0u32; ANSWER_WORDS];
        let saved = &mut self.saved;
        let send = &mut *self.send;
        let receive = &mut *self.receive;
        let data = &mut *self.data;
        let notices = &mut *self.notices;
        let packet = &mut *self.packet;
        let room = &mut *self.room;
        match kind {
            1 => valmthosh_write(saved, send, receive, data, notices, a, b, &mut answer),
            2 => valmthosh_read(saved, send, receive, data, notices, a, &mut answer),
            3 => valmthosh_receive(saved, send, receive, data, notices, packet, &mut answer),
            4 => valmthosh_send(saved, send, receive, data, notices, a, packet, &mut answer),
            5 => valmthosh_take(saved, send, receive, data, notices, a, room, &mut answer),
            _ => unknown_call(saved, send, receive, data, notices, &mut answer),
        };
        answer
    }
}

// The memories and rooms that a case's are parts of.
#[derive(Drop)]
pub(crate) struct Rooms {
    send: [u32; 2048],
    receive: [u32; 4096],
    data: [u8; 65536],
    notices: [u32; 4096],
    packet: [u8; 1024],
    room: [u32; 64],
}

impl Rooms {
    pub(crate) fn new() -> Rooms {
        Rooms {
            send: [0; 2048],
            receive: [0; 4096],
            data: [0; 65536],
            notices: [0; 4096],
            packet: [0; 1024],
            room: [0; 64],
        }
    }

    // The parts that a head asks for; None where one is beyond its room.
    pub(crate) fn cut(&mut self, head: &[u32; HEAD_WORDS]) -> Option<Contents<'_>> {
        let send = &mut self.send;
        let receive = &mut self.receive;
        let data = &mut self.data;
        let notices = &mut self.notices;
        let packet = &mut self.packet;
        let room = &mut self.room;
        Some(Contents {
            saved: [0; SAVED_WORDS],
            send: send.get_mut(..head[3] as usize)?,
            receive: receive.get_mut(..head[4] as usize)?,
            data: data.get_mut(..head[5] as usize)?,
            notices: notices.get_mut(..head[6] as usize)?,
            packet: packet.get_mut(..head[7] as usize)?,
            room: room.get_mut(..head[8] as usize)?,
        })
    }
}
