// The types of the engine, by value. What document 01 says of them stands in specs/, as definitions.
#![tactic(auto)]

mod numbers;
mod queues;
pub mod sizes;

pub use queues::Removal;

// ---- the saved state

// A queue of 256 words of Receive RAM: the place of its oldest entry, and how many entries wait.
#[derive(Clone, Copy, Default)]
pub struct Queue {
    pub place: u32,
    pub length: u32,
}

// Fifteen numbers, any value: registers, the two interrupt bits, three queues, the last sender.
#[derive(Clone, Copy, Default)]
pub struct Saved {
    pub pcsr0: u32,
    pub inthi: u32,
    pub intlo: u32,
    pub slots: u32,
    pub taken: u32,
    pub faulted: u32,
    pub sendpointer: u32,
    pub receivepointer: u32,
    pub nqr: Queue,
    pub aqr: Queue,
    pub nbqr: Queue,
    pub lastsender: u32,
}

// A machine as a judgement sees it: the saved state, and the four memories lent for reading.
#[derive(Clone, Copy)]
pub struct Seen<'a> {
    pub saved: Saved,
    pub send: &'a [u32],
    pub receive: &'a [u32],
    pub bytes: &'a [u8],
    pub notices: &'a [u32],
}

// ---- what names a thing: a value of one kind never stands for another

// A slot by dst_slot.
#[derive(Clone, Copy)]
pub struct SlotIndex(pub u32);

// A list by note_index.
#[derive(Clone, Copy)]
pub struct ListIndex(pub u32);

// A block of notice memory by its address.
#[derive(Clone, Copy)]
pub struct BlockAddress(pub u32);

// A send descriptor by its number.
#[derive(Clone, Copy)]
pub struct DescriptorIndex(pub u32);

// ---- descriptors, slots, packets, notices

// Four metadata words.
#[derive(Clone, Copy, Default)]
pub struct Metadata {
    pub a: u32,
    pub b: u32,
    pub c: u32,
    pub d: u32,
}

// A descriptor's words 0 to 6 and 8 to 11. (address1 is document 003's name for dst_slot with note_index.)
#[derive(Clone, Copy)]
pub struct Descriptor {
    pub msgaddress: u32,
    pub address0: u32,
    pub address1: u32,
    pub control0: u32,
    pub bytestogo: u32,
    pub control1: u32,
    pub status2: u32,
    pub metadata: Metadata,
}

// A slot's sixteen words; no rule reads words 12 to 15 (lock, mark, namea, nameb).
#[derive(Clone, Copy)]
pub struct Slot {
    pub base: u32,
    pub size: u32,
    pub noteandflags: u32,
    pub bytestogo: u32,
    pub msgsize: u32,
    pub msgoffset: u32,
    pub acknote: u32,
    pub metaword: u32,
    pub metadata: Metadata,
    pub lock: u32,
    pub mark: u32,
    pub namea: u32,
    pub nameb: u32,
}

// A packet's words 0 to 3. (address1 and control1 are document 003's names for words 1 and 3.)
#[derive(Clone, Copy)]
pub struct Header {
    pub address0: u32,
    pub address1: u32,
    pub control0: u32,
    pub control1: u32,
}

// What receipt looks at of a packet besides its two checks and the payload's bytes: words 0 to 3, the zero half of word 4, the
// metadata (zeros without the flag), the packet's length and its payload's length, both in bytes.
#[derive(Clone, Copy)]
pub struct Packet {
    pub header: Header,
    pub zerohalf: u32,
    pub metadata: Metadata,
    pub length: u32,
    pub payloadlength: u32,
}

// A notice: the words of its block without the next.
#[derive(Clone, Copy, Default)]
pub struct Notice {
    pub word0: u32,
    pub word1: u32,
    pub word2: u32,
    pub metadata: Metadata,
}

// What a call has to post, if anything: a notice on a list.
#[derive(Clone, Copy)]
pub struct Posting {
    pub list: ListIndex,
    pub notice: Notice,
}

// ---- replies

// Why a call is refused, in the order of the reply table, with the table's numbers.
#[derive(Clone, Copy)]
pub enum Refusal {
    Sizes = 13,
    Unsound = 14,
    NoRegister = 2,
    ReadOnly = 3,
    Active = 5,
    BadValue = 4,
    Off = 1,
    Short = 10,
    NoPacket = 7,
    Empty = 12,
    Full = 6,
    Quiet = 11,
    Stalled = 8,
    Fabric = 15,
}

// What a call replies: done with a value, a fault with its status, or a refusal.
#[derive(Clone, Copy)]
pub enum Reply {
    Done(u32),
    Fault(u32),
    Refused(Refusal),
}

// What a call answers, besides what the lent memories and rooms then hold.
#[derive(Clone, Copy)]
pub struct Answer {
    pub reply: Reply,
    pub interrupts: u32,
    pub saved: Saved,
}

// ---- registers

// The registers that stand for themselves.
#[derive(Clone, Copy)]
pub enum Register {
    Pcsr0,
    Pcsr1,
    Nlhr,
    SlotCount,
    Nqr,
    Aqr,
    Nbqr,
    Taken,
    Faulted,
    SendPointer,
    ReceivePointer,
}

// What a register number means: a register itself, the word at a pointer (a step moves the pointer on), a descriptor word by its
// number in Send RAM, a page's low byte, or nothing. No Option: all nine are what the one map says, and are matched at once.
#[derive(Clone, Copy)]
pub enum Mapped {
    Single(Register),
    SendWord,
    SendStep,
    ReceiveWord,
    ReceiveStep,
    DescriptorWord(u32),
    SendPage(u32),
    ReceivePage(u32),
    Unmapped,
}

// What an access reaches, where it is not refused: a register itself, or a word of a RAM by its number.
#[derive(Clone, Copy)]
pub enum Reach {
    Itself(Register),
    InSend(u32),
    InReceive(u32),
}

// A word that is read, and the saved state after that.
#[derive(Clone, Copy)]
pub struct Shown {
    pub word: u32,
    pub saved: Saved,
}

// What a word of Send RAM is: a descriptor's word, or a word of DIO by its number.
#[derive(Clone, Copy)]
pub enum SendPart {
    OfDescriptor(DescriptorIndex, u32),
    Direct(u32),
}

// What a word of Receive RAM is: a slot's word, a list's head or token, or one that no write is addressed to.
#[derive(Clone, Copy)]
pub enum ReceivePart {
    OfSlot(SlotIndex, u32),
    Head(ListIndex),
    Token(ListIndex),
    Fixed,
}

// ---- the verdicts: what a call will do, once it is judged and not refused

// A number of the saved state that a write stores.
#[derive(Clone, Copy)]
pub enum Number {
    Pcsr0,
    InterruptBits,
    SlotCount,
    SendPointer,
    ReceivePointer,
}

// What a write stores in Send RAM: a word of DIO, a descriptor's word, or a control1 word with go 1.
#[derive(Clone, Copy)]
pub enum SendStore {
    DirectWord(u32),
    Word(DescriptorIndex, u32),
    Start(DescriptorIndex),
}

// What a write stores in Receive RAM: a slot's word 0, 1 or 6, a slot's word 2, a list's first block, a list's token.
#[derive(Clone, Copy)]
pub enum ReceiveStore {
    SlotWord(SlotIndex, u32),
    SlotWord2(SlotIndex),
    FirstBlock(ListIndex, BlockAddress),
    ListToken(ListIndex),
}

// What a write does: a reset, a number of the saved state set, a block handed to NBQR, a word of Send RAM or of Receive RAM stored.
#[derive(Clone, Copy)]
pub enum Writing {
    Reset,
    Sets(Number),
    Gives(BlockAddress),
    StoresSend(SendStore),
    StoresReceive(ReceiveStore),
}

// Why a packet fails: the steps of receipt, each with its status, in the table's order; bytes_to_go beyond its range has the payload's.
#[derive(Clone, Copy)]
pub enum Fault {
    HeaderCheck = 0x0400,
    Fields = 0x0080,
    Node = 0x2000,
    SlotAboveCount = 0x4000,
    SlotNotValid = 0x8000,
    Incarnation = 0x0100,
    OffsetAbove = 0x1000,
    Beyond = 0x0800,
    BodyCheck = 0x0200,
}

// What a packet comes to by the steps of receipt: a fault; an ack for a slot, or data that lands in one, with the slot as it was judged.
// No Result: a fault is no error that stops a call, it is counted, posted and answered as the other two are.
#[derive(Clone, Copy)]
pub enum Receipt {
    Fails(Fault),
    Acks(SlotIndex, Slot),
    Lands(SlotIndex, Slot),
}

// What a receive does: the packet as it was read, and what it comes to, a fault too.
#[derive(Clone, Copy)]
pub struct Receiving {
    pub packet: Packet,
    pub receipt: Receipt,
}

// What a send does: a descriptor sends, or is marked stalled since the fabric is not ready.
#[derive(Clone, Copy)]
pub enum Sending {
    Sends(DescriptorIndex),
    Waits(DescriptorIndex),
}

// What a take does: from this list, of this block, with this next.
#[derive(Clone, Copy)]
pub struct Taking {
    pub list: ListIndex,
    pub block: BlockAddress,
    pub next: BlockAddress,
}
