// The numbers of document 01 that code needs, by the names that the definitions in specs/ have. What counts or indexes is a u32, as indices
// are; what is held against a slice's length, or lies in one, is a usize.

// ---- the memories

pub const SEND_SIZE: usize = 1024;

pub const RECEIVE_SIZE: usize = 2048;

pub const DATA_MOST: usize = 32_768;

pub const NOTICES_MOST: usize = 2048;

pub const BLOCK_SIZE: usize = 8;

// ---- Send RAM

pub const DESCRIPTORS: u32 = 4;

pub const DESCRIPTOR_SIZE: u32 = 16;

pub const CONTROL1_WORD: u32 = 5;

pub const DIRECT_FROM: u32 = 0x100;

pub const DIRECT_TO: usize = 4 * SEND_SIZE;

// ---- Receive RAM

pub const SLOTS_MOST: u32 = 64;

pub const SLOT_SIZE: u32 = 16;

pub const LISTS: u32 = 64;

pub const LISTS_FROM: u32 = 1024;

pub const QUEUE_SIZE: u32 = 256;

pub const NQR_FROM: usize = 1152;

pub const AQR_FROM: usize = NQR_FROM + QUEUE_SIZE as usize;

pub const NBQR_FROM: usize = AQR_FROM + QUEUE_SIZE as usize;

pub const PLACES_FROM: u32 = 1920;

// ---- registers, packets, records

pub const PCSR0_NUMBER: u32 = 0x000;

pub const MOST24: u32 = 16_777_215;

pub const PLAIN_START: usize = 20;

pub const FLAGGED_START: usize = 36;

pub const PAYLOAD_MOST: u32 = 128;

pub const PACKET_MOST: usize = 168;

pub const RECORD_SIZE: usize = 192;
