// NQR, AQR and NBQR: one push and one removal for all three. A queue goes in by value, and its new state comes back.
ghost use Rattle.std.specs.Prelude.{◌≡◌, ◌+◌, ◌≤◌, ◌<◌, length};
ghost use Rattle.rules.specs.Memory.{queue_size};
ghost use Rattle.rules.specs.Queues.{pushed, pushed_word, oldest, removed};

use crate::Queue;
use crate::sizes::QUEUE_SIZE;

// A queue's oldest entry, and the queue without it.
#[derive(Clone, Copy)]
pub struct Removal {
    pub word: u32,
    pub queue: Queue,
}

impl Queue {
    // One entry more, of the queue whose entries stand from word `from` on.
    pub fn push(self, receive: &mut [u32], from: usize, word: u32) -> Queue
        requires { (self.place < queue_size) × (self.length < queue_size) × (from + queue_size ≤ length receive.old) }
        ensures { (result ≡ pushed self) × (receive.new ≡ pushed_word from self word receive.old) }
    {
        let at = ((self.place + self.length) % QUEUE_SIZE) as usize;
        receive[from + at] = word;
        Queue {
            place: self.place,
            length: self.length + 1,
        }
    }

    // The oldest entry, and the queue without it.
    pub fn remove(self, receive: &[u32], from: usize) -> Removal
        requires { (self.place < queue_size) × (from + queue_size ≤ length receive.now) }
        ensures { (result.word ≡ oldest from self receive.now) × (result.queue ≡ removed self) }
    {
        if self.length == 0 {
            return Removal {
                word: 0,
                queue: self,
            };
        }
        let at = self.place as usize;
        Removal {
            word: receive[from + at],
            queue: Queue {
                place: (self.place + 1) % QUEUE_SIZE,
                length: self.length - 1,
            },
        }
    }
}
