// The saved state and the answer as words.
ghost use Rattle.std.specs.Prelude.{◌≡◌, length};
ghost use Rattle.boundary.specs.Boundary.{saved_size, lent_ok, saved_of, words_of, Writable, Ends};

use rules::{Answer, Queue, Refusal, Saved};

// A saved state has so many words.
pub const SAVED_WORDS: usize = 15;

// An answer has so many, and stands in the first of the lent ones.
pub const ANSWER_WORDS: usize = 3;

// "sizes", where these words are not lent.
pub(crate) const SIZES: u32 = Refusal::Sizes as u32;

// They are lent, by the two lengths.
pub(crate) fn lent_ok(saved: usize, answer: usize) -> bool
    ensures { result ≡ lent_ok saved answer }
{
    (saved == SAVED_WORDS) & (ANSWER_WORDS <= answer)
}

// The state that 15 words say. (No TryFrom, here and in `store`: of as many words as are asked for it can't fail.)
#[tactic(auto, unfolding(crate::specs::Boundary::saved_of))]
pub fn load(w: &[u32]) -> Saved
    requires { length w.now ≡ saved_size }
    ensures { result ≡ saved_of w.now }
{
    Saved {
        pcsr0: w[0],
        inthi: w[1],
        intlo: w[2],
        slots: w[3],
        taken: w[4],
        faulted: w[5],
        sendpointer: w[6],
        receivepointer: w[7],
        nqr: Queue {
            place: w[8],
            length: w[9],
        },
        aqr: Queue {
            place: w[10],
            length: w[11],
        },
        nbqr: Queue {
            place: w[12],
            length: w[13],
        },
        lastsender: w[14],
    }
}

// A state into 15 words.
#[tactic(auto, unfolding(crate::specs::Boundary::words_of))]
pub fn store(w: &mut [u32], s: Saved)
    requires { length w.old ≡ saved_size }
    ensures { w.new ≡ words_of s }
{
    w.copy_from_slice(&[
        s.pcsr0,
        s.inthi,
        s.intlo,
        s.slots,
        s.taken,
        s.faulted,
        s.sendpointer,
        s.receivepointer,
        s.nqr.place,
        s.nqr.length,
        s.aqr.place,
        s.aqr.length,
        s.nbqr.place,
        s.nbqr.length,
        s.lastsender,
    ]);
}

// The state and the answer go into the lent words; the reply's number. (Inlined: what is copied is then known to be so few words.)
#[inline]
pub(crate) fn finish(saved: &mut [u32], answer: &mut [u32], a: Answer) -> u32
    requires { Writable saved.old answer.old }
    ensures { Ends a answer.old result saved.new answer.new }
{
    store(saved, a.saved);
    let number = a.reply.number();
    words::copy(answer, 0, &[number, a.reply.value(), a.interrupts]);
    number
}
