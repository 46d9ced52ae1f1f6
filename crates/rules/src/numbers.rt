// A reply's number and value.
ghost use Rattle.std.specs.Prelude.{◌≡◌};
ghost use Rattle.rules.specs.Replies.{reply_number, reply_value};

use crate::Reply;

impl Reply {
    // The column "No." of the reply table.
    pub fn number(self) -> u32
        ensures { result ≡ reply_number self }
    {
        match self {
            Reply::Done(_) => 0,
            Reply::Fault(_) => 9,
            Reply::Refused(why) => why as u32,
        }
    }

    // "Value is 0 except: a read's word, a sent length, a fault's status, a taken word 0."
    pub fn value(self) -> u32
        ensures { result ≡ reply_value self }
    {
        match self {
            Reply::Done(value) => value,
            Reply::Fault(status) => status,
            Reply::Refused(_) => 0,
        }
    }
}
