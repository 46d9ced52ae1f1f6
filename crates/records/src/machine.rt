// The machine that the records' calls are made of.
use rules::Saved;

// Lent for writing, since a record may ask for any call.
#[derive(Drop)]
pub struct Lent<'a> {
    pub saved: Saved,
    pub send: &'a mut [u32],
    pub receive: &'a mut [u32],
    pub bytes: &'a mut [u8],
    pub notices: &'a mut [u32],
}
