ghost use Rattle.std.specs.Prelude.{◌≡◌, slice_index, slice_set};

use std::mem;

// Puts a byte at a place and answers the one that stood there. Past the end nothing is put, and 0 is answered.
pub(crate) fn replace(bytes: &mut [u8], at: usize, byte: u8) -> u8
    ensures put { bytes.new ≡ slice_set bytes.old at byte }
    ensures was { result ≡ slice_index bytes.old at }
{
    if at < bytes.len() {
        mem::replace(&mut bytes[at], byte)
    } else {
        0
    }
}

// Seats of which one was changed. The old byte is put back when they are let go.
pub(crate) struct Moved<'a> {
    pub(crate) seats: &'a mut [u8],
    pub(crate) at: usize,
    pub(crate) old: u8,
}

impl Moved<'_> {
    // The seats as they are while one is changed.
    pub(crate) fn bytes(&self) -> &[u8]
        ensures { result.now ≡ self.entry.now.seats.now }
    {
        self.seats
    }
}

impl Drop for Moved<'_> {
    fn drop(self)
        ensures { self.exit.0.now ≡ slice_set self.entry.seats.now self.entry.at self.entry.old }
    {
        let Moved { seats, at, old } = self;
        let _ = replace(seats, at, old);
    }
}
