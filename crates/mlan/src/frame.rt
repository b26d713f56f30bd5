ghost use Rattle.std.specs.Prelude.{◌≡◌};
ghost use Rattle.mlan.specs.Frame.{framing, framed};

// A part of a burst that is handed on: its bytes, and the number of the first
// one in the burst, counted from 0.
#[derive(Clone, Copy, Debug, PartialEq, Eq)]
pub struct Part<'a> {
    pub at: usize,
    pub bytes: &'a [u8],
}

// The four parts of a burst.
#[derive(Clone, Copy, Debug, PartialEq, Eq)]
pub struct Frame<'a> {
    pub address: u8,
    pub code: u8,
    pub inner: Part<'a>,
    pub check: u8,
}

impl Frame<'_> {
    // Takes a burst apart; fewer than three bytes have no frame.
    pub fn split(burst: &[u8]) -> Option<Frame<'_>>
        ensures { framing result ≡ framed burst.now }
    {
        let [address, code, rest @ ..] = burst else {
            return None;
        };
        let [bytes @ .., check] = rest else {
            return None;
        };
        Some(Frame {
            address: *address,
            code: *code,
            inner: Part { at: 2, bytes },
            check: *check,
        })
    }
}
