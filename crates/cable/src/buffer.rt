ghost use Rattle.std.specs.Prelude.{◌≡◌, [], length, if◌then◌else◌, Ok, Err, nat_le, unwrap_or};
ghost use Rattle.mlan.specs.Checksum.{padded};
ghost use Rattle.cable.specs.Buffers.{refusal_number};

use mlan::burst::Burst;

// Why a caller's buffer is refused.
#[derive(Clone, Copy, Debug, PartialEq, Eq)]
pub enum BufferRefusal {
    // fewer than 64 bytes, which could not hold every burst
    ShortBuffer = 1,
}

impl BufferRefusal {
    pub fn number(self) -> u8
        ensures { result ≡ refusal_number self }
    {
        self as u8
    }
}

// Writes a burst, or nothing, into a caller's buffer, and zeros to its end; answers the burst's
// length. By the rule of serving that is 0 for nothing (docs/PROTOCOL.md, Serving). A buffer
// that could not hold every burst is refused, and stays as it was.
pub fn fill(buffer: &mut [u8], burst: Option<Burst>) -> Result<usize, BufferRefusal>
    ensures answer { result ≡ (if nat_le 64 (length buffer.old) then Ok (length (unwrap_or burst [])) else Err BufferRefusal.ShortBuffer) }
    ensures buffer { buffer.new ≡ (if nat_le 64 (length buffer.old) then padded (length buffer.old) (unwrap_or burst []) else buffer.old) }
{
    if buffer.len() < 64 {
        return Err(BufferRefusal::ShortBuffer);
    }
    let bytes = burst.as_ref().map_or(&[][..], Burst::as_slice);
    buffer.fill(0);
    buffer[..bytes.len()].copy_from_slice(bytes);
    Ok(bytes.len())
}
