ghost use Rattle.std.specs.Prelude.{◌≡◌};
ghost use Rattle.std.specs.Option.{option_map};
ghost use Rattle.mlan.specs.Frame.{framing_of};
ghost use Rattle.replies.specs.Replies.{is_setting, received, as_short, judged, understood};
ghost use Rattle.replies.specs.Meaning.{telling, frame_told};

use super::read::{length_fault, read_data};
use super::reply::{Asked, Reply};
use faults::{BurstFault, MessageFault};
use mlan::checksum::sound;
use mlan::frame::Frame;

// The codes that set something; their reply is ACK.
fn is_setting(code: u8) -> bool
    ensures { result ≡ is_setting code }
{
    matches!(code, 19 | 70 | 86 | 88 | 90)
}

// What the line gave, as the frame of a sound burst.
pub fn received(taken: Option<&[u8]>) -> Result<Frame<'_>, BurstFault>
    ensures { frame_told result ≡ received (option_map (λ x. x.now) taken.entry) }
{
    let burst = taken.ok_or(BurstFault::Nothing)?;
    let length = burst.len();
    let frame = Frame::split(burst).ok_or(BurstFault::Short { length })?;
    if !sound(burst) {
        return Err(BurstFault::Unsound { at: length - 1 });
    }
    Ok(frame)
}

// A reply of code 48: ACK or NAK.
fn read_short(asked: Asked, bytes: &[u8]) -> Result<Reply<'_>, MessageFault>
    ensures { telling result ≡ as_short asked bytes.now }
{
    match bytes {
        [21] => Err(MessageFault::Nak),
        [6] if is_setting(asked.code) => Ok(Reply::Ack),
        [6] => Err(MessageFault::OtherCode),
        [_] => Err(MessageFault::Malformed { at: 2 }),
        _ => Err(length_fault(bytes)),
    }
}

fn judge(asked: Asked, frame: Frame<'_>) -> Result<Reply<'_>, MessageFault>
    ensures { telling result ≡ judged asked (framing_of frame.entry) }
{
    if frame.address != asked.address {
        return Err(MessageFault::OtherAddress);
    }
    if frame.code == 48 {
        return read_short(asked, frame.inner.bytes);
    }
    if is_setting(asked.code) || frame.code != asked.code {
        return Err(MessageFault::OtherCode);
    }
    read_data(frame.code, frame.inner.bytes)
}

// What the line gave, as the reply to a question.
pub fn understood(asked: Asked, taken: Option<&[u8]>) -> Result<Reply<'_>, MessageFault>
    ensures { telling result ≡ understood asked (option_map (λ x. x.now) taken.entry) }
{
    let frame = received(taken)?;
    judge(asked, frame)
}
