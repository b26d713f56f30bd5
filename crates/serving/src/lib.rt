// The machine end's one call: a burst that travels down is shown to a drop, and the reply
// goes up.
#![tactic(auto)]

ghost use Rattle.std.specs.Prelude.{◌≡◌, ℕ, List, [], length, Option, IfOk, IfErr, is_ok, nat_le, unwrap_or};
ghost use Rattle.mlan.specs.Checksum.{padded};
ghost use Rattle.serving.specs.Serving.{Served, carried_reply, carried_shown};

use cable::Way;
use cable::buffer::{BufferRefusal, fill};
use cable::line::{Line, taken};
use cable::pair::Pair;
use mlan::burst::Burst;
use segment::segment::Segment;

// What a serving took from the line, and the reply that it put.
#[derive(Clone, Copy, Debug, PartialEq, Eq)]
pub struct Exchange {
    pub taken: Option<Burst>,
    pub reply: Option<Burst>,
}

// Takes one burst that travels down, shows it to the drop, and puts the reply, if any, on the
// line upward.
pub fn exchanged<L: Line, D: Segment>(line: &mut L, machines: &mut D) -> Exchange
    ensures { Served L.Line.moves line.old line.new (D.Segment.machines machines.old) (D.Segment.machines machines.new) result.taken result.reply }
{
    let taken = taken(line, Way::Down);
    // a match, since a closure that shows the burst would leave nothing known of the machines
    let reply = match taken {
        Some(burst) => machines.show(burst.as_slice()).reply(),
        None => None,
    };
    if let Some(reply) = reply {
        line.put(Way::Up, reply.as_slice());
    }
    Exchange { taken, reply }
}

// The same, with the reply, and zeros to its end, in the caller's buffer; answers the reply's
// length, by the rule of serving 0 where there is none (docs/PROTOCOL.md, Serving). A buffer that
// is too short is refused before the line is touched.
pub fn serve<L: Line, D: Segment>(
    line: &mut L,
    machines: &mut D,
    buffer: &mut [u8],
) -> Result<usize, BufferRefusal>
    ensures answer { is_ok result ≡ nat_le 64 (length buffer.old) }
    ensures served { IfOk result (λ n. (taken : Option (List ℕ)) × (reply : Option (List ℕ))
        × (n ≡ length (unwrap_or reply [])) × (buffer.new ≡ padded (length buffer.old) (unwrap_or reply []))
        × Served L.Line.moves line.old line.new (D.Segment.machines machines.old) (D.Segment.machines machines.new) taken reply) }
    ensures refused { IfErr result (λ f. (f ≡ BufferRefusal.ShortBuffer) × (buffer.new ≡ buffer.old) × (line.new ≡ line.old) × (machines.new ≡ machines.old)) }
{
    if buffer.len() < 64 {
        return Err(BufferRefusal::ShortBuffer);
    }
    let done = exchanged(line, machines);
    fill(buffer, done.reply)
}

// Carries a burst over a pair of its own: it is put down, served, and the reply is taken.
pub fn over_pair<D: Segment>(machines: &mut D, burst: &[u8]) -> Option<Burst>
    ensures reply { result ≡ carried_reply burst.now (D.Segment.machines machines.old) }
    ensures machines { D.Segment.machines machines.new ≡ carried_shown burst.now (D.Segment.machines machines.old) }
{
    let mut line = Pair::new();
    let mut buffer = [0; 64];
    line.put(Way::Down, burst);
    let _ = serve(&mut line, machines, &mut buffer);
    taken(&mut line, Way::Up)
}
