ghost use Rattle.std.specs.Prelude.{◌≡◌};
ghost use Rattle.serving.specs.Serving.{carried_reply, carried_shown};
ghost use Rattle.live_cable.specs.Cables.{live, moved};

use mlan::burst::Burst;
use rack::rack::Rack;
use serving::over_pair;

// Machines on a cable. Where `each` gives an amount, every machine runs a batch with it for
// each component before each burst, so that totals move.
#[derive(Drop)]
pub struct LiveCable {
    pub machines: Rack,
    pub each: Option<u32>,
}

impl LiveCable {
    // Serves one burst that arrived; the reply is to be sent at once.
    pub fn answer(&mut self, burst: &[u8]) -> Option<Burst>
        ensures reply { result ≡ carried_reply burst.now (moved self.old) }
        ensures machines { live self.new ≡ carried_shown burst.now (moved self.old) }
        ensures each { self.new.each ≡ self.old.each }
    {
        if let Some(amount) = self.each {
            self.machines.batch_evenly(amount);
        }
        over_pair(&mut self.machines, burst)
    }
}
