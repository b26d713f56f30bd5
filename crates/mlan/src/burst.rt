ghost use Rattle.std.specs.Prelude.{◌≡◌, ◌≤◌, length, take, drop, if◌then◌else◌, true, Some, None};
ghost use Rattle.mlan.specs.Bursts.{is_burst};
ghost use Rattle.mlan.specs.Checksum.{padded};

use std::convert::AsSlice;
use std::marker::Model;

// A burst that is kept: 1 to 64 bytes that arrive together. In a contract it is the list of
// these bytes. The bytes behind them are zero. It has an array and a length, and no `ArrayVec`,
// to be `Copy`, as exchanges, replies and a carrier's slots want it.
#[derive(Clone, Copy, Debug, PartialEq, Eq)]
pub struct Burst {
    bytes: [u8; 64],
    len: usize,
}

impl Model for Burst {
    ghost use Rattle.std.specs.Prelude.{◌≡◌, ℕ, ◌≤◌, List, length, take};
    ghost use Rattle.std.proofs.Common.{sym, arith};
    ghost use Rattle.std.proofs.lemmas.List.{length-take-le};
    ghost use Rattle.mlan.specs.Checksum.{padded};

    ghost Value = { List ℕ };

    ghost view = { λ b. take b.len b.bytes };

    ghost invariant = { λ b. (1 ≤ b.len) × (b.len ≤ 64) × (length b.bytes ≡ 64) × (b.bytes ≡ padded 64 (take b.len b.bytes)) };

    ghost inverse = { λ v. record { bytes = padded 64 v; len = length v } };

    ghost inverse_ok = { λ b h i. record {
      bytes = sym h.3 i;
      len = length-take-le b.len b.bytes (omega (arith, h.1, h.2)) i;
    } };
}

impl Burst {
    // The burst of these bytes, if they are 1 to 64.
    pub fn new(from: &[u8]) -> Option<Burst>
        ensures { result ≡ (if is_burst from.now then Some from.now else None) }
    {
        let len = from.len();
        if len < 1 || len > 64 {
            return None;
        }
        let mut bytes = [0; 64];
        bytes[..len].copy_from_slice(from);
        Some(Burst { bytes, len })
    }

    pub fn as_slice(&self) -> &[u8]
        ensures bytes { result.now ≡ self.now }
        ensures from_one { 1 ≤ length result.now }
        ensures to_64 { length result.now ≤ 64 }
    {
        &self.bytes[..self.len]
    }

    // The burst, and zeros to the end of a whole buffer.
    pub fn padded(&self) -> [u8; 64]
        ensures { result ≡ padded 64 self.now }
    {
        self.bytes
    }

    // Writes the burst over the first bytes that are lent, and answers its length: what a line
    // does at a taking, which is lent 64 bytes by the rules of lines.
    pub fn write(&self, into: &mut [u8; 64]) -> usize
        ensures written { take result into.new ≡ self.now }
        ensures rest { drop result into.new ≡ drop result into.old }
        ensures fits { result ≤ 64 }
        ensures whole { is_burst self.now ≡ true }
    {
        let len = self.len;
        into[..len].copy_from_slice(self.as_slice());
        len
    }
}

// A burst is lent as the slice of its bytes wherever one is asked for.
impl AsSlice<u8> for Burst {
    ghost items = { λ b. b };

    fn as_slice(&self) -> &[u8] {
        Burst::as_slice(self)
    }
}
