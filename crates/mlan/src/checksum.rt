ghost use Rattle.std.specs.Prelude.{◌≡◌, ◌%◌, sum as listed};
ghost use Rattle.mlan.specs.Checksum.{is_sound};

// The sum of every byte, zero bytes too, modulo 256.
pub fn sum_of(burst: &[u8]) -> u8
    ensures { result ≡ listed burst.now % 256 }
{
    let mut sum: u8 = 0;
    for byte in burst {
        sum = sum.wrapping_add(*byte);
    }
    sum
}

// Whether a burst came as it was sealed: with its checksum its bytes add up to 255.
pub fn sound(burst: &[u8]) -> bool
    ensures { result ≡ is_sound burst.now }
{
    burst.len() >= 3 && sum_of(burst) == 255
}
