// A word's bytes into a slice, the highest first.
ghost use Rattle.std.specs.Prelude.{◌≡◌, ◌+◌, ◌-◌, ◌<◌, ◌≤◌, length};
ghost use Rattle.bitmap.specs.Steps.{byte_at, Puts};

fn byte(bits: u64, j: usize) -> u8
    requires { j < 8 }
    ensures { result ≡ byte_at bits j }
{
    ((bits >> (56 - 8 * j)) % 256) as u8
}

// All eight. Written so, they become one store of a swapped word.
pub(crate) fn eight(out: &mut [u8], i: usize, bits: u64)
    requires { i + 8 ≤ length out.old }
    ensures { Puts 8 i bits out.old out.new }
{
    out[i] = byte(bits, 0);
    out[i + 1] = byte(bits, 1);
    out[i + 2] = byte(bits, 2);
    out[i + 3] = byte(bits, 3);
    out[i + 4] = byte(bits, 4);
    out[i + 5] = byte(bits, 5);
    out[i + 6] = byte(bits, 6);
    out[i + 7] = byte(bits, 7);
}

// As many as there are places, which are fewer than nine.
pub(crate) fn rest(out: &mut [u8], i: usize, bits: u64)
    requires { (i ≤ length out.old) × (length out.old ≤ i + 8) }
    ensures { Puts (length out.old - i) i bits out.old out.new }
{
    let mut j: usize = 0;
    while i + j < out.len() {
        out[i + j] = byte(bits, j);
        j += 1;
    }
}
