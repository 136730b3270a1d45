// Bits set in a window, and a window made blank.
ghost use Rattle.std.specs.Prelude.{◌≡◌, ◌+◌, ◌*◌, ◌<◌, ◌≤◌, length, replicate};
ghost use Rattle.window.specs.Filled.{Filled};

// Sets bit a.
pub fn set_bit(ws: &mut [u64], a: u32)
    requires { a < 64 * length ws.old }
    ensures { Filled ws.old a (a + 1) ws.new }
{
    let i = (a / 64) as usize;
    ws[i] = ws[i] | (1u64 << (a % 64));
}

// Sets the bits from a to b, both of them too.
pub fn fill_range(ws: &mut [u64], a: u32, b: u32)
    requires order { a ≤ b }
    requires within { b < 64 * length ws.old }
    ensures { Filled ws.old a (b + 1) ws.new }
{
    let i = (a / 64) as usize;
    let j = (b / 64) as usize;
    let first = u64::MAX << (a % 64);
    let last = u64::MAX >> (63 - b % 64);
    if j <= i {
        ws[i] = ws[i] | (first & last);
        return;
    }
    ws[i] = ws[i] | first;
    ws[i + 1..j].fill(u64::MAX);
    ws[j] = ws[j] | last;
}

// Makes a window blank, as a fresh one is.
pub fn clear(ws: &mut [u64])
    ensures { ws.new ≡ replicate (length ws.old) 0 }
{
    ws.fill(0);
}
