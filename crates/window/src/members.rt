// How many records a window has.
ghost use Rattle.std.specs.Prelude.{◌≡◌, ℕ, ◌*◌, ◌^◌, ◌<◌, length};
ghost use Rattle.window.specs.Window.{members_of};

// The number is the same whichever record base is its first bit.
pub fn count_members(ws: &[u64]) -> usize
    requires { 64 * length ws.now < 2 ^ 64 }
    ensures { (base : ℕ) → result ≡ length (members_of ws.now base) }
{
    let mut n: usize = 0;
    for &w in ws {
        n += u64::count_ones(w) as usize;
    }
    n
}
