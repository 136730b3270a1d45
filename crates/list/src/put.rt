// One interval more of a list that is being counted, or written.
ghost use Rattle.std.specs.Prelude.{◌≡◌, true, cond, ◌+◌, ◌≤◌, length, set};

// Writes l and u from cell k on, where the list is written and not only counted.
pub fn put_interval(out: &mut [u32], writing: bool, k: usize, l: u32, u: u32)
    requires { writing ≡ true → k + 2 ≤ length out.old }
    ensures { out.new ≡ cond writing (set (set out.old k l) (k + 1) u) out.old }
{
    if writing {
        out[k] = l;
        out[k + 1] = u;
    }
}
