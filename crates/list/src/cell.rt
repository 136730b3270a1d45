// Cells in bytes. Reference 4.1.
ghost use Rattle.std.specs.Prelude.{◌≡◌, ◌+◌, ◌*◌, ◌≤◌, length, get_or};
ghost use Rattle.list.specs.Cell.{cell_at, numbers_in};

// The cell that stands at byte `at`.
pub fn cell_at(bytes: &[u8], at: usize) -> u32
    requires { at + 4 ≤ length bytes.now }
    ensures { result ≡ cell_at bytes.now at }
{
    u32::from_le_bytes([bytes[at], bytes[at + 1], bytes[at + 2], bytes[at + 3]])
}

// Number i of a region of whole cells.
pub fn number_at(region: &[u8], i: usize) -> u32
    requires { 4 * i + 4 ≤ length region.now }
    ensures { result ≡ get_or (numbers_in region.now) i 0 }
{
    cell_at(region, 4 * i)
}
