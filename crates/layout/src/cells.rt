// Cells as bytes. Reference 4.1.
ghost use Rattle.std.specs.Prelude.{◌≡◌, [], ◌∷◌, ◌+◌, ◌≤◌, length};
ghost use Rattle.std.proofs.lemmas.List.Edits.{sets};
ghost use Rattle.layout.specs.Layout.{cell_bytes, cells_bytes};

// Writes a cell from byte `at` on.
pub fn put_cell(out: &mut [u8], at: usize, x: u32)
    requires { at + 4 ≤ length out.old }
    ensures { out.new ≡ sets out.old at (cell_bytes x) }
{
    out[at..at + 4].copy_from_slice(&x.to_le_bytes());
}

// Writes five cells: an entry, or the trailer.
pub fn put_five(out: &mut [u8], at: usize, a: u32, b: u32, c: u32, d: u32, e: u32)
    requires { at + 20 ≤ length out.old }
    ensures { out.new ≡ sets out.old at (cells_bytes (a ∷ b ∷ c ∷ d ∷ e ∷ [])) }
{
    put_cell(out, at, a);
    put_cell(out, at + 4, b);
    put_cell(out, at + 8, c);
    put_cell(out, at + 12, d);
    put_cell(out, at + 16, e);
}
