// 17: every byte in a word.

// Whether a middle word with this byte is built.
fn is_built(b: u8) -> bool {
    let mut out = [0u8; 128];
    let words = [b'a', 10, b'b', b, 10, b'c', 10];
    build::build::build_index(9, &words, &[1, 1, 1], &[1, 2, 3], &mut out).is_ok()
}

// Of all 256 bytes, those that a word may have.
pub fn every_byte() {
    for b in 0..=255u8 {
        if is_built(b) {
            io::write_all(1, &[b]);
        }
    }
}
