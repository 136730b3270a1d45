// 17: the 65,536th word, behind as many words as there may be.
ghost use Rattle.std.specs.Prelude.{◌≡◌, length};

use crate::outcome::{BEFORE, print_outcome};
use script::number::{number32, read_numbers, within};
use script::output::Printed;
use script::part::field;
use std::fmt::Write;

// A digit of i, as a letter.
fn letter(i: usize) -> u8 {
    97 + (i % 16) as u8
}

// The byte at a place of ascending words of four letters, each ended by byte 10.
fn word_byte(at: usize) -> u8 {
    let word = at / 5;
    match at % 5 {
        0 => letter(word / 4096),
        1 => letter(word / 256),
        2 => letter(word / 16),
        3 => letter(word),
        _ => 10,
    }
}

fn fill_words(words: &mut [u8]) {
    for (at, byte) in words.iter_mut().enumerate() {
        *byte = word_byte(at);
    }
}

fn spoil_word(words: &mut [u8], word: u32) {
    let at = 5 * word as usize;
    if at < words.len() {
        words[at] = b'-';
    }
}

// Puts a bad byte into each of the words.
fn spoil(words: &mut [u8], bad: &[u32]) {
    for &word in bad {
        spoil_word(words, word);
    }
}

// Room for one word more than there may be.
fn word_bytes() -> [u8; 327_680]
    ensures { 327680 ≡ length result }
{
    [0; 327_680]
}

// As many counts of 1, or records 1.
fn ones() -> [u32; 65_536]
    ensures { 65536 ≡ length result }
{
    [1; 65_536]
}

fn build_many(out: &mut impl Write, line: &[u8], words: &[u8], ones: &[u32]) -> Printed {
    let mut byte = [BEFORE];
    let n = number32(field(line, 1));
    let size = within(field(line, 2), words.len());
    let count = within(field(line, 3), ones.len());
    let total = within(field(line, 4), ones.len());
    let answer = build::build::build_index(
        n,
        &words[..size],
        &ones[..count],
        &ones[..total],
        &mut byte,
    );
    print_outcome(out, answer, &byte)
}

pub fn many(out: &mut impl Write, line: &[u8]) -> Printed {
    let mut words = word_bytes();
    let mut bad = [0u32; 8];
    let n = read_numbers(field(line, 5), &mut bad);
    fill_words(&mut words);
    spoil(&mut words, &bad[..n]);
    build_many(out, line, &words, &ones())
}
