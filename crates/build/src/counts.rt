// The counts of records, one for each word.
ghost use Rattle.std.specs.Prelude.{◌≡◌};
ghost use Rattle.build.specs.Build.{count_fault};

// Reference 9.1, row 18: the first bad count, or the word count.
pub fn check_counts(counts: &[u32], total: usize, words: usize) -> Option<usize>
    ensures { result ≡ count_fault counts.now total words }
{
    let mut left = total;
    for i in 0..words {
        if counts.len() <= i {
            return Some(i);
        }
        let count = counts[i] as usize;
        if count == 0 || left < count {
            return Some(i);
        }
        left -= count;
    }
    if words < counts.len() || 0 < left {
        return Some(words);
    }
    None
}
