// Reference 9.1, row 17: the words that are lent.
ghost use Rattle.std.specs.Prelude.{◌≡◌, length};
ghost use Rattle.build.specs.Lent.{lent_words};
ghost use Rattle.build.specs.Build.{bad_words};
ghost use Rattle.build.specs.Passes.{words_answer};

use limits::WORDS_MAX;
use parts::part_end;
use refusal::Refusal;

// How many words there are, or the first bad one: one pass, with the word before.
pub fn check_words(words: &[u8]) -> Result<usize, Refusal>
    ensures { result ≡ words_answer (bad_words words.now) (length (lent_words words.now)) }
{
    let mut prior: &[u8] = &[];
    let mut start = 0;
    let mut count = 0;
    // no `for`: the place moves past the word found, not by one
    while start < words.len() {
        let end = part_end(words, start, b'\n');
        if end == words.len() || count == WORDS_MAX {
            return Err(Refusal::BuildWord(count));
        }
        let word = &words[start..end];
        if !index::check::word_good(prior, word, true) {
            return Err(Refusal::BuildWord(count));
        }
        prior = word;
        start = end + 1;
        count += 1;
    }
    Ok(count)
}
