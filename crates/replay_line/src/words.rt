// The words of a text, one after another.
ghost use Rattle.std.specs.Prelude.{◌≡◌, ◌≤◌, ◌==◌, length, drop, not};
ghost use Rattle.std.specs.List.{prefix_len};
ghost use Rattle.replay_line.specs.LineWords.{space, words, no_word};
ghost use Rattle.replay_line.specs.LineContracts.{word_and_rest};

const SPACE: u8 = b' ';

// The number of spaces at the front of a text. One function for this and for `word_len`, given the test, would be no plainer: each is one line, and its contract would have to say what a call of the test gives.
fn space_len(text: &[u8]) -> usize
    ensures spaces { result ≡ prefix_len (λ c. c == space) text.now }
    ensures within { result ≤ length text.now }
{
    text.iter().take_while(|c| **c == SPACE).count()
}

// A text from its first word on.
fn skip_spaces(text: &[u8]) -> &[u8]
    ensures { result.now ≡ drop (prefix_len (λ c. c == space) text.now) text.now }
{
    &text[space_len(text)..]
}

// The length of the word at the front of a text.
fn word_len(text: &[u8]) -> usize
    ensures word { result ≡ prefix_len (λ c. not (c == space)) text.now }
    ensures within { result ≤ length text.now }
{
    text.iter().take_while(|c| **c != SPACE).count()
}

// The first word of a text, and the text after it.
#[tactic(auto, using(crate::proofs::LineWordsLaws::no_words, crate::proofs::LineWordsLaws::first_word))]
pub fn next_word(text: &[u8]) -> Option<(&[u8], &[u8])>
    ensures word { word_and_rest result ≡ words text.now }
{
    let text = skip_spaces(text);
    if text.is_empty() {
        return None;
    }
    Some(text.split_at(word_len(text)))
}

// Whether no word is left in a text.
pub fn is_end(text: &[u8]) -> bool
    ensures end { result ≡ no_word (words text.now) }
{
    next_word(text).is_none()
}
