//! Words of a line, which one or more spaces part.

ghost use Rattle.std.specs.Prelude.{◌≡◌, ◌==◌, ◌≤◌, ◌∷◌, [], MatchOption, length};
ghost use Rattle.std.specs.List.{position_or_len, prefix_len, suffix_len};
ghost use Rattle.restrictions.specs.Words.{after_spaces, after_word, is_space, rest_end, words_of};

// A word in front of a text, and what is behind it.
#[derive(Clone, Copy)]
pub(crate) struct FirstWord<'a> {
    pub(crate) word: &'a [u8],
    pub(crate) rest: &'a [u8],
}

// The first word of a text.
pub(crate) fn first_word<'a>(text: &'a [u8]) -> Option<FirstWord<'a>>
    ensures words { MatchOption result (words_of text.now ≡ [])
        (λ first. words_of text.now ≡ first.word.now ∷ words_of first.rest.now) }
    ensures rest { MatchOption result (after_spaces text.now ≡ [])
        (λ first. first.rest.now ≡ after_word (after_spaces text.now)) }
{
    let text = after_spaces(text);
    if text.is_empty() {
        return None;
    }
    let end = len_before(text, b' ');
    Some(FirstWord {
        word: &text[..end],
        rest: &text[end..],
    })
}

// The text behind the spaces in front.
pub(crate) fn after_spaces(text: &[u8]) -> &[u8]
    ensures { result.now ≡ after_spaces text.now }
{
    &text[spaces_len(text)..]
}

// How many spaces are in front.
fn spaces_len(text: &[u8]) -> usize
    ensures spaces { result ≡ prefix_len is_space text.now }
    ensures bound { result ≤ length text.now }
{
    let mut len = 0;
    while len < text.len() && text[len] == b' ' {
        len += 1;
    }
    len
}

// How many bytes are in front of the first `stop`; all, where there is none.
pub(crate) fn len_before(text: &[u8], stop: u8) -> usize
    ensures before { result ≡ position_or_len (λ b. b == stop) text.now }
    ensures bound { result ≤ length text.now }
{
    let mut len = 0;
    while len < text.len() && text[len] != stop {
        len += 1;
    }
    len
}

// Where the spaces at the end of a line begin.
pub(crate) fn rest_end(line: &[u8]) -> usize
    ensures { result ≡ rest_end line.now }
{
    let mut end = line.len();
    while end > 0 && line[end - 1] == b' ' {
        end -= 1;
    }
    end
}
