// The words of a line.
ghost use Rattle.std.specs.Prelude.{◌≡◌, ◌<◌, ◌≤◌, ◌==◌, ◌∷◌, [], not, length, IfSome, IsNone, IsTrue, ◌↔◌};
ghost use Rattle.std.specs.List.{take_while};
ghost use Rattle.kc_addresses.specs.Words.{is_blank as is_space_or_tab, is_over as has_no_word, before_comment as without_comment, without_blanks as unindented, first_word, behind_word, words_in, words_with};

use kc_base::{after, prefix};

fn is_blank(c: u8) -> bool
    ensures { result ≡ is_space_or_tab c }
{
    c == b' ' || c == b'\t'
}

// How many characters stand before the first `;`.
fn comment_place(line: &[u8]) -> usize
    ensures value { result ≡ length (take_while (λ c. not (c == 59)) line.now) }
    ensures within { result ≤ length line.now }
{
    line.iter().take_while(|c| **c != b';').count()
}

/// What stands in a line before its first `;`.
pub fn before_comment(line: &[u8]) -> &[u8]
    ensures { result.now ≡ without_comment line.now }
{
    prefix(line, comment_place(line))
}

// How many blanks stand at the beginning.
fn blank_count(text: &[u8]) -> usize
    ensures value { result ≡ length (take_while is_space_or_tab text.now) }
    ensures within { result ≤ length text.now }
{
    text.iter().take_while(|c| is_blank(**c)).count()
}

// How long the word at the beginning is.
fn word_len(text: &[u8]) -> usize
    ensures value { result ≡ length (take_while (λ c. not (is_space_or_tab c)) text.now) }
    ensures within { result ≤ length text.now }
{
    text.iter().take_while(|c| !is_blank(**c)).count()
}

// The text without the blanks at its beginning.
fn without_blanks(text: &[u8]) -> &[u8]
    ensures { result.now ≡ unindented text.now }
{
    after(text, blank_count(text))
}

/// The first word of a text, and what stands behind it; where there is no word, both are empty. Spaces and tabs stand between words.
pub fn cut(text: &[u8]) -> (&[u8], &[u8])
    ensures word { result.0.now ≡ first_word text.now }
    ensures rest { result.1.now ≡ behind_word text.now }
    ensures words { words_in text.now ≡ words_with result.0.now result.1.now }
    ensures shorter { 0 < length result.0.now → length result.1.now < length text.now }
{
    let text = without_blanks(text);
    let len = word_len(text);
    (prefix(text, len), after(text, len))
}

/// The first word of a text, and what stands behind it; `None` where there is no word.
#[tactic(auto, using(crate::proofs::WordLemmas::words_with_some, crate::proofs::WordLemmas::words_with_none))]
pub fn next_word(text: &[u8]) -> Option<(&[u8], &[u8])>
    ensures some { IfSome result (λ p. words_in text.now ≡ p.0.now ∷ words_in p.1.now) }
    ensures shorter { IfSome result (λ p. length p.1.now < length text.now) }
    ensures none { IsNone result → words_in text.now ≡ [] }
{
    let (word, rest) = cut(text);
    if word.is_empty() {
        None
    } else {
        Some((word, rest))
    }
}

/// Whether a text has no word.
pub fn is_over(text: &[u8]) -> bool
    ensures first { result ≡ has_no_word text.now }
    ensures words { IsTrue result ↔ (words_in text.now ≡ []) }
{
    cut(text).0.is_empty()
}
