//! The tokens at the front of a text, with blanks passed over.
ghost use Rattle.std.specs.Prelude.{◌≡◌, ℕ, ◌<◌, ◌≤◌, true, false, length, drop, slice_index};
ghost use Rattle.std.specs.Option.{option_map};
ghost use Rattle.type_text.specs.Tokens.{tokens, is_blank, is_word_byte, is_mark, begins_word};
ghost use Rattle.type_text.specs.Steps.{first_word, after_mark, no_token, begins_blank};

/// The word at the front, and the text after it. None where another token or the end stands there.
#[tactic(auto, using(crate::proofs::TokenLemmas::words))]
pub fn word_at(text: &[u8]) -> Option<(&[u8], &[u8])>
    ensures { option_map (λ found. (found.0.now, tokens found.1.now)) result ≡ first_word (tokens text.now) }
{
    let text = skip_blanks(text);
    let end = word_length(text);
    if end == 0 {
        return None;
    }
    Some((&text[..end], &text[end..]))
}

/// The text after the mark at the front. None where another token or the end stands there.
#[tactic(auto, using(crate::proofs::TokenLemmas::marks))]
pub fn mark_at(text: &[u8], mark: u8) -> Option<&[u8]>
    requires { is_mark mark ≡ true }
    ensures { option_map (λ rest. tokens rest.now) result ≡ after_mark mark (tokens text.now) }
{
    let text = skip_blanks(text);
    if text.is_empty() {
        return None;
    }
    if text[0] != mark {
        return None;
    }
    Some(&text[1..])
}

/// Whether no token is left.
#[tactic(auto, using(crate::proofs::TokenLemmas::ends))]
pub fn is_end(text: &[u8]) -> bool
    ensures { result ≡ no_token (tokens text.now) }
{
    skip_blanks(text).is_empty()
}

/// The text from its first token on.
#[tactic(auto, using(crate::proofs::TokenLemmas::skipping))]
fn skip_blanks(text: &[u8]) -> &[u8]
    ensures same { tokens result.now ≡ tokens text.now }
    ensures token_first { begins_blank result.now ≡ false }
{
    for (i, byte) in text.iter().enumerate() {
        if !is_blank(*byte) {
            return &text[i..];
        }
    }
    &[]
}

/// How many bytes of a word stand at the front.
fn word_length(text: &[u8]) -> usize
    ensures within { result ≤ length text.now }
    ensures run { (k : ℕ) → k < result → is_word_byte (slice_index text.now k) ≡ true }
    ensures longest { begins_word (drop result text.now) ≡ false }
{
    for (i, byte) in text.iter().enumerate() {
        if !is_word_byte(*byte) {
            return i;
        }
    }
    text.len()
}

fn is_blank(byte: u8) -> bool
    ensures { result ≡ is_blank byte }
{
    byte == b' ' || byte == b'\t'
}

fn is_word_byte(byte: u8) -> bool
    ensures { result ≡ is_word_byte byte }
{
    byte.is_ascii_alphanumeric() || byte == b'_'
}
