//! The words that name bases.
ghost use Rattle.std.specs.Prelude.{◌≡◌, codes};
ghost use Rattle.std.specs.Str.{bytes_eq};
ghost use Rattle.type_text.specs.TypeText.{word_of, base_of, plain_bases};

use crate::Base;

/// The base that this word names alone. None for PTR_STRUCT and every other word.
#[tactic(auto, unfolding(crate::specs::TypeText::base_of))]
pub fn base_named(word: &[u8]) -> Option<Base>
    ensures { result ≡ base_of word.now }
{
    plain_bases()
        .into_iter()
        .find(|base| base_word(base) == word)
}

/// The bases that a word names alone.
#[tactic(auto, unfolding(crate::specs::TypeText::plain_bases))]
fn plain_bases() -> [Base; 15]
    ensures { result ≡ plain_bases }
{
    [
        Base::Int1S,
        Base::Int1U,
        Base::Int2S,
        Base::Int2U,
        Base::Int4S,
        Base::Int4U,
        Base::Int8S,
        Base::Int8U,
        Base::Real4,
        Base::Real8,
        Base::Complex8,
        Base::Complex16,
        Base::Char,
        Base::CharU,
        Base::Str,
    ]
}

/// Whether the word is PTR_STRUCT.
pub fn is_pointer_word(word: &[u8]) -> bool
    ensures { result ≡ bytes_eq word.now (codes "PTR_STRUCT") }
{
    word == b"PTR_STRUCT".as_slice()
}

/// The word of a base in a type text.
pub fn base_word(base: &Base) -> &'static [u8]
    ensures { result.now ≡ word_of base.now }
{
    match base {
        Base::Int1S => b"INT_1S",
        Base::Int1U => b"INT_1U",
        Base::Int2S => b"INT_2S",
        Base::Int2U => b"INT_2U",
        Base::Int4S => b"INT_4S",
        Base::Int4U => b"INT_4U",
        Base::Int8S => b"INT_8S",
        Base::Int8U => b"INT_8U",
        Base::Real4 => b"REAL_4",
        Base::Real8 => b"REAL_8",
        Base::Complex8 => b"COMPLEX_8",
        Base::Complex16 => b"COMPLEX_16",
        Base::Char => b"CHAR",
        Base::CharU => b"CHAR_U",
        Base::Str => b"STRING",
        Base::Ptr { .. } => b"PTR_STRUCT",
    }
}
