//! A type of a text, by the grammar in `specs/TypeText.antt`.
ghost use Rattle.std.specs.Prelude.{◌≡◌, ◌↔◌, true, Some, IfOk};
ghost use Rattle.std.specs.Option.{option_map};
ghost use Rattle.type_text.specs.Tokens.{tokens, is_mark};
ghost use Rattle.type_text.specs.TypeText.{type_of, IsTypeText, pointed_of, dims_of, dim_of};
ghost use Rattle.type_text.specs.Steps.{word_before, bracketed_of, parenthesized_of, pointer_base, type_of_base};
ghost use Rattle.type_text.specs.declared.types.ElementType.{ElementType};

use crate::base_words::{base_named, is_pointer_word};
use crate::lengths::{TEXT_LIMIT, printed_fits};
use crate::numerals::{is_name, numeral};
use crate::scanning::{is_end, mark_at, word_at};
use crate::{Base, Dim, DimList, ElementType, Name};
use std::alloc::{AllocError, Global};

/// The type that the text reads as. None exactly where the text is no type by the grammar, so a text has at most one
/// type.
pub fn parse_type(alloc: Global, text: &[u8]) -> Result<Option<ElementType>, AllocError>
    ensures exact { IfOk result (λ found. found ≡ type_of text.now) }
    ensures grammar { IfOk result (λ found. (ty : ElementType) → (found ≡ Some ty) ↔ IsTypeText text.now ty) }
{
    read(alloc, text)
}

fn read(alloc: Global, text: &[u8]) -> Result<Option<ElementType>, AllocError>
    ensures { IfOk result (λ found. found ≡ type_of text.now) }
{
    if text.len() > TEXT_LIMIT {
        return Ok(None);
    }
    let Some((word, rest)) = word_at(text) else {
        return Ok(None);
    };
    if is_pointer_word(word) {
        return pointer(alloc, rest);
    }
    match base_named(word) {
        Some(base) => with_dims(alloc, base, rest),
        None => Ok(None),
    }
}

/// The type of what stands after PTR_STRUCT.
fn pointer(alloc: Global, text: &[u8]) -> Result<Option<ElementType>, AllocError>
    ensures { IfOk result (λ found. found ≡ type_of_base (pointer_base (pointed_of (tokens text.now)))) }
{
    let Some((name, rest)) = pointed(text) else {
        return Ok(None);
    };
    let to = Name::new(alloc, name)?;
    with_dims(alloc, Base::Ptr { to }, rest)
}

/// The type of a base and the dimensions that make up the whole text behind it, where its printed text is not too long.
fn with_dims(alloc: Global, base: Base, text: &[u8]) -> Result<Option<ElementType>, AllocError>
    ensures { IfOk result (λ found. found ≡ type_of_base (Some (base, tokens text.now))) }
{
    let Some(dims) = dims(alloc, text)? else {
        return Ok(None);
    };
    let ty = ElementType { base, dims };
    if printed_fits(&ty) {
        Ok(Some(ty))
    } else {
        Ok(None)
    }
}

/// The name before a star in parentheses at the front, and the text after it.
#[tactic(auto, using(crate::proofs::GrammarLemmas::pointers))]
fn pointed(text: &[u8]) -> Option<(&[u8], &[u8])>
    ensures { option_map (λ found. (found.0.now, tokens found.1.now)) result ≡ pointed_of (tokens text.now) }
{
    let (word, rest) = parenthesized(text)?;
    if !is_name(word) {
        return None;
    }
    Some((word, rest))
}

/// The word before a star in parentheses at the front, and the text after it.
fn parenthesized(text: &[u8]) -> Option<(&[u8], &[u8])>
    ensures { option_map (λ found. (found.0.now, tokens found.1.now)) result ≡ parenthesized_of (tokens text.now) }
{
    let inside = mark_at(text, b'(')?;
    let (word, rest) = word_before(inside, b'*')?;
    let rest = mark_at(rest, b')')?;
    Some((word, rest))
}

/// The dimensions that make up the whole text.
#[tactic(auto, using(crate::proofs::ParsingLemmas::dimensions, crate::proofs::GrammarLemmas::shorter))]
fn dims(alloc: Global, text: &[u8]) -> Result<Option<DimList>, AllocError>
    ensures { IfOk result (λ dims. dims ≡ dims_of (tokens text.now)) }
{
    let mut dims = DimList::new(alloc);
    let mut rest = text;
    while !is_end(rest) {
        let Some((word, after)) = bracketed(rest) else {
            return Ok(None);
        };
        let Some(dim) = dim(alloc, word)? else {
            return Ok(None);
        };
        dims.push(dim)?;
        rest = after;
    }
    Ok(Some(dims))
}

/// The word in brackets at the front, and the text after it.
fn bracketed(text: &[u8]) -> Option<(&[u8], &[u8])>
    ensures { option_map (λ found. (found.0.now, tokens found.1.now)) result ≡ bracketed_of (tokens text.now) }
{
    let inside = mark_at(text, b'[')?;
    word_before(inside, b']')
}

/// The word at the front, and the text after the mark right behind it.
fn word_before(text: &[u8], mark: u8) -> Option<(&[u8], &[u8])>
    requires { is_mark mark ≡ true }
    ensures { option_map (λ found. (found.0.now, tokens found.1.now)) result ≡ word_before mark (tokens text.now) }
{
    let (word, rest) = word_at(text)?;
    let rest = mark_at(rest, mark)?;
    Some((word, rest))
}

/// The dimension of the word between brackets.
fn dim(alloc: Global, word: &[u8]) -> Result<Option<Dim>, AllocError>
    ensures { IfOk result (λ dim. dim ≡ dim_of word.now) }
{
    if is_name(word) {
        return Ok(Some(Dim::Named(Name::new(alloc, word)?)));
    }
    Ok(numeral(word).map(Dim::Numeral))
}
