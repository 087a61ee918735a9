//! The printed text of a type.
ghost use Rattle.std.specs.Prelude.{◌≡◌, ◌++◌, Some, IfOk, OnOk};
ghost use Rattle.type_text.specs.TypeText.{IsType, type_of, printed_type, base_text, dim_text};

use crate::base_words::base_word;
use crate::{Base, Dim, ElementType, Name};
use std::alloc::{AllocError, Global};

/// The printed text of a type: no blank but the one before a star, and no leading zeros.
///
/// A text must read as this type, as one of each type that `parse_type` gives does.
#[tactic(auto, using(crate::proofs::PrintedLemmas::reading))]
pub fn print_type(alloc: Global, ty: &ElementType) -> Result<Name, AllocError>
    requires { IsType ty.now }
    ensures printed_type { IfOk result (λ text. text ≡ printed_type ty.now) }

    // A printed text is a type, and reads as the type that it was printed from.
    ensures read_again { IfOk result (λ text. type_of text ≡ Some ty.now) }
{
    Ok(Name::from(printed_bytes(alloc, ty)?))
}

#[tactic(auto, unfolding(crate::specs::TypeText::printed_type))]
fn printed_bytes(alloc: Global, ty: &ElementType) -> Result<Vec<u8>, AllocError>
    ensures { IfOk result (λ text. text.items ≡ printed_type ty.now) }
{
    let mut text = Vec::new(alloc);
    push_base(&mut text, &ty.base)?;
    for dim in ty.dims.as_slice() {
        push_dim(alloc, &mut text, dim)?;
    }
    Ok(text)
}

fn push_base(text: &mut Vec<u8>, base: &Base) -> Result<(), AllocError>
    ensures { OnOk result (text.new.items ≡ text.old.items ++ base_text base.now) }
{
    text.extend_from_slice(base_word(base))?;
    if let Base::Ptr { to } = base {
        text.push(b'(')?;
        text.extend_from_slice(to.bytes())?;
        text.extend_from_slice(b" *)")?;
    }
    Ok(())
}

fn push_dim(alloc: Global, text: &mut Vec<u8>, dim: &Dim) -> Result<(), AllocError>
    ensures { OnOk result (text.new.items ≡ text.old.items ++ dim_text dim.now) }
{
    text.push(b'[')?;
    match dim {
        Dim::Numeral(n) => text.extend_from_slice(n.to_string(alloc)?.as_bytes())?,
        Dim::Named(name) => text.extend_from_slice(name.bytes())?,
    }
    text.push(b']')?;
    Ok(())
}
