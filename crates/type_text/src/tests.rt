//! Texts with the types that they mean.
use super::*;
use std::alloc::{AllocError, Global};
use std::test::Fail;

/// Whether this is the printed text of the type that the text reads as; the empty one stands for no type.
fn prints_as(alloc: Global, text: &[u8], want: &[u8]) -> Result<bool, AllocError> {
    match parse_type(alloc, text)? {
        Some(ty) => Ok(print_type(alloc, &ty)?.bytes() == want),
        None => Ok(want.is_empty()),
    }
}

#[test]
fn texts_are_read_and_printed(rt: HostRuntime) -> Result<(), Fail> {
    for (text, want) in [
        ("PTR_STRUCT(FrVect*)", "PTR_STRUCT(FrVect *)"),
        ("PTR_STRUCT( FrVect * )", "PTR_STRUCT(FrVect *)"),
        (
            "PTR_STRUCT( FrVect * ) [ 007 ][ n ]",
            "PTR_STRUCT(FrVect *)[7][n]",
        ),
        ("INT_4U [ 007 ]", "INT_4U[7]"),
        ("\tINT_4U\t[\t7\t]\t", "INT_4U[7]"),
        ("INT_8U[nDim][4294967295]", "INT_8U[nDim][4294967295]"),
        (" CHAR_U ", "CHAR_U"),
        ("COMPLEX_16[_a0][0]", "COMPLEX_16[_a0][0]"),
        ("INT_1S", "INT_1S"),
        ("STRING", "STRING"),
        ("INT_4U[", ""),
        ("INT_3U", ""),
        ("CHAR[4294967296]", ""),
        ("PTR_STRUCT(FrVect *)[2]x", ""),
        ("", ""),
        ("INT_4U[]", ""),
        ("INT_4U[a b]", ""),
        ("int_4u", ""),
        ("INT_4U[-1]", ""),
        ("PTR_STRUCT FrVect *", ""),
        ("STRINGS", ""),
        ("INT_4U\n", ""),
        ("INT_4U[7a]", ""),
        ("PTR_STRUCT(7a *)", ""),
    ] {
        let same = prints_as(rt.alloc(), text.as_bytes(), want.as_bytes())?;
        assert!(rt; same, "of {text}");
    }
    Ok(())
}

#[test]
fn texts_may_have_4096_bytes(rt: HostRuntime) -> Result<(), Fail> {
    let alloc = rt.alloc();
    for (front, filler, count, back, want) in [
        ("INT_4U", b' ', 4090, "", true),
        ("INT_4U", b' ', 4091, "", false),
        ("CHAR[", b'0', 4089, "9]", true),
        ("PTR_STRUCT(", b'a', 4082, "*)", true),
        ("PTR_STRUCT(", b'a', 4083, "*)", false),
        ("PTR_STRUCT(", b'a', 4079, "*)[2]", true),
        ("PTR_STRUCT(", b'a', 4080, "*)[2]", false),
        ("PTR_STRUCT(A*)[", b'n', 4079, "]", true),
        ("PTR_STRUCT(A*)[", b'n', 4080, "]", false),
    ] {
        let mut text = front.as_bytes().to_vec(alloc)?;
        for _ in 0..count {
            text.push(filler)?;
        }
        text.extend_from_slice(back.as_bytes())?;
        let found = parse_type(alloc, &text)?;
        assert_eq!(rt; found.is_some(), want, "{front} and {count} more");
    }
    Ok(())
}

#[test]
fn names_and_lists_keep_their_items(rt: HostRuntime) -> Result<(), Fail> {
    let name = Name::new(rt.alloc(), b"nDim")?;
    assert_eq!(rt; name.copy()?.bytes(), b"nDim".as_slice());
    let mut dims = DimList::new(rt.alloc());
    assert!(rt; dims.is_empty());
    dims.push(Dim::Numeral(7))?;
    dims.push(Dim::Named(name))?;
    assert_eq!(rt; dims.len(), 2);
    assert!(rt; dims.clone()? == dims);
    assert!(rt; dims.as_slice()[0] == Dim::Numeral(7));
    Ok(())
}
