use metrics_builtin::Space;
use object_text::{TextError, number, read_object, write_object};
use spb_edge::Bytes;
use std::alloc::Global;
use std::test::Fail;

#[test]
fn numbers_in_text(rt: HostRuntime) {
    for (word, most, want) in [
        ("0", 4294967295, Some(0)),
        ("7", 4294967295, Some(7)),
        ("10", 4294967295, Some(10)),
        ("4294967295", 4294967295, Some(4294967295)),
        ("4294967296", 4294967295, None),
        ("", 4294967295, None),
        ("00", 4294967295, None),
        ("01", 4294967295, None),
        ("+1", 4294967295, None),
        ("-1", 4294967295, None),
        ("1a", 4294967295, None),
        (" 1", 4294967295, None),
        ("18446744073709551615", u64::MAX, Some(18446744073709551615)),
        ("18446744073709551616", u64::MAX, None),
        ("99999999999999999999999", u64::MAX, None),
    ] {
        assert!(rt; number(word.as_bytes(), most) == want, "{word}");
    }
}

// vectors, strings and sets, with the bytes of each object
const VECTORS: Space = Space::L1 { dim: 2, most: 255 };

const OTHER_VECTORS: Space = Space::LInf {
    dim: 2,
    most: 4294967295,
};

const STRINGS: Space = Space::Hamming { len: 3 };

const SETS: Space = Space::Sets {
    universe: 100,
    most: 5,
};

fn objects() -> [(Space, &'static str, &'static [u8]); 10] {
    [
        (VECTORS, "0,0", &[0, 0, 0, 0, 0, 0, 0, 0]),
        (VECTORS, "3,4", &[0, 0, 0, 3, 0, 0, 0, 4]),
        (VECTORS, "255,0", &[0, 0, 0, 255, 0, 0, 0, 0]),
        (
            OTHER_VECTORS,
            "4294967295,256",
            &[255, 255, 255, 255, 0, 0, 1, 0],
        ),
        (STRINGS, "616263", b"abc"),
        (STRINGS, "00ff0a", &[0, 255, 10]),
        (SETS, "-", &[]),
        (SETS, "0", &[0, 0, 0, 0]),
        (SETS, "1,2,3", &[0, 0, 0, 1, 0, 0, 0, 2, 0, 0, 0, 3]),
        (SETS, "98,99", &[0, 0, 0, 98, 0, 0, 0, 99]),
    ]
}

// the object that the text is read as, in a space that fits
fn read(alloc: Global, space: &Space, text: &str) -> Result<Bytes, TextError> {
    if !space.fits() {
        return Err(TextError::Memory);
    }
    read_object(alloc, space, text.as_bytes())
}

#[test]
fn objects_of_texts(rt: HostRuntime) -> Result<(), Fail> {
    for (space, text, want) in objects() {
        let object = read(rt.alloc(), &space, text)?;
        assert!(rt; object.as_slice() == want, "{text}");
    }
    Ok(())
}

// the text of the object that the text is read as, after a word
fn written(alloc: Global, space: &Space, text: &str) -> Result<Bytes, TextError> {
    let mut again = Bytes::of(alloc, b"object ")?;
    if space.fits() {
        let object = read_object(alloc, space, text.as_bytes())?;
        write_object(space, object.as_slice(), &mut again)?;
    }
    Ok(again)
}

#[test]
fn texts_of_objects(rt: HostRuntime) -> Result<(), Fail> {
    for (space, text, _) in objects() {
        let again = written(rt.alloc(), &space, text)?;
        let want = format!(in rt.alloc(); "object {text}")?;
        assert!(rt; again.as_slice() == want.as_bytes(), "{text}");
    }
    Ok(())
}

#[test]
fn other_texts(rt: HostRuntime) {
    for (space, text) in [
        (VECTORS, "256,0"),
        (VECTORS, "0"),
        (VECTORS, "0,0,0"),
        (VECTORS, ""),
        (VECTORS, ","),
        (VECTORS, "0,"),
        (VECTORS, "00,0"),
        (VECTORS, "0, 0"),
        (VECTORS, "-1,0"),
        (OTHER_VECTORS, "4294967296,0"),
        (STRINGS, "61626A"),
        (STRINGS, "6162"),
        (STRINGS, "61626364"),
        (STRINGS, "61626"),
        (STRINGS, "61626g"),
        (STRINGS, ""),
        (SETS, ""),
        (SETS, "5,5"),
        (SETS, "5,4"),
        (SETS, "100"),
        (SETS, "05"),
        (SETS, "+5"),
        (SETS, "5,"),
        (SETS, "-,5"),
        (SETS, "--"),
        (SETS, "1,2,3,4,5,6"),
        (SETS, "18446744073709551616"),
    ] {
        match read(rt.alloc(), &space, text) {
            Err(e) => assert!(rt; e == TextError::BadObject, "{text}"),
            Ok(_) => panic!(rt; "{text}"),
        }
    }
}

#[test]
fn errors_in_words(rt: HostRuntime) -> Result<(), Fail> {
    for (e, text) in [
        (TextError::BadObject, "bad object"),
        (TextError::Memory, "out of memory"),
    ] {
        assert!(rt; format!(in rt.alloc(); "{e}")?.as_str() == text);
    }
    Ok(())
}
