//! That samples are read and kept, what a fault leaves, and how errors print.
use metrics_builtin::Space;
use sample_lines::{SampleError, read_samples};
use spb_edge::{Bytes, MemSource};
use std::alloc::Global;
use std::test::Fail;

/// The plane of points with components up to 255.
const PLANE: Space = Space::L1 { dim: 2, most: 255 };

/// How many samples are kept of a script that comes in pieces of at most 7 bytes, or why there are none.
fn kept_of(
    alloc: Global,
    script: &[u8],
    failing: &[u64],
) -> Result<Result<usize, SampleError>, Fail> {
    let mut input = MemSource::new(alloc, script, 7, failing)?;
    match read_samples(alloc, &PLANE, &mut input) {
        Ok(samples) => Ok(Ok(samples.len())),
        Err(e) => Ok(Err(e)),
    }
}

#[test]
fn scripts(rt: HostRuntime) -> Result<(), Fail> {
    let none_at = |line| Err(SampleError::BadSample { line });
    for (script, kept) in [
        ("sample 0,0\nsample 255,0\nsample 10,10\n", Ok(3)),
        ("sample 0,0\nsample 0,0", Ok(2)),
        ("", Err(SampleError::NoSample)),
        ("sample 0,0\nsample 256,0\n", none_at(2)),
        ("sample 0,0\n\nsample 1,1\n", none_at(2)),
        ("sample 0,0\nadd 0 1 0,0\n", none_at(2)),
        ("\n", none_at(1)),
        ("sample 0,0\r\n", none_at(1)),
    ] {
        assert!(rt;
            kept_of(rt.alloc(), script.as_bytes(), &[])? == kept,
            "{script}"
        );
    }
    Ok(())
}

#[test]
fn objects_in_order(rt: HostRuntime) -> Result<(), Fail> {
    let mut input = MemSource::new(rt.alloc(), b"sample 1,2\nsample 3,4\n", 64, &[])?;
    let samples = read_samples(rt.alloc(), &PLANE, &mut input)?;
    for (sample, object) in samples
        .iter()
        .zip([[0, 0, 0, 1, 0, 0, 0, 2], [0, 0, 0, 3, 0, 0, 0, 4]])
    {
        assert!(rt; sample.as_slice() == object.as_slice());
    }
    assert_eq!(rt; samples.len(), 2);
    Ok(())
}

// The first line comes whole before the third take fails.
#[test]
fn a_source_that_fails_in_mid_stream(rt: HostRuntime) -> Result<(), Fail> {
    let script = b"sample 0,0\nsample 1,1\n";
    assert!(rt; kept_of(rt.alloc(), script, &[3])? == Err(SampleError::ReadFault));
    Ok(())
}

/// A script of one sample so many times, and then the line.
fn many(alloc: Global, count: u32, line: &[u8]) -> Result<Bytes, Fail> {
    let mut script = Bytes::of(alloc, &[])?;
    for _ in 0..count {
        script.append(b"sample 7,7\n")?;
    }
    script.append(line)?;
    Ok(script)
}

#[test]
fn lines_past_the_last_sample_that_is_kept(rt: HostRuntime) -> Result<(), Fail> {
    let alloc = rt.alloc();
    let script = many(alloc, 4096, b"sample 1,1")?;
    assert!(rt; kept_of(alloc, script.as_slice(), &[])? == Ok(4096));
    let script = many(alloc, 4097, b"sample 1")?;
    assert!(rt;
        kept_of(alloc, script.as_slice(), &[])? == Err(SampleError::BadSample { line: 4098 })
    );
    Ok(())
}

#[test]
fn errors_in_words(rt: HostRuntime) -> Result<(), Fail> {
    for (e, text) in [
        (SampleError::ReadFault, "read fault"),
        (SampleError::InputLimit, "input limit"),
        (SampleError::NoSample, "no sample"),
        (SampleError::BadSample { line: 7 }, "bad sample line 7"),
        (SampleError::Memory, "out of memory"),
    ] {
        assert!(rt; format!(in rt.alloc(); "{e}")?.as_str() == text);
    }
    Ok(())
}
