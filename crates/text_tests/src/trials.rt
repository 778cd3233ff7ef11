//! The numbers, the lines and the summary, computed apart from this code.
use answer_lists::{Ids, Pairs, Ranks};
use spb_defs::Reply;
use spb_edge::{Bytes, Line};
use std::alloc::Global;
use std::test::Fail;
use trial_script::{Totals, TrialLines, trial_samples};

#[test]
fn samples_in_order(rt: HostRuntime) -> Result<(), Fail> {
    let samples = trial_samples(rt.alloc(), 0)?;
    let first = [0, 0, 0, 23, 0, 0, 0, 246, 0, 0, 1, 58, 0, 0, 1, 236];
    assert!(rt;
        samples
            .iter()
            .next()
            .is_some_and(|s| s.as_slice() == first.as_slice())
    );
    assert_eq!(rt; samples.len(), 16);
    Ok(())
}

/// The lines that are left, one after the other, each with an LF.
fn text_of(alloc: Global, mut lines: TrialLines) -> Result<Bytes, Fail> {
    let mut text = Bytes::of(alloc, &[])?;
    while let Some(line) = lines.next_line(alloc)? {
        if let Line::Text(words) = line {
            text.append(words.as_slice())?;
            text.append(b"\n")?;
        }
    }
    Ok(text)
}

#[test]
fn lines_in_order(rt: HostRuntime) -> Result<(), Fail> {
    let text = text_of(rt.alloc(), TrialLines::new(0, 2))?;
    let first = b"add 0 0 398,167,218,695\nadd 1 0 903,411,409,527\nrange 1 400 183,655,942,593\n";
    let last = b"near 0 5 362,823,602,19\nnear 0 5 973,719,298,834\njoin 0 1 60\n";
    assert!(rt; text.as_slice().starts_with(first));
    assert!(rt; text.as_slice().ends_with(last));
    assert_eq!(rt; text.as_slice().len(), 894);
    Ok(())
}

#[test]
fn numbers_add_up(rt: HostRuntime) -> Result<(), Fail> {
    let alloc = rt.alloc();
    let mut totals = Totals::none();
    totals.add(&Reply::Done);
    totals.add(&Reply::Exists);
    totals.add(&Reply::Range {
        ids: Ids::of(alloc, &[4, 7])?,
        evals: 5,
        sure: 1,
    });
    totals.add(&Reply::Near {
        rows: Ranks::of(alloc, &[(9, 1)])?,
        evals: 8,
    });
    totals.add(&Reply::Join {
        pairs: Pairs::of(alloc, &[(1, 2), (1, 3), (2, 2)])?,
        evals: 6,
        sure: u64::MAX,
    });
    totals.add(&Reply::Join {
        pairs: Pairs::of(alloc, &[])?,
        evals: 1,
        sure: 1,
    });
    let mut text = Bytes::of(alloc, b"> ")?;
    totals.write_summary(&mut text)?;
    let expected =
        b"> trial changes 1 range 2 evals 5 sure 1 near 1 evals 8 join 3 evals 7 sure 18446744073709551615\n";
    assert!(rt; text.as_slice() == expected.as_slice());
    Ok(())
}
