//! Runs of the program over disks in memory, and the store of five points that most tests begin with.
use spb_edge::{Bytes, Disk, MemDisk, MemSink, MemSource, SureDisk};
use spb_top::{Status, run};
use std::alloc::{AllocError, Global};
use std::test::Fail;

/// The words that answer a script on a store.
pub(crate) const RUN: [&str; 2] = ["run", "a.spb"];

/// The words that count a store's objects.
pub(crate) const CHECK: [&str; 2] = ["check", "a.spb"];

/// The words that make a store of at most a hundred points, with two pivots.
pub(crate) const MAKE: [&str; 8] = ["make", "a.spb", "z", "2", "100", "l1", "2", "255"];

/// Three samples. The pivots are the first two.
pub(crate) const SAMPLES: &str = "sample 0,0\nsample 255,0\nsample 10,10\n";

/// The words of a run and its script, how it ends and what it writes.
pub(crate) struct Row {
    pub(crate) words: &'static [&'static str],
    pub(crate) script: &'static str,
    pub(crate) status: Status,
    pub(crate) text: &'static str,
}

/// The making of a store of points.
pub(crate) const MADE: Row = Row {
    words: &MAKE,
    script: SAMPLES,
    status: Status::Done,
    text: "made pivots 2 evals 2\n",
};

/// The runs that make the store of five points.
const FIVE_POINTS: [Row; 2] = [
    MADE,
    Row {
        words: &RUN,
        script: "add 0 1 0,0\nadd 0 2 3,4\nadd 0 3 10,0\nadd 0 4 100,100\nadd 0 5 255,0\n",
        status: Status::Done,
        text: "ok\nok\nok\nok\nok\n",
    },
];

/// The words, each of them owned.
fn owned(alloc: Global, texts: &[&str]) -> Result<Vec<String>, AllocError> {
    let mut words = Vec::new(alloc);
    for text in texts {
        words.push(String::from_str(alloc, *text)?)?;
    }
    Ok(words)
}

/// An empty sink with room for all that the runs here write.
pub(crate) fn sink(alloc: Global) -> Result<MemSink, Fail> {
    Ok(MemSink::new(alloc, 1 << 16, &[])?)
}

/// A disk with the image, with room for what a run over a small store calls and writes. It stops after so many calls, and its
/// calls in `failing` fail.
pub(crate) fn disk_of(
    alloc: Global,
    image: &[u8],
    failing: &[u64],
    stop: Option<u64>,
) -> Result<MemDisk, Fail> {
    Ok(MemDisk::new(alloc, image, failing, stop, 256, 200_000)?)
}

/// How a run of the words ends on the script over the disk. What it writes is in the sink.
pub(crate) fn play<D: Disk>(
    alloc: Global,
    texts: &[&str],
    script: &[u8],
    output: &mut MemSink,
    disk: &mut D,
) -> Result<Status, Fail> {
    let words = owned(alloc, texts)?;
    let mut input = MemSource::new(alloc, script, 100, &[])?;
    Ok(run(alloc, &words, &mut input, output, disk))
}

/// Whether a run of the words on the script over the disk ends so, and writes this text.
pub(crate) fn is_so<D: Disk>(
    alloc: Global,
    texts: &[&str],
    script: &[u8],
    disk: &mut D,
    status: Status,
    text: &[u8],
) -> Result<bool, Fail> {
    let mut output = sink(alloc)?;
    let ended = play(alloc, texts, script, &mut output, disk)?;
    Ok(ended == status && output.taken() == text)
}

/// Whether the run over the disk ends and writes as it is to.
fn is_row<D: Disk>(alloc: Global, row: &Row, disk: &mut D) -> Result<bool, Fail> {
    let script = row.script.as_bytes();
    is_so(
        alloc,
        row.words,
        script,
        disk,
        row.status,
        row.text.as_bytes(),
    )
}

/// The words and the script of a run that ends or writes otherwise than it is to, if there is one.
pub(crate) type Wrong = Option<(&'static [&'static str], &'static str)>;

/// The first of the runs, one after the other over the disk, that ends or writes otherwise.
pub(crate) fn first_wrong<D: Disk>(
    alloc: Global,
    rows: &[Row],
    disk: &mut D,
) -> Result<Wrong, Fail> {
    for row in rows {
        if !is_row(alloc, row, disk)? {
            return Ok(Some((row.words, row.script)));
        }
    }
    Ok(None)
}

/// The first of the runs over disks that ends or writes otherwise. There is a list of them for each disk, from an empty one on.
pub(crate) fn first_wrong_on_disks(alloc: Global, disks: &[&'static [Row]]) -> Result<Wrong, Fail> {
    for rows in disks {
        let mut disk = SureDisk::new(alloc, &[])?;
        let wrong = first_wrong(alloc, rows, &mut disk)?;
        if wrong.is_some() {
            return Ok(wrong);
        }
    }
    Ok(None)
}

/// The image of the store of five points.
pub(crate) fn five_points(alloc: Global) -> Result<Bytes, Fail> {
    let mut disk = disk_of(alloc, &[], &[], None)?;
    if first_wrong(alloc, &FIVE_POINTS, &mut disk)?.is_some() {
        return Err(Fail::new("the store of five points isn't made"));
    }
    Ok(Bytes::of(alloc, disk.image())?)
}

/// A disk that never fails with the store of five points.
pub(crate) fn five_points_on_a_disk(alloc: Global) -> Result<SureDisk, Fail> {
    Ok(SureDisk::new(alloc, five_points(alloc)?.as_slice())?)
}
