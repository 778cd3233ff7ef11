ghost use Rattle.std.specs.Prelude.{◌≡◌, ◌++◌, OnOk, codes};
ghost use Rattle.std.specs.Fmt.{decimal};
ghost use Rattle.page_laws.specs.Rules.{rule_name};
ghost use Rattle.spb_top.specs.Status.{code_of, status_text, damaged_text, bad_sample_text};

use itoa::Buffer;
use page_laws::Rule;
use sample_lines::SampleError;
use spb_edge::{Bytes, Memory};
use store_core::OpenError;
use store_format::FormatError;

/// How a run ended.
#[derive(Clone, Copy, Debug, PartialEq, Eq)]
pub enum Status {
    /// The work was done, and the input read to its end.
    Done,
    /// The words aren't in the grammar.
    Usage,
    /// Memory ran out.
    NoMemory,
    /// The source failed.
    ReadFault,
    /// The sink failed.
    WriteFault,
    /// The disk failed.
    DiskFault,
    /// The file holds no store of this format.
    NotStore,
    /// The store breaks a rule.
    Damaged {
        /// The page that breaks it.
        page: u32,
        rule: Rule,
    },
    /// The source had more than 2^30 bytes.
    InputLimit,
    /// The key of a cell would have more than 64 bits.
    TooWide,
    /// The input had no line, so there is no sample.
    NoSample,
    /// A line isn't a sample.
    BadSample {
        /// The number of the first such line, from 1.
        line: u64,
    },
    /// A store was to be made in a file that isn't empty.
    NotEmpty,
}

/// The number with which the program ends.
pub fn code(status: &Status) -> u8
    ensures { result ≡ code_of status.now }
{
    match status {
        Status::Done => 0,
        Status::Usage => 2,
        Status::NoMemory => 3,
        Status::ReadFault => 4,
        Status::WriteFault => 5,
        Status::DiskFault => 6,
        Status::NotStore => 7,
        Status::Damaged { .. } => 8,
        Status::InputLimit => 9,
        Status::TooWide => 10,
        Status::NoSample => 11,
        Status::BadSample { .. } => 12,
        Status::NotEmpty => 13,
    }
}

/// Appends the line for standard error to `text`, with its LF. There is none for [`Status::Done`].
///
/// # Errors
///
/// [`Memory`] if the text can't grow. Then the text may end within the line.
pub fn status_line(status: &Status, text: &mut Bytes) -> Result<(), Memory>
    ensures { OnOk result (text.new ≡ text.old ++ status_text status.now) }
{
    match status {
        Status::Done => Ok(()),
        Status::Usage => text.append(b"spb: usage\n"),
        Status::NoMemory => text.append(b"spb: no memory\n"),
        Status::ReadFault => text.append(b"spb: read fault\n"),
        Status::WriteFault => text.append(b"spb: write fault\n"),
        Status::DiskFault => text.append(b"spb: disk fault\n"),
        Status::NotStore => text.append(b"spb: not a store\n"),
        Status::Damaged { page, rule } => damaged_line(*page, *rule, text),
        Status::InputLimit => text.append(b"spb: input limit\n"),
        Status::TooWide => text.append(b"spb: too wide\n"),
        Status::NoSample => text.append(b"spb: no sample\n"),
        Status::BadSample { line } => bad_sample_line(*line, text),
        Status::NotEmpty => text.append(b"spb: not empty\n"),
    }
}

/// Puts the line for a page that breaks a rule at the end of `text`.
fn damaged_line(page: u32, rule: Rule, text: &mut Bytes) -> Result<(), Memory>
    ensures { OnOk result (text.new ≡ text.old ++ damaged_text page rule) }
{
    append_number(b"spb: damaged page ", u64::from(page), text)?;
    append_rule(rule, text)?;
    text.append(b"\n")
}

/// Puts the name of the rule at the end of `text`, behind the word for it.
fn append_rule(rule: Rule, text: &mut Bytes) -> Result<(), Memory>
    ensures { OnOk result (text.new ≡ text.old ++ codes " rule " ++ rule_name rule) }
{
    text.append(b" rule ")?;
    text.append(rule.name().as_bytes())
}

/// Puts the line for a line of the input that isn't a sample at the end of `text`.
fn bad_sample_line(line: u64, text: &mut Bytes) -> Result<(), Memory>
    ensures { OnOk result (text.new ≡ text.old ++ bad_sample_text line) }
{
    append_number(b"spb: bad sample line ", line, text)?;
    text.append(b"\n")
}

/// Puts the words and the number at the end of `text`. The digits stand on the stack before.
pub(crate) fn append_number(words: &[u8], n: u64, text: &mut Bytes) -> Result<(), Memory>
    ensures { OnOk result (text.new ≡ text.old ++ words.now ++ decimal n) }
{
    let mut buffer = Buffer::new();
    text.append(words)?;
    text.append(buffer.format(n).as_bytes())
}

impl From<OpenError> for Status {
    ghost use Rattle.std.specs.Prelude.{◌≡◌};
    ghost use Rattle.spb_top.specs.Causes.{refused_by};

    ghost from_gives = { λ refusal status. status ≡ refused_by refusal };

    fn from(refusal: OpenError) -> Status {
        match refusal {
            OpenError::NotStore => Status::NotStore,
            OpenError::Damaged { page, rule } => Status::Damaged { page, rule },
            OpenError::DiskFault => Status::DiskFault,
            OpenError::Memory => Status::NoMemory,
        }
    }
}

impl From<SampleError> for Status {
    ghost use Rattle.std.specs.Prelude.{◌≡◌};
    ghost use Rattle.spb_top.specs.Causes.{unsampled_by};

    ghost from_gives = { λ e status. status ≡ unsampled_by e };

    fn from(e: SampleError) -> Status {
        match e {
            SampleError::ReadFault => Status::ReadFault,
            SampleError::InputLimit => Status::InputLimit,
            SampleError::NoSample => Status::NoSample,
            SampleError::BadSample { line } => Status::BadSample { line },
            SampleError::Memory => Status::NoMemory,
        }
    }
}

impl From<FormatError> for Status {
    ghost use Rattle.std.specs.Prelude.{◌≡◌};
    ghost use Rattle.spb_top.specs.Causes.{unmade_by};

    ghost from_gives = { λ e status. status ≡ unmade_by e };

    fn from(e: FormatError) -> Status {
        match e {
            FormatError::NotEmpty => Status::NotEmpty,
            FormatError::DiskFault => Status::DiskFault,
            FormatError::Memory => Status::NoMemory,
        }
    }
}
