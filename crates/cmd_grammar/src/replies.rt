ghost use Rattle.std.specs.Prelude.{◌≡◌, [], ◌∷◌, ◌++◌, codes, IsTrue, OnOk};
ghost use Rattle.std.specs.List.{flat_map};
ghost use Rattle.std.specs.Fmt.{decimal};
ghost use Rattle.spb_defs.specs.ReplyText.{name_of, id_text, rank_text, pair_text, range_text, near_text, join_text, reply_text};
ghost use Rattle.spb_defs.specs.ObjectText.{text_of};
ghost use Rattle.metrics_builtin.specs.Space.{fits, IsValid};
ghost use Rattle.cmd_grammar.specs.HoldsObject.{HoldsObject};

use itoa::Buffer;
use metrics_builtin::Space;
use object_text::write_object;
use spb_defs::{Reply, What};
use spb_edge::{Bytes, Memory};

/// Appends the reply's line to `text`, with its LF. An object that the reply holds is one of the space.
///
/// It takes memory for the text alone.
///
/// # Errors
///
/// `Memory` if memory runs out. Then the text may end in the middle of the line.
#[tactic(auto, unfolding(spb_defs::specs::ReplyText::reply_text))]
pub fn write_reply(space: &Space, reply: &Reply, text: &mut Bytes) -> Result<(), Memory>
    requires fits { IsTrue (fits space.now) }
    requires object { HoldsObject space.now reply.now }
    ensures { OnOk result (text.new ≡ text.old ++ reply_text space.now reply.now) }
{
    match reply {
        Reply::Done => text.append(b"ok\n"),
        Reply::Exists => text.append(b"exists\n"),
        Reply::Absent => text.append(b"absent\n"),
        Reply::Full => text.append(b"full\n"),
        Reply::Curve => text.append(b"curve\n"),
        Reply::Late => text.append(b"late\n"),
        Reply::Object(object) => write_found(space, object.as_slice(), text),
        Reply::Count(many) => write_count(*many, text),
        Reply::Range { ids, evals, sure } => write_range(ids.as_slice(), *evals, *sure, text),
        Reply::Near { rows, evals } => write_near(rows.as_slice(), *evals, text),
        Reply::Join { pairs, evals, sure } => write_join(pairs.as_slice(), *evals, *sure, text),
        Reply::Bad(failed) => text.append(bad(*failed)),
        Reply::Long => text.append(b"long\n"),
    }
}

/// Appends the answer to a look-up that found the object to `text`.
fn write_found(space: &Space, object: &[u8], text: &mut Bytes) -> Result<(), Memory>
    requires fits { IsTrue (fits space.now) }
    requires object { IsValid space.now object.now }
    ensures { OnOk result (text.new ≡ text.old ++ codes "object " ++ text_of space.now object.now ++ 10 ∷ []) }
{
    text.append(b"object ")?;
    write_object(space, object, text)?;
    text.append(b"\n")
}

/// Appends the answer to a count to `text`.
fn write_count(many: u32, text: &mut Bytes) -> Result<(), Memory>
    ensures { OnOk result (text.new ≡ text.old ++ codes "count " ++ decimal many ++ 10 ∷ []) }
{
    write_number(b"count ", u64::from(many), text)?;
    text.append(b"\n")
}

/// The line for a line that is no command.
fn bad(failed: What) -> &'static [u8]
    ensures { result.now ≡ codes "bad " ++ name_of failed ++ 10 ∷ [] }
{
    match failed {
        What::Command => b"bad command\n",
        What::Collection => b"bad collection\n",
        What::Id => b"bad id\n",
        What::Number => b"bad number\n",
        What::Object => b"bad object\n",
    }
}

/// Appends the answer to a range to `text`.
fn write_range(ids: &[u32], evals: u64, sure: u64, text: &mut Bytes) -> Result<(), Memory>
    ensures { OnOk result (text.new ≡ text.old ++ range_text ids.now evals sure ++ 10 ∷ []) }
{
    write_counts(b"range ", ids.len() as u64, evals, sure, text)?;
    write_ids(ids, text)?;
    text.append(b"\n")
}

/// Appends the answer to a question for the nearest to `text`.
fn write_near(rows: &[(u32, u32)], evals: u64, text: &mut Bytes) -> Result<(), Memory>
    ensures { OnOk result (text.new ≡ text.old ++ near_text rows.now evals ++ 10 ∷ []) }
{
    write_number(b"near ", rows.len() as u64, text)?;
    write_number(b" evals ", evals, text)?;
    text.append(b":")?;
    write_ranks(rows, text)?;
    text.append(b"\n")
}

/// Appends the answer to a join to `text`.
fn write_join(pairs: &[(u32, u32)], evals: u64, sure: u64, text: &mut Bytes) -> Result<(), Memory>
    ensures { OnOk result (text.new ≡ text.old ++ join_text pairs.now evals sure ++ 10 ∷ []) }
{
    write_counts(b"join ", pairs.len() as u64, evals, sure, text)?;
    write_pairs(pairs, text)?;
    text.append(b"\n")
}

/// Appends what comes before the ids or the pairs to `text`.
fn write_counts(
    name: &[u8],
    many: u64,
    evals: u64,
    sure: u64,
    text: &mut Bytes,
) -> Result<(), Memory>
    ensures { OnOk result (text.new ≡ text.old ++ name.now ++ decimal many ++ codes " evals " ++ decimal evals ++ codes " sure " ++ decimal sure ++ codes ":") }
{
    write_number(name, many, text)?;
    write_number(b" evals ", evals, text)?;
    write_number(b" sure ", sure, text)?;
    text.append(b":")
}

/// Appends the ranks to `text`, each after a space, as its id and its distance.
fn write_ranks(ranks: &[(u32, u32)], text: &mut Bytes) -> Result<(), Memory>
    ensures { OnOk result (text.new ≡ text.old ++ flat_map rank_text ranks.now) }
{
    for rank in ranks {
        let (distance, id) = *rank;
        write_number(b" ", u64::from(id), text)?;
        write_number(b"@", u64::from(distance), text)?;
    }
    Ok(())
}

/// Appends the pairs to `text`, each after a space.
fn write_pairs(pairs: &[(u32, u32)], text: &mut Bytes) -> Result<(), Memory>
    ensures { OnOk result (text.new ≡ text.old ++ flat_map pair_text pairs.now) }
{
    for pair in pairs {
        let (left, right) = *pair;
        write_number(b" ", u64::from(left), text)?;
        write_number(b"-", u64::from(right), text)?;
    }
    Ok(())
}

/// Appends the ids to `text`, each after a space.
fn write_ids(ids: &[u32], text: &mut Bytes) -> Result<(), Memory>
    ensures { OnOk result (text.new ≡ text.old ++ flat_map id_text ids.now) }
{
    for id in ids {
        write_number(b" ", u64::from(*id), text)?;
    }
    Ok(())
}

/// Appends the name and the number to `text`. The digits are made on the stack first.
fn write_number(name: &[u8], n: u64, text: &mut Bytes) -> Result<(), Memory>
    ensures { OnOk result (text.new ≡ text.old ++ name.now ++ decimal n) }
{
    let mut buffer = Buffer::new();
    text.append(name)?;
    text.append(buffer.format(n).as_bytes())
}
