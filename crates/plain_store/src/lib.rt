//! A second program for a store in memory, by plain scans of a list: slow, and written without the code that it is
//! compared with. Tests of the top call compare the replies of the two.
//!
//! It depends on std alone, so that it is proved safe and built once, whatever changes in the store.
//!
//! Objects stay the texts that they came as, and distances are taken of texts. Every distance is measured for the
//! answers; the counts say which of them the pivots would have saved.
#![tactic(auto)]

mod distances;
mod lines;

use distances::distance;
use lines::{Kind, Member, Request, request_of, setup_of};
use std::alloc::{AllocError, Global};

/// The bounds that the pivots set to a distance: it is from `least` to `most`.
#[derive(Drop)]
struct Bounds {
    least: u64,
    most: u64,
}

impl Bounds {
    /// Whether the pivots leave it open if the distance is within the radius.
    fn are_open(&self, radius: u64) -> bool {
        self.least <= radius && self.most > radius
    }

    /// Whether the pivots show that the distance is within the radius.
    fn are_sure(&self, radius: u64) -> bool {
        self.least <= radius && self.most <= radius
    }
}

/// The pairs of a join so far, how many of all the pivots leave open, and how many they show to be within.
#[derive(Drop)]
struct Pairs {
    ids: Vec<(u64, u64)>,
    evals: u64,
    sure: u64,
}

/// A session: its kind of objects, how many pivots it wants, the samples that it has kept, whether it keeps
/// more, which of them were chosen, and its members as they came.
#[derive(Drop)]
struct Session<'a> {
    alloc: Global,
    kind: Kind,
    wanted: u64,
    samples: Vec<&'a [u8]>,
    is_sampling: bool,
    chosen: Vec<usize>,
    pivots: Vec<&'a [u8]>,
    members: Vec<Member<'a>>,
}

/// The replies to the script, a line each, if the words ask for a session in memory; `None` for other words.
///
/// The words are those after the program's name. Each addition takes time in proportion to the objects kept,
/// and each query measures all objects or pairs of objects, and their distances to the pivots again.
///
/// # Errors
///
/// [`AllocError`] if memory runs out.
pub fn play(alloc: Global, words: &[&str], script: &[u8]) -> Result<Option<Vec<u8>>, AllocError> {
    let Some(setup) = setup_of(words) else {
        return Ok(None);
    };
    let mut session = Session {
        alloc,
        kind: setup.kind,
        wanted: setup.wanted,
        samples: Vec::new(alloc),
        is_sampling: true,
        chosen: Vec::new(alloc),
        pivots: Vec::new(alloc),
        members: Vec::new(alloc),
    };
    let mut lines: Vec<&[u8]> = script.split(|b| *b == b'\n').collect(alloc)?;
    if script.is_empty() || script.ends_with(b"\n") {
        let _last = lines.pop();
    }
    let mut text = Vec::new(alloc);
    for line in &lines {
        session.answer_line(*line, &mut text)?;
    }
    Ok(Some(text))
}

impl<'a> Session<'a> {
    /// Appends the reply to the line to `text`.
    fn answer_line(&mut self, line: &'a [u8], text: &mut Vec<u8>) -> Result<(), AllocError> {
        if line.len() > 16_384 {
            return text.extend_from_slice(b"long\n");
        }
        let words: Vec<&'a [u8]> = line.split(|b| *b == b' ').collect(self.alloc)?;
        match request_of(self.kind, &words) {
            Err(failed) => {
                text.extend_from_slice(format!(in self.alloc; "bad {failed}\n")?.as_bytes())
            }
            Ok(request) => self.answer(request, text),
        }
    }

    /// Appends the reply to the request to `text`.
    fn answer(&mut self, request: Request<'a>, text: &mut Vec<u8>) -> Result<(), AllocError> {
        if let Request::Sample(object) = request {
            return self.sample(object, text);
        }
        self.close()?;
        match request {
            Request::Sample(_) => Ok(()),
            Request::Add(member) => self.add(member, text),
            Request::Discard { collection, id } => self.discard(collection, id, text),
            Request::Get { collection, id } => self.get(collection, id, text),
            Request::Count { collection } => self.count(collection, text),
            Request::Range {
                collection,
                radius,
                query,
            } => self.range(collection, radius, query, text),
            Request::Near {
                collection,
                many,
                query,
            } => self.near(collection, many, query, text),
            Request::Join {
                left,
                right,
                radius,
            } => self.join(left, right, radius, text),
        }
    }

    /// Keeps a sample.
    fn sample(&mut self, object: &'a [u8], text: &mut Vec<u8>) -> Result<(), AllocError> {
        if !self.is_sampling {
            return text.extend_from_slice(b"late\n");
        }
        if self.samples.len() >= 4_096 {
            return text.extend_from_slice(b"full\n");
        }
        self.samples.push(object)?;
        text.extend_from_slice(b"ok\n")
    }

    /// Ends the sampling, and chooses the pivots.
    fn close(&mut self) -> Result<(), AllocError> {
        if self.is_sampling {
            self.is_sampling = false;
            for _ in 0..self.wanted {
                self.choose()?;
            }
        }
        Ok(())
    }

    /// Chooses one more pivot, if a sample is left.
    fn choose(&mut self) -> Result<(), AllocError> {
        let Some(place) = self.farthest() else {
            return Ok(());
        };
        if let Some(sample) = self.samples.get(place).copied() {
            self.chosen.push(place)?;
            self.pivots.push(sample)?;
        }
        Ok(())
    }

    /// Of the samples that aren't chosen yet, the place of the first of those whose distances to the pivots
    /// have the greatest sum.
    fn farthest(&self) -> Option<usize> {
        let mut best: Option<(u64, usize)> = None;
        for (place, sample) in self.samples.iter().enumerate() {
            if self.chosen.contains(&place) {
                continue;
            }
            let sum = self.sum_to_pivots(*sample);
            let is_best = match best {
                Some((most, _)) => sum > most,
                None => true,
            };
            if is_best {
                best = Some((sum, place));
            }
        }
        let (_, place) = best?;
        Some(place)
    }

    /// The sum of the distances of the object to the pivots.
    fn sum_to_pivots(&self, object: &[u8]) -> u64 {
        let mut sum = 0u64;
        for pivot in &self.pivots {
            sum = sum.saturating_add(distance(self.kind, *pivot, object));
        }
        sum
    }

    /// The bounds that the pivots set to the distance of two objects.
    fn bounds(&self, left: &[u8], right: &[u8]) -> Bounds {
        let mut least = 0u64;
        let mut most = u64::MAX;
        for pivot in &self.pivots {
            let away = distance(self.kind, left, *pivot);
            let other = distance(self.kind, right, *pivot);
            least = least.max(away.abs_diff(other));
            most = most.min(away.saturating_add(other));
        }
        Bounds { least, most }
    }

    /// The object with the id in the collection.
    fn found(&self, collection: u64, id: u64) -> Option<&'a [u8]> {
        for member in &self.members {
            if member.collection == collection && member.id == id {
                return Some(member.object);
            }
        }
        None
    }

    /// Adds the member unless its id is there or the session is full.
    fn add(&mut self, member: Member<'a>, text: &mut Vec<u8>) -> Result<(), AllocError> {
        if self.found(member.collection, member.id).is_some() {
            return text.extend_from_slice(b"exists\n");
        }
        if self.members.len() >= 65_536 {
            return text.extend_from_slice(b"full\n");
        }
        self.members.push(member)?;
        text.extend_from_slice(b"ok\n")
    }

    /// Takes the object away.
    fn discard(&mut self, collection: u64, id: u64, text: &mut Vec<u8>) -> Result<(), AllocError> {
        if self.found(collection, id).is_none() {
            return text.extend_from_slice(b"absent\n");
        }
        self.members.retain(|member| member.collection != collection || member.id != id);
        text.extend_from_slice(b"ok\n")
    }

    /// Gives the object's text.
    fn get(&self, collection: u64, id: u64, text: &mut Vec<u8>) -> Result<(), AllocError> {
        let Some(object) = self.found(collection, id) else {
            return text.extend_from_slice(b"absent\n");
        };
        text.extend_from_slice(b"object ")?;
        text.extend_from_slice(object)?;
        text.extend_from_slice(b"\n")
    }

    /// Counts the members of the collection.
    fn count(&self, collection: u64, text: &mut Vec<u8>) -> Result<(), AllocError> {
        let mut many = 0u64;
        for member in &self.members {
            if member.collection == collection {
                many = many.saturating_add(1);
            }
        }
        text.extend_from_slice(format!(in self.alloc; "count {many}\n")?.as_bytes())
    }

    /// The ids of the collection whose distance is within the radius, ascending; how many of them the pivots show to be
    /// within, and how many they leave open.
    fn range(
        &self,
        collection: u64,
        radius: u64,
        query: &[u8],
        text: &mut Vec<u8>,
    ) -> Result<(), AllocError> {
        let mut ids = Vec::new(self.alloc);
        let mut evals = self.pivots.len() as u64;
        let mut sure = 0u64;
        for member in &self.members {
            if member.collection != collection {
                continue;
            }
            if distance(self.kind, query, member.object) <= radius {
                ids.push(member.id)?;
            }
            let bounds = self.bounds(query, member.object);
            evals = evals.saturating_add(u64::from(bounds.are_open(radius)));
            sure = sure.saturating_add(u64::from(bounds.are_sure(radius)));
        }
        ids.sort()?;
        let many = ids.len();
        let head = format!(in self.alloc; "range {many} evals {evals} sure {sure}:")?;
        text.extend_from_slice(head.as_bytes())?;
        for id in &ids {
            text.extend_from_slice(format!(in self.alloc; " {id}")?.as_bytes())?;
        }
        text.extend_from_slice(b"\n")
    }

    /// Each member of the collection as its distance and its id, in order.
    fn ranks(&self, collection: u64, query: &[u8]) -> Result<Vec<(u64, u64)>, AllocError> {
        let mut ranks = Vec::new(self.alloc);
        for member in &self.members {
            if member.collection == collection {
                ranks.push((distance(self.kind, query, member.object), member.id))?;
            }
        }
        ranks.sort()?;
        Ok(ranks)
    }

    /// How many distances a search for the nearest takes: those to the pivots, and those of the members whose least
    /// distance and id don't come after the last rank.
    fn near_evals(&self, collection: u64, query: &[u8], last: Option<(u64, u64)>) -> u64 {
        let mut evals = self.pivots.len() as u64;
        for member in &self.members {
            if member.collection != collection {
                continue;
            }
            let least = (self.bounds(query, member.object).least, member.id);
            let is_measured = match last {
                Some(last) => least <= last,
                None => true,
            };
            evals = evals.saturating_add(u64::from(is_measured));
        }
        evals
    }

    /// Measures the whole collection, and gives the first `many` in order.
    fn near(
        &self,
        collection: u64,
        many: u64,
        query: &[u8],
        text: &mut Vec<u8>,
    ) -> Result<(), AllocError> {
        let ranks = self.ranks(collection, query)?;
        let many = many as usize;
        let last = ranks.get(many.saturating_sub(1)).copied();
        let evals = self.near_evals(collection, query, last);
        let given = many.min(ranks.len());
        let head = format!(in self.alloc; "near {given} evals {evals}:")?;
        text.extend_from_slice(head.as_bytes())?;
        for (away, id) in ranks.iter().take(many) {
            text.extend_from_slice(format!(in self.alloc; " {id}@{away}")?.as_bytes())?;
        }
        text.extend_from_slice(b"\n")
    }

    /// Measures all pairs, and sorts those within the radius.
    fn join(
        &self,
        left: u64,
        right: u64,
        radius: u64,
        text: &mut Vec<u8>,
    ) -> Result<(), AllocError> {
        let mut found = Pairs {
            ids: Vec::new(self.alloc),
            evals: 0,
            sure: 0,
        };
        for member in &self.members {
            if member.collection == left {
                self.join_one(*member, right, radius, &mut found)?;
            }
        }
        found.ids.sort()?;
        let (many, evals, sure) = (found.ids.len(), found.evals, found.sure);
        let head = format!(in self.alloc; "join {many} evals {evals} sure {sure}:")?;
        text.extend_from_slice(head.as_bytes())?;
        for (a, b) in &found.ids {
            text.extend_from_slice(format!(in self.alloc; " {a}-{b}")?.as_bytes())?;
        }
        text.extend_from_slice(b"\n")
    }

    /// Measures the member with each of the other collection, or with each of a greater id in its own.
    fn join_one(
        &self,
        member: Member<'a>,
        right: u64,
        radius: u64,
        found: &mut Pairs,
    ) -> Result<(), AllocError> {
        for other in &self.members {
            let is_pair = member.collection != right || member.id < other.id;
            if other.collection != right || !is_pair {
                continue;
            }
            if distance(self.kind, member.object, other.object) <= radius {
                found.ids.push((member.id, other.id))?;
            }
            let bounds = self.bounds(member.object, other.object);
            let open = u64::from(bounds.are_open(radius));
            found.evals = found.evals.saturating_add(open);
            let sure = u64::from(bounds.are_sure(radius));
            found.sure = found.sure.saturating_add(sure);
        }
        Ok(())
    }
}
