//! Images of the store of five points that are cut or have other bytes.
use crate::plays::{CHECK, RUN, five_points, is_so};
use page_laws::Rule;
use spb_edge::SureDisk;
use spb_top::Status;
use std::alloc::{AllocError, Global};
use std::test::Fail;

/// How many bytes of the image are left, and how an opening of them ends.
const CUTS: [(usize, Status); 7] = [
    (0, Status::NotStore),
    (2_048, Status::NotStore),
    (2_559, Status::NotStore),
    (2_560, BAD_SIZE),
    (51_200, BAD_SIZE),
    (51_201, BAD_SIZE),
    (89_087, BAD_SIZE),
];

/// The damage of a file that hasn't the length of its cap.
const BAD_SIZE: Status = Status::Damaged {
    page: 0,
    rule: Rule::Size,
};

/// How openings end, and bytes of the image that become others, each list of which makes one end so: bytes of the mark page, the
/// journal's header, the profile page and the pivots' records.
///
/// The journal holds the change that was made last. With an open gate it is made again, and nothing differs; made in the place
/// of the profile page, it leaves no format.
const CHANGES: [(Status, &[&[(usize, u8)]]); 8] = [
    (
        Status::Done,
        &[
            &[],
            &[(8, 1), (15, 1), (17, 1), (511, 1)],
            &[(16, 0x37)],
            &[(16, 0x37), (2_051, 81)],
            &[(16, 1)],
        ],
    ),
    // the magic, and the format, which is looked at before the other fields
    (
        Status::NotStore,
        &[
            &[(0, b'S')],
            &[(7, 0)],
            &[(0, b'S'), (16, 1), (2_051, 81)],
            &[(513, 9)],
            &[(512, 1)],
            &[(513, 0), (514, 5)],
            &[(16, 1), (2_051, 1), (2_059, 1)],
        ],
    ),
    // how many images there are, and their pages: none of the homes, past the end, not rising
    (
        Status::Damaged {
            page: 4,
            rule: Rule::Journal,
        },
        &[
            &[(16, 1), (2_051, 81)],
            &[(16, 1), (2_051, 0)],
            &[(16, 1), (2_048, 1)],
            &[(16, 1), (2_051, 1), (2_059, 0)],
            &[(16, 1), (2_051, 1), (2_059, 4)],
            &[(16, 1), (2_051, 1), (2_059, 84)],
            &[(16, 1), (2_051, 1), (2_059, 174)],
            &[(16, 1), (2_051, 2), (2_059, 90), (2_063, 90)],
            &[(16, 1), (2_051, 81), (513, 9)],
        ],
    ),
    // the kind, the curve, the pivots, the bits and the zeros after them; the parameters; the cap, the width and the zeros after
    // it; roots without a height, too high, with a byte after them, or of one tree alone; the rest of the page
    (
        Status::Damaged {
            page: 1,
            rule: Rule::Profile,
        },
        &[
            &[(514, 0)],
            &[(514, 5)],
            &[(515, 0)],
            &[(515, 3)],
            &[(516, 0)],
            &[(516, 9)],
            &[(517, 8)],
            &[(519, 1)],
            &[(523, 0)],
            &[(523, 31)],
            &[(527, 0)],
            &[(531, 0)],
            &[(529, 1)],
            &[(535, 2)],
            &[(543, 1)],
            &[(547, 110)],
            &[(547, 110), (548, 6), (555, 111), (556, 1)],
            &[(549, 1)],
            &[(547, 110), (548, 1)],
            &[(608, 1)],
            &[(1_023, 1)],
            &[(531, 3), (514, 5)],
        ],
    ),
    // a cap that asks for other pages
    (BAD_SIZE, &[&[(531, 3)], &[(531, 3), (1_024, 1)]]),
    // no record, no point of the plane, and records after the last pivot's
    (
        Status::Damaged {
            page: 2,
            rule: Rule::Pivot,
        },
        &[
            &[(1_024, 1)],
            &[(1_025, 121)],
            &[(1_026, 1)],
            &[(1_040, 1)],
            &[(1_034, 1)],
            &[(1_025, 4)],
            &[(1_025, 0)],
            &[(1_153, 4), (1_163, 0)],
            &[(1_280, 255)],
            &[(1_281, 8)],
        ],
    ),
    (
        Status::Damaged {
            page: 3,
            rule: Rule::Pivot,
        },
        &[&[(1_537, 8)], &[(2_047, 1)]],
    ),
    // roots that aren't pages of the pool, or are one page
    (
        Status::Damaged {
            page: 1,
            rule: Rule::Page,
        },
        &[
            &[(547, 109), (548, 1), (555, 174), (556, 1)],
            &[(547, 110), (548, 1), (555, 110), (556, 1)],
        ],
    ),
];

/// The image with these bytes, counted from `start`.
fn changed(
    alloc: Global,
    image: &[u8],
    start: usize,
    bytes: &[(usize, u8)],
) -> Result<Vec<u8>, AllocError> {
    let mut changed = Vec::from_slice(alloc, image)?;
    for (at, byte) in bytes {
        if let Some(place) = changed.get_mut(start.saturating_add(*at)) {
            *place = *byte;
        }
    }
    Ok(changed)
}

/// Whether an opening of the image ends so, in a run and in a check, and finds the five objects if it succeeds.
fn opens_so(alloc: Global, image: &[u8], status: Status) -> Result<bool, Fail> {
    let (sound, count) = match status {
        Status::Done => ("sound 5\n", "count 5\n"),
        _ => ("", ""),
    };
    let mut disk = SureDisk::new(alloc, image)?;
    let is_checked = is_so(alloc, &CHECK, b"", &mut disk, status, sound.as_bytes())?;
    let mut disk = SureDisk::new(alloc, image)?;
    let is_run = is_so(
        alloc,
        &RUN,
        b"count 0\n",
        &mut disk,
        status,
        count.as_bytes(),
    )?;
    Ok(is_checked && is_run)
}

/// The first of the lists of bytes that changes the image so that an opening ends otherwise.
fn first_wrong_change(
    alloc: Global,
    image: &[u8],
    status: Status,
    changes: &[&'static [(usize, u8)]],
) -> Result<Option<&'static [(usize, u8)]>, Fail> {
    for bytes in changes {
        let changed = changed(alloc, image, 0, bytes)?;
        if !opens_so(alloc, &changed, status)? {
            return Ok(Some(*bytes));
        }
    }
    Ok(None)
}

#[test]
fn images_that_are_no_store_or_damaged(rt: HostRuntime) -> Result<(), Fail> {
    let image = five_points(rt.alloc())?;
    let image = image.as_slice();
    for (length, status) in CUTS {
        let left = image.get(..length).unwrap_or(image);
        assert!(rt; opens_so(rt.alloc(), left, status)?, "{length}");
    }
    for (status, changes) in CHANGES {
        assert_eq!(rt;
            first_wrong_change(rt.alloc(), image, status, changes)?,
            None
        );
    }
    Ok(())
}

/// Bytes of the slot of an object, counted from the slot's first, that become others. Each breaks the rule of slots.
const SLOT_CHANGES: [(u8, &[(usize, u8)]); 11] = [
    // no collection, no length, and bytes that aren't zero
    (1, &[(0, 4)]),
    (1, &[(0, 254)]),
    (2, &[(1, 121)]),
    (3, &[(2, 1)]),
    (3, &[(3, 255)]),
    (4, &[(16, 1)]),
    (5, &[(127, 1)]),
    // no point of the plane
    (1, &[(10, 1)]),
    (5, &[(1, 4)]),
    (5, &[(1, 0), (11, 0)]),
    // an id that another slot has
    (2, &[(7, 1)]),
];

/// The first byte of the first slot.
const SLOTS_AT: usize = 43_520;

/// The slot of the point with the id in collection 0, if there is one.
fn slot_of(image: &[u8], id: u8) -> Option<u8> {
    for slot in 0..100u8 {
        let at = SLOTS_AT + 128 * slot as usize;
        if image.get(at..at + 8) == Some([0, 8, 0, 0, 0, 0, 0, id].as_slice()) {
            return Some(slot);
        }
    }
    None
}

/// Whether these bytes of the point's slot break the rule of slots, and its page is named.
fn breaks_slot(alloc: Global, image: &[u8], id: u8, bytes: &[(usize, u8)]) -> Result<bool, Fail> {
    let Some(slot) = slot_of(image, id) else {
        return Ok(false);
    };
    let changed = changed(alloc, image, SLOTS_AT + 128 * slot as usize, bytes)?;
    let status = Status::Damaged {
        page: 85 + u32::from(slot) / 4,
        rule: Rule::Slot,
    };
    opens_so(alloc, &changed, status)
}

#[test]
fn slots_that_are_damaged(rt: HostRuntime) -> Result<(), Fail> {
    let image = five_points(rt.alloc())?;
    for (id, bytes) in SLOT_CHANGES {
        assert!(rt;
            breaks_slot(rt.alloc(), image.as_slice(), id, bytes)?,
            "{id} {bytes:?}"
        );
    }
    Ok(())
}
