//! Profile pages, the records of pivots, and the errors.
use metrics_builtin::Space;
use page_laws::Root;
use spb_edge::Bytes;
use std::test::Fail;
use store_check::{
    CurveKind, Profile, ProfileFault, file_pages, pivot_page, read_pivot, read_profile,
    worked_sizes, write_profile,
};

/// The profile page of a store of points with two components from 0 to 255, over three pivots, for 65,536
/// objects, whose first collection has trees of heights 2 and 1.
fn page() -> [u8; 512] {
    let mut page = [0; 512];
    page[..24].copy_from_slice(&[
        0, 1, 1, 1, 3, 9, 0, 0, 0, 0, 0, 2, 0, 0, 0, 255, 0, 1, 0, 0, 0, 0, 0, 1,
    ]);
    page[32..48].copy_from_slice(&[0, 0, 64, 85, 2, 0, 0, 0, 0, 0, 64, 86, 1, 0, 0, 0]);
    page
}

/// That page with a byte changed.
fn page_with(at: usize, byte: u8) -> [u8; 512] {
    let mut page = page();
    if let Some(place) = page.get_mut(at) {
        *place = byte;
    }
    page
}

#[test]
fn a_profile_is_read_and_written(rt: HostRuntime) -> Result<(), Fail> {
    let none = Root { page: 0, height: 0 };
    let profile = Profile {
        space: Space::L1 { dim: 2, most: 255 },
        curve: CurveKind::Z,
        pivots: 3,
        bits: 9,
        cap: 65_536,
        roots: [
            Root {
                page: 16_469,
                height: 2,
            },
            none,
            none,
            none,
            Root {
                page: 16_470,
                height: 1,
            },
            none,
            none,
            none,
        ],
    };
    assert!(rt; read_profile(&page()) == Ok(profile));
    assert!(rt; write_profile(&profile) == page());
    Ok(())
}

#[test]
fn a_field_out_of_its_range(rt: HostRuntime) -> Result<(), Fail> {
    for (at, byte) in [
        (2, 5),
        (3, 0),
        (4, 0),
        (5, 8),
        (7, 1),
        (11, 31),
        (17, 2),
        (23, 2),
        (31, 1),
        (36, 6),
        (44, 0),
        (511, 1),
    ] {
        assert!(rt; read_profile(&page_with(at, byte)) == Err(ProfileFault::BadField));
    }
    Ok(())
}

#[test]
fn another_format(rt: HostRuntime) -> Result<(), Fail> {
    assert!(rt; read_profile(&page_with(0, 1)) == Err(ProfileFault::NoFormat));
    assert!(rt; format!(in rt.alloc(); "{}", ProfileFault::NoFormat)?.as_str() == "unknown format");
    assert!(rt;
        format!(in rt.alloc(); "{}", ProfileFault::BadField)?.as_str() == "bad profile field"
    );
    Ok(())
}

#[test]
fn a_pivot_is_read(rt: HostRuntime) -> Result<(), Fail> {
    let mut page = [0; 512];
    page[128..140].copy_from_slice(&[0, 4, 0, 0, 0, 0, 0, 0, 9, 8, 7, 6]);
    page[256] = 1;
    assert!(rt; read_pivot(&page, 1) == Some([9, 8, 7, 6].as_slice()));
    assert!(rt; read_pivot(&page, 2).is_none());
    assert!(rt; read_pivot(&page, 3) == Some([].as_slice()));
    Ok(())
}

#[test]
fn files_have_sizes(rt: HostRuntime) -> Result<(), Fail> {
    worked_sizes();
    assert_eq!(rt; file_pages(65_536), 33_985);
    Ok(())
}

#[test]
fn a_pivot_is_written_and_read(rt: HostRuntime) -> Result<(), Fail> {
    let pivots = [
        Bytes::of(rt.alloc(), &[1])?,
        Bytes::of(rt.alloc(), &[2, 3])?,
    ];
    let page = pivot_page(&pivots, 0);
    assert!(rt; page[..10] == [0, 1, 0, 0, 0, 0, 0, 0, 1, 0]);
    assert!(rt; read_pivot(&page, 1) == Some([2, 3].as_slice()));
    assert!(rt; pivot_page(&pivots, 4) == [0; 512]);
    Ok(())
}
