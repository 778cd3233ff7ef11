//! The bytes of nodes.
use bptree_node::{Branch, Entry, read_node, write_inner, write_leaf};
use std::test::Fail;

/// An entry of the key 0x5555.
const ENTRY: Entry = Entry {
    key: 21_845,
    id: 1,
    slot: 0,
};

/// A page that is zero but for its first two bytes and one more.
fn page_with(kind: u8, count: u8, place: usize, byte: u8) -> [u8; 512] {
    let mut page = [0; 512];
    page[0] = kind;
    page[1] = count;
    if let Some(at) = page.get_mut(place) {
        *at = byte;
    }
    page
}

#[test]
fn the_bytes_of_a_leaf(rt: HostRuntime) -> Result<(), Fail> {
    let mut page = [255; 512];
    write_leaf(&[ENTRY], &mut page);
    assert!(rt; page[..2] == [1, 1]);
    assert!(rt; page[32..48] == [0, 0, 0, 0, 0, 0, 0x55, 0x55, 0, 0, 0, 1, 0, 0, 0, 0]);
    let node = read_node(&page)?;
    assert!(rt; node.is_leaf() && node.count() == 1);
    assert_eq!(rt; node.entry(0), ENTRY);
    Ok(())
}

#[test]
fn the_bytes_of_an_inner_node(rt: HostRuntime) -> Result<(), Fail> {
    let first = Branch {
        key: 1,
        id: 2,
        child: 3,
        low: 4,
        high: 5,
    };
    let second = Branch {
        key: 0x0102_0304_0506_0708,
        id: 0x090a_0b0c,
        child: 0x0d0e_0f10,
        low: 0x1112_1314_1516_1718,
        high: 0x191a_1b1c_1d1e_1f20,
    };
    let mut page = [255; 512];
    write_inner(&[first, second], &mut page);
    assert!(rt; page[..2] == [2, 2]);
    assert!(rt; page[32..48] == [0, 0, 0, 0, 0, 0, 0, 1, 0, 0, 0, 2, 0, 0, 0, 3]);
    assert!(rt; page[48..64] == [0, 0, 0, 0, 0, 0, 0, 4, 0, 0, 0, 0, 0, 0, 0, 5]);
    assert!(rt; page[64..80] == [1, 2, 3, 4, 5, 6, 7, 8, 9, 10, 11, 12, 13, 14, 15, 16]);
    assert!(rt;
        page[80..96]
            == [
                17, 18, 19, 20, 21, 22, 23, 24, 25, 26, 27, 28, 29, 30, 31, 32
            ]
    );
    let node = read_node(&page)?;
    assert!(rt; !node.is_leaf() && node.count() == 2);
    assert_eq!(rt; node.branch(1), second);
    Ok(())
}

#[test]
fn pages_that_are_no_node(rt: HostRuntime) -> Result<(), Fail> {
    for (kind, count, place, byte) in [
        (1, 0, 0, 1),
        (1, 31, 0, 1),
        (2, 1, 0, 2),
        (2, 15, 0, 2),
        (1, 1, 0, 0),
        (1, 1, 0, 3),
        (1, 1, 2, 128),
        (2, 2, 31, 1),
        (1, 1, 48, 1),
        (1, 1, 511, 1),
        (2, 2, 96, 128),
        (2, 14, 480, 1),
    ] {
        let page = page_with(kind, count, place, byte);
        assert!(rt; read_node(&page).is_err());
    }
    Ok(())
}

#[test]
fn pages_that_are_nodes(rt: HostRuntime) -> Result<(), Fail> {
    for (kind, count, place, byte) in [
        (1, 1, 47, 1),
        (1, 30, 511, 1),
        (2, 2, 95, 1),
        (2, 14, 479, 1),
    ] {
        let page = page_with(kind, count, place, byte);
        assert_eq!(rt; read_node(&page)?.count(), usize::from(count));
    }
    Ok(())
}
