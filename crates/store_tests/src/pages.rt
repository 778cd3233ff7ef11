//! The texts of the errors, and pages in memory.
use page_laws::{PageError, Pages, PlainPages, Rule, TreeError};
use std::test::Fail;

#[test]
fn errors_have_texts(rt: HostRuntime) -> Result<(), Fail> {
    let damaged = TreeError::Damaged {
        page: 7,
        rule: Rule::Node,
    };
    for (text, want) in [
        (
            format!(in rt.alloc(); "{}", PageError::Fault)?,
            "page fault",
        ),
        (
            format!(in rt.alloc(); "{}", PageError::Memory)?,
            "out of memory",
        ),
        (
            format!(in rt.alloc(); "{}", TreeError::from(PageError::Fault))?,
            "page fault",
        ),
        (
            format!(in rt.alloc(); "{damaged}")?,
            "damaged page 7 rule node",
        ),
    ] {
        assert!(rt; text.as_str() == want);
    }
    Ok(())
}

#[test]
fn what_is_put_is_given(rt: HostRuntime) -> Result<(), Fail> {
    let mut pages = PlainPages::new(rt.alloc(), 90, 86)?;
    let mut page = [1; 512];
    pages.get(89, &mut page)?;
    assert!(rt; page == [0; 512]);
    pages.put(89, &[7; 512]);
    pages.get(89, &mut page)?;
    assert!(rt; page == [7; 512]);
    Ok(())
}

#[test]
fn pages_are_taken_and_given_back(rt: HostRuntime) -> Result<(), Fail> {
    let mut pages = PlainPages::new(rt.alloc(), 90, 86)?;
    let n = pages.take_page();
    assert!(rt; pages.is_live(n));
    assert_eq!(rt; pages.free_pages(), 3);
    pages.give_page(n);
    assert!(rt; !pages.is_live(n));
    assert_eq!(rt; pages.free_pages(), 4);
    Ok(())
}
