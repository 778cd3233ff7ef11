//! The laws, and the errors in words.
use redo_journal::{
    DiskFault, Field, GrowError, RecoverError, StageError, home_is_redone, home_survives,
    staging_joins_one, staging_lays_one,
};
use std::test::Fail;

#[test]
fn laws_and_errors(rt: HostRuntime) -> Result<(), Fail> {
    home_survives();
    home_is_redone();
    staging_joins_one();
    staging_lays_one();
    let texts = [
        (format!(in rt.alloc(); "{}", DiskFault)?, "disk fault"),
        (
            format!(in rt.alloc(); "{}", RecoverError::DiskFault)?,
            "disk fault",
        ),
        (
            format!(in rt.alloc(); "{}", RecoverError::BadHeader(Field::Count(0)))?,
            "bad journal header",
        ),
        (
            format!(in rt.alloc(); "{}", StageError::TooMany)?,
            "too many pages in a change",
        ),
        (
            format!(in rt.alloc(); "{}", GrowError::Memory)?,
            "out of memory",
        ),
    ];
    for (text, expected) in &texts {
        assert!(rt; text.as_str() == *expected);
    }
    Ok(())
}
