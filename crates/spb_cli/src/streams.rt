//! The process's streams as a source and a sink.
//!
//! Nothing is known of the bytes that come and go. If the bytes of a reader or a writer are known,
//! clauses say what was read and written.
mod sink;
mod source;

pub use sink::StdSink;
pub use source::StdSource;

/// How often a call is made that signals interrupt. After that it has failed.
const MOST_TRIES: u32 = 1 << 20;
