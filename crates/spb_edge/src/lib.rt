//! The outside of the store: where bytes come from and go to, and the lines of a stream.
//!
//! The content of a source, a sink or a disk may be known to contracts or not. Each clause on
//! content is about known content, and the clauses on faults hold of all.
#![tactic(auto)]

mod call_log;
mod contents;
mod disk;
mod endless_source;
mod lay;
mod mem_disk;
mod mem_sink;
mod mem_source;
mod memory;
mod reader;
mod seq;
mod sink;
mod source;
mod sure_disk;

pub use call_log::DiskCall;
pub use disk::{Disk, DiskError};
pub use endless_source::EndlessSource;
pub use mem_disk::{Choice, MemDisk};
pub use mem_sink::MemSink;
pub use mem_source::MemSource;
pub use memory::Memory;
pub use reader::{EdgeError, INPUT_LIMIT, Line, LineReader};
pub use seq::{Bytes, Ids, Seq};
pub use sink::{Put, Sink, WriteFault, put_all};
pub use source::{Source, Take};
pub use sure_disk::SureDisk;
