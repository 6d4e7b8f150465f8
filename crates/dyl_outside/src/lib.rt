//! Everything that the program reads or writes, as four traits: files, a source of bytes, a sink of
//! bytes, and the clock with the random words. Objects in memory tell what they hold; adapters lead
//! to the real ones and tell nothing.
#![tactic(auto)]

mod ambient;
mod calls;
mod disk_files;
mod empty_source;
mod fault;
mod files;
mod held_files;
mod held_sink;
mod host_ambient;
mod mem_ambient;
mod mem_files;
mod mem_sink;
mod mem_source;
mod random_file;
mod room;
mod sink;
mod source;
mod stream_sink;
mod stream_source;

pub use ambient::Ambient;
pub use disk_files::DiskFiles;
pub use empty_source::EmptySource;
pub use fault::{FileFault, IoFault};
pub use files::Files;
pub use held_files::HeldFiles;
pub use held_sink::HeldSink;
pub use host_ambient::HostAmbient;
pub use mem_ambient::MemAmbient;
pub use mem_files::MemFiles;
pub use mem_sink::MemSink;
pub use mem_source::MemSource;
pub use sink::Sink;
pub use source::Source;
pub use stream_sink::StreamSink;
pub use stream_source::StreamSource;
