// The outside in memory, beside its traits: objects whose calls fail when they are told to, and text that is read without a fault.
mod calls;
mod clock;
mod dial;
mod disk;
mod link;
mod links;
mod pieces;
mod port;
mod sink;
mod source;
mod text;

pub use clock::MemClock;
pub use dial::MemDial;
pub use disk::MemDisk;
pub use link::MemLink;
pub use port::MemPort;
pub use sink::MemSink;
pub use source::MemSource;
pub use text::TextSource;

/// There was no memory for what a call had to make. A call answers so only when memory runs out, and only if it takes memory.
#[derive(Clone, Copy, Debug, PartialEq, Eq)]
pub struct NoMemory;
