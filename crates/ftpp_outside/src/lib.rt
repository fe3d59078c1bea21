//! Where bytes come from and go to: sources, sinks and shelves of files, in memory and in the system.
#![tactic(auto)]

mod mem_shelf;
mod mem_sink;
mod mem_source;
mod shelf;
mod sink;
mod source;
mod standard;
mod std_shelf;
mod steady;

pub use mem_shelf::MemShelf;
pub use mem_sink::MemSink;
pub use mem_source::MemSource;
pub use shelf::{Shelf, ShelfError};
pub use sink::{Sink, WriteFault, write_all};
pub use source::{InputError, ReadFault, Source, read_all};
pub use standard::{ReaderSource, StdSink, StdSource};
pub use std_shelf::StdShelf;
pub use steady::{SteadySink, SteadySource};
