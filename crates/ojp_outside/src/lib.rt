//! What the programs meet outside: sources, sinks and stores of bytes, doors and clocks, as traits
//! with forms in memory and adapters over `std`.
#![tactic(auto)]

mod clock;
mod connections;
mod doors;
mod file_store;
mod mem_clock;
mod mem_doors;
mod mem_sink;
mod mem_source;
mod mem_store;
mod plan;
mod reading;
mod sink;
mod source;
mod std_clock;
mod std_sink;
mod std_source;
mod store;
mod tcp_doors;
mod wanted;

pub use clock::Clock;
pub use doors::{DoorRefused, Doors};
pub use file_store::FileStore;
pub use mem_clock::MemClock;
pub use mem_doors::MemDoors;
pub use mem_sink::MemSink;
pub use mem_source::MemSource;
pub use mem_store::MemStore;
pub use reading::{SourceRefused, read_all};
pub use sink::{Sink, WriteFault, put_all, put_parts};
pub use source::{Failed, Source};
pub use std_clock::StdClock;
pub use std_sink::StdSink;
pub use std_source::StdSource;
pub use store::{FILE_LIMIT, Store, StoreRefused};
pub use tcp_doors::{TcpDoors, Untold};
