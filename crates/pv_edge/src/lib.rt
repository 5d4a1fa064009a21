//! Where files come from and where output goes, and what reads one file whole or puts bytes out whole.
#![tactic(auto)]

mod finding;
mod laws;
mod line_fault;
mod lines;
mod loading;
mod mem_shelf;
mod mem_sink;
mod retrying;
mod shelf;
mod sink;
mod std_shelf;
mod std_sink;
mod window;

pub use laws::lines_are_handed_out_in_order;
pub use line_fault::LineFault;
pub use lines::{Lines, Next};
pub use loading::{LoadFault, load};
pub use mem_shelf::{MemShelf, PutFault};
pub use mem_sink::MemSink;
pub use shelf::{Failed, Shelf};
pub use sink::{Sink, put_all};
pub use std_shelf::StdShelf;
pub use std_sink::StdSink;
