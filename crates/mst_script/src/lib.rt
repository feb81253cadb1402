//! Scripts: the lines of a source, asked of the passes of a store, and answered into a sink.
//!
//! ```
//! let mut source = BytesSource::new(b"1 put 616263 78\n2 get 616263\n2 rows\n");
//! let mut sink = BytesSink::new(alloc, 100)?;
//! run(alloc, &mut source, &mut sink, &store, &mut passes)?;
//! sink.bytes()     // "none\nsome 78\nrows 2\n"
//! ```
//!
//! [`run`] settles all passes before the first line and after each, so that a line is answered as
//! by one machine over one map and the pins (`specs/Machine.antt`, and for whole runs
//! `specs/Scripts.antt`). What a line may ask is in `mst_requests`.
//!
//! The passes work in turns in one thread: that no line is then answered `busy` is tested, not
//! proved. A pin lasts until its `unpin`, or to the end of the run.
#![tactic(auto)]

mod asking;
mod laws;
mod passes;
mod recalling;
mod script;
mod serve;

pub use laws::script_laws;
pub use mst_devices::{BytesSink, BytesSource, Device, Sink, Source, StdSink, StdSource};
pub use script::{RunFault, run};
