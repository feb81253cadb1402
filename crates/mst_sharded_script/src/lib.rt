//! Scripts over a sharded map: the lines of a source, answered by the one writer of the map and by
//! a reader for each pass, into a sink.
//!
//! ```
//! let mut source = BytesSource::new(b"1 put 616263 78\n2 get 616263\n2 root\n");
//! let mut sink = BytesSink::new(alloc, 100)?;
//! let script = Script::open(&rt, alloc, splits, shape)?;     // of a shape with two passes
//! run(&rt, alloc, &mut source, &mut sink, script)?;
//! sink.bytes()     // "none\nsome 78\n" and the root digest of the whole map
//! ```
//!
//! The lines are those of `mst_requests`, and the number in front of a line is that of a pass. Each
//! line is answered by one call (`specs/Serving.antt`): a put, a remove and a batch are a block of
//! the writer each, whichever pass is asked; a `get` is one of the pass's reader; what else a pass
//! reads goes by a snapshot, the one that it has pinned or one for this line alone. A migration to
//! the other format opens a new map, loads all pairs as its block 1, and goes on over it.
//!
//! What is proved of a line is the contract of its call. That the answers of a whole script are
//! those of one store, but to `node` and `rows`, is tested, not proved.
#![tactic(auto)]

mod answer;
mod asking;
mod moving;
mod opening;
mod recalling;
mod script;
mod serve;
mod state;
mod writing;

pub use answer::ShardedAnswer;
pub use mst_devices::{BytesSink, BytesSource, Device, Sink, Source, StdSink, StdSource};
pub use mst_script::RunFault;
pub use opening::is_script_shape;
pub use script::run;
pub use state::Script;
