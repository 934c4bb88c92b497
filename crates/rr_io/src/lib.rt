//! Where operands come from and where the output goes: sources and sinks, in memory and of the system, texts that are put piece by
//! piece, and notes on standard error.
#![tactic(auto)]

mod host;
mod memory;
mod names;
mod not_run;
mod note;
mod sink;
mod source;
mod steady;
mod text;
mod write_fault;

pub use host::{HostSink, HostSource};
pub use memory::{MemorySink, MemorySource};
pub use not_run::NotRun;
pub use note::put_note;
pub use sink::{PutError, Sink};
pub use source::{FetchError, Source};
pub use steady::{SteadySink, SteadySource};
pub use text::Text;
pub use write_fault::WriteFault;
