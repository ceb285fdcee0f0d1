// What the programs over recorded calls share: records read from a file's bytes, the memory that a call is lent, and
// the report of how many records differ.
#![tactic(auto)]

mod file;
mod lent;
mod number;
mod reader;
mod refused;
mod tally;
mod values;
mod workspace;

pub use file::read_file;
pub use lent::{Lent, changed, holds_by_pattern, lend};
pub use number::{ByPattern, Number};
pub use reader::{Reader, Record, RecordError, Records};
pub use refused::{Outcome, Refused, outcome_if_lent, outcome_of};
pub use tally::{Tally, report};
pub use values::holds;
pub use workspace::{Held, Workspace, WorkspaceSize};
