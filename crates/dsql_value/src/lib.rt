//! The values that go to a driver and come back from it, as in Go's type `driver.Value`. The arguments of callers
//! become such values. It also holds the text, byte and list types that every other crate names.
#![tactic(auto)]

mod arg;
mod check;
mod items;
pub mod laws;
mod memory;
mod text;
mod value;

pub use arg::{Arg, ArgFault, Args, Named};
pub use check::{check_args, driver_value};
pub use items::{Faithful, Items};
pub use memory::Memory;
pub use text::{Bin, Txt};
pub use value::{Columns, Param, Params, Value, Values};
