//! The texts of the driver's failures.

pub const NO_SUCH_HANDLE: &str = "mem: no such handle";

pub(crate) const NO_SUCH_STATEMENT: &str = "mem: no such statement";

pub(crate) const NOT_A_COMMAND: &str = "mem: not a command";

pub(crate) const NOT_A_QUERY: &str = "mem: not a query";

pub(crate) const WRONG_ARGUMENTS: &str = "mem: arguments";

pub(crate) const KEY_IS_NOT_TEXT: &str = "mem: key is not text";

pub(crate) const NOT_A_NUMBER: &str = "mem: not a number";

pub(crate) const OUT_OF_RANGE: &str = "mem: out of range";

pub(crate) const IN_TRANSACTION: &str = "mem: in transaction";

pub const NO_TRANSACTION: &str = "mem: no transaction";

pub const NUMBERS_SPENT: &str = "mem: numbers spent";
