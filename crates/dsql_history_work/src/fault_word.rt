/// Why a value can't be scanned.
#[derive(Clone, Copy, Debug, PartialEq, Eq)]
pub enum FaultWord {
    FromNull,
    NotANumber,
    OutOfRange,
    NotABool,
    NotUtf8,
    Unsupported,
}
