/// The optional abilities of a driver: one field for each optional interface of Go's package `driver`.
/// `fast_exec` is ExecerContext, `fast_query` QueryerContext, `begin_options` ConnBeginTx, `named` the support
/// of named parameters, `pinger` Pinger, `resetter` SessionResetter and `validator` Validator.
#[derive(Clone, Copy)]
pub struct Caps {
    pub fast_exec: bool,
    pub fast_query: bool,
    pub begin_options: bool,
    pub named: bool,
    pub pinger: bool,
    pub resetter: bool,
    pub validator: bool,
}
