use dsql_value::{Txt, Value};

/// A key with the value that it had before a write, if it had one.
#[derive(Drop)]
pub struct Note {
    pub key: Txt,
    pub value: Option<Value>,
}
