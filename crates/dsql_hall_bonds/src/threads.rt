//! What a thread may hand to another one, and what threads may share.
use crate::cell::Cell;
use crate::keeper::{Bond, Keeper};
use crate::names::CellName;
use std::sync::Mutex;

fn crosses<T: Send>() {}

fn is_shared<T: Sync>() {}

/// Compiles only if a bond may go to another thread, and if threads may share a cell, and a keeper under a lock.
fn may_be_used_by_threads<C: CellName>() {
    crosses::<Bond<C>>();
    is_shared::<Cell>();
    is_shared::<Mutex<Keeper<C>>>();
}
