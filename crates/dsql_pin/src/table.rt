ghost use Rattle.std.specs.Prelude.{◌≡◌, ◌+◌, ◌≤◌, [], ◌∷◌, ◌++◌, length, Some, true, false, OnOk, OnErr};
ghost use Rattle.std.specs.Option.{option_map};

use crate::end::{ConnDone, PinEnd};
use crate::pin::Pin;
use dsql_value::Memory;
use indexmap::IndexMap;
use std::alloc::Global;
use std::marker::Model;

/// The pins that were made. Contracts see them with their numbers, in the order in which they were made, and
/// see for how many more calls there is memory.
#[derive(Drop)]
pub struct Pins {
    pins: IndexMap<u32, Pin>,
}

impl Model for Pins {
    ghost use Rattle.indexmap.specs.IndexMap.{spare};
    ghost use Rattle.dsql_pin.specs.Pinned.{Pinned};

    ghost Value = { Pinned };

    ghost view = { λ t. record { pins = t.pins.entries; spare = spare t.pins } };
}

impl Pins {
    ghost use Rattle.dsql_value_numbered.specs.Numbered.{thing_of, was_made, changed, all_changed};
    ghost use Rattle.dsql_pin.specs.Pinned.{pin_on, ended_by, admitted, with_one_more, with_one_fewer, is_free, HasRoom, HoldsSome};
    ghost use Rattle.dsql_pin.specs.declared.end.PinEnd.TheVariants.{EndOfRun};

    /// Returns a table without pins. It takes no memory.
    pub fn new(alloc: Global) -> Pins
        ensures { result.pins ≡ [] }
    {
        Pins {
            pins: IndexMap::new(alloc),
        }
    }

    /// Reserves memory for this many more calls.
    pub fn reserve(&mut self, calls: u32) -> Result<(), Memory>
        ensures ok { OnOk result (calls ≤ self.new.spare) }
        ensures pins { self.new.pins ≡ self.old.pins }
        ensures spare { self.old.spare ≤ self.new.spare }
    {
        self.pins.reserve(calls as usize)?;
        Ok(())
    }

    /// Returns the number of pins that were made.
    pub fn held(&self) -> u64
        ensures { result ≡ length self.now.pins }
    {
        self.pins.len() as u64
    }

    /// Returns true if a pin was made under that number.
    pub fn was_made(&self, n: u32) -> bool
        ensures { result ≡ was_made n self.now.pins }
    {
        self.pins.contains_key(&n)
    }

    /// Pins a connection under that number.
    pub fn pin(&mut self, n: u32, conn: u32) -> Result<(), Memory>
        requires { was_made n self.old.pins ≡ false }
        ensures ok { OnOk result (self.new.pins ≡ self.old.pins ++ (n, pin_on conn) ∷ []) }
        ensures full { OnErr result (self.old.spare ≡ 0) }
        ensures err { OnErr result (self.new.pins ≡ self.old.pins) }
        ensures spare { self.old.spare ≤ self.new.spare + 1 }
    {
        let pin = Pin {
            conn,
            holds: 0,
            ended: None,
        };
        self.pins.insert(n, pin)?;
        Ok(())
    }

    /// Fails with `ConnDone` if something has ended the pin, so that a call on it can't go on. This takes no
    /// memory, and neither does any function below.
    pub fn admit(&self, n: u32) -> Result<(), ConnDone>
        requires { was_made n self.now.pins ≡ true }
        ensures { Some result ≡ option_map admitted (thing_of n self.now.pins) }
    {
        self.made(n).admit()
    }

    /// Ends the pin, or fails with `ConnDone` if something has already ended it: the first end is kept. What
    /// the pin holds goes on.
    pub fn close(&mut self, n: u32, by: PinEnd) -> Result<(), ConnDone>
        requires { was_made n self.old.pins ≡ true }
        ensures admits { Some result ≡ option_map admitted (thing_of n self.old.pins) }
        ensures pins { self.new.pins ≡ changed (ended_by by) n self.old.pins }
        ensures spare { self.new.spare ≡ self.old.spare }
    {
        match self.pins.get_mut(&n) {
            Some(pin) => pin.close(by),
            None => unreachable!(),
        }
    }

    /// Ends all pins that nothing has ended, at the end of the run.
    pub fn close_all(&mut self)
        ensures pins { self.new.pins ≡ all_changed (ended_by EndOfRun) self.old.pins }
        ensures spare { self.new.spare ≡ self.old.spare }
    {
        for index in 0..self.pins.len() {
            let _ = self.pins[index].close(PinEnd::EndOfRun);
        }
    }

    /// Makes the pin hold one more rows or transaction.
    pub fn hold(&mut self, n: u32)
        requires made { was_made n self.old.pins ≡ true }
        requires room { HasRoom n self.old.pins }
        ensures pins { self.new.pins ≡ changed with_one_more n self.old.pins }
        ensures spare { self.new.spare ≡ self.old.spare }
    {
        match self.pins.get_mut(&n) {
            Some(pin) => pin.hold(),
            None => unreachable!(),
        }
    }

    /// Makes the pin hold one fewer.
    pub fn release(&mut self, n: u32)
        requires made { was_made n self.old.pins ≡ true }
        requires some { HoldsSome n self.old.pins }
        ensures pins { self.new.pins ≡ changed with_one_fewer n self.old.pins }
        ensures spare { self.new.spare ≡ self.old.spare }
    {
        match self.pins.get_mut(&n) {
            Some(pin) => pin.release(),
            None => unreachable!(),
        }
    }

    /// Returns the number of rows and transactions that the pin holds.
    pub fn holds(&self, n: u32) -> u32
        requires { was_made n self.now.pins ≡ true }
        ensures { Some result ≡ option_map (λ pin. pin.holds) (thing_of n self.now.pins) }
    {
        self.made(n).holds
    }

    /// Returns true if the pin holds nothing, so that it may be closed.
    pub fn may_close(&self, n: u32) -> bool
        requires { was_made n self.now.pins ≡ true }
        ensures { Some result ≡ option_map is_free (thing_of n self.now.pins) }
    {
        self.made(n).holds == 0
    }

    /// Returns the connection that is pinned.
    pub fn conn(&self, n: u32) -> u32
        requires { was_made n self.now.pins ≡ true }
        ensures { Some result ≡ option_map (λ pin. pin.conn) (thing_of n self.now.pins) }
    {
        self.made(n).conn
    }

    fn made(&self, n: u32) -> &Pin
        requires { was_made n self.now.pins ≡ true }
        ensures { Some result.now ≡ thing_of n self.now.pins }
    {
        self.pins.get(&n).unwrap()
    }
}
