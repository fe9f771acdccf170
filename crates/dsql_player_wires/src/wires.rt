ghost use Rattle.std.specs.Prelude.{◌≡◌, ◌≢◌, ◌<◌, ◌⊎◌, ℕ, true, false, Bool, List, [], ◌∷◌, length, vec_len, ◌≤◌, ◌^◌, slice_set, Option, Some, None, is_some, IfOk, OnOk, OnErr, IsSome, IsSomeAnd};
ghost use Rattle.dsql_history.specs.driver.Fits.{is_memory};
ghost use Rattle.dsql_history.specs.driver.declared.caps.Caps.{Caps};
ghost use Rattle.dsql_history.specs.journal.HandlesAndCursors.{fits_at_its_place};
ghost use Rattle.dsql_tenure.specs.Judged.{answered};
ghost use Rattle.dsql_wire.specs.Journaled.{MayBeSent};
ghost use Rattle.dsql_history.specs.declared.event.Event.TheVariants.{Run};
ghost use Rattle.dsql_player_wires.specs.Asked.{LacksMemory};
ghost use Rattle.dsql_player_wires.specs.WiresFit.{slot, WiresFit, PlansFit, Hears, HearsEntry, HearsPlan, HearsPlanIn, SameHeard, SameWires, Wants};

use dsql_history::{Memory, Permit, Planned, Wire};
use dsql_wire::{Heard, ThinWire, WireFault};
use std::alloc::{AllocError, Global};
use std::marker::Model;

/// The wires of a run's connections with their judges, by connection number. A wire is retired and never
/// dropped. Contracts see the list of the slots.
pub struct Wires<W: Wire> {
    alloc: Global,
    slots: Vec<Option<ThinWire<W>>>,
}

impl<W: Wire> Model for Wires<W> {
    ghost use Rattle.std.specs.Prelude.{List, Option, ◌≤◌, ◌^◌, vec_len};
    ghost use Rattle.dsql_wire.specs.Journaled.{Journaled};

    ghost Value = { List (Option (Journaled W)) };

    ghost view = { λ w. w.slots.items };

    ghost invariant = { λ w. vec_len w.slots ≤ 2 ^ 32 };
}

impl<W: Wire> Wires<W> {
    /// Returns an empty table, which fits a run that has just begun. It takes no memory.
    pub fn new(alloc: Global) -> Wires<W>
        ensures empty { result ≡ [] }
        ensures fitting { (telling : Bool) (version : ℕ) (caps : Caps)
            → WiresFit W.told telling (Run version caps ∷ []) result }
        ensures unplanned { (version : ℕ) (caps : Caps) → PlansFit W.told [] (Run version caps ∷ []) result }
    {
        Wires {
            alloc,
            slots: Vec::new(alloc),
        }
    }

    /// Returns the allocator.
    pub(crate) fn alloc(&self) -> Global {
        self.alloc
    }

    /// Makes an empty slot for this connection if it has none.
    pub fn make_room(&mut self, number: u32) -> Result<(), AllocError>
        ensures room { OnOk result (number < length self.new) }
        ensures many { length self.old ≤ length self.new }
        ensures same { (c : ℕ) → slot self.new c ≡ slot self.old c }
    {
        while self.slots.len() <= number as usize {
            self.slots.reserve(1)?;
            self.slots.push_reserved(None);
        }
        Ok(())
    }

    /// Puts the wire of this connection into its slot, which is empty.
    pub fn put(&mut self, number: u32, wire: ThinWire<W>)
        requires room { number < length self.old }
        requires empty { slot self.old number ≡ None }
        ensures { self.new ≡ slice_set self.old number (Some wire) }
    {
        match self.slots[number as usize].replace(wire) {
            None => {}
            Some(_) => unreachable!(),
        }
    }

    /// Puts the wire of this connection into its slot, if there is one.
    pub fn put_any(&mut self, number: u32, wire: Option<ThinWire<W>>)
        requires room { number < length self.old }
        requires empty { slot self.old number ≡ None }
        ensures here { slot self.new number ≡ wire }
        ensures many { length self.new ≡ length self.old }
        ensures others { (c : ℕ) → c ≢ number → slot self.new c ≡ slot self.old c }
    {
        match wire {
            Some(wire) => self.put(number, wire),
            None => {}
        }
    }

    /// Takes the wire of this connection out of its slot, which is empty from then on.
    pub fn take(&mut self, number: u32) -> ThinWire<W>
        requires { IsSome (slot self.old number) }
        ensures wire { slot self.old number ≡ Some result }
        ensures after { self.new ≡ slice_set self.old number None }
    {
        self.slots[number as usize].take().unwrap()
    }

    /// Is true if there is a wire in the slot of this connection.
    pub fn has(&self, number: u32) -> bool
        ensures { result ≡ is_some (slot self.now number) }
    {
        match self.slots.get(number as usize) {
            Some(slot) => slot.is_some(),
            None => false,
        }
    }

    /// Plans a fault in place of the answer to the nth call on the wire of this connection.
    pub(crate) fn plan(&mut self, number: u32, nth: u32, what: Planned) -> Result<(), Memory>
        requires { IsSome (slot self.old number) }
        ensures planned { OnOk result (HearsPlanIn W.told (nth, what) (slot self.old number) (slot self.new number)) }
        ensures others { (c : ℕ) → c ≢ number → slot self.new c ≡ slot self.old c }
        ensures err { OnErr result (SameWires W.told self.old self.new) }
    {
        match &mut self.slots[number as usize] {
            Some(wire) => plan_on(wire, nth, what),
            None => unreachable!(),
        }
    }

    /// Returns the slots, in the order of connection numbers.
    pub(crate) fn into_slots(self) -> Vec<Option<ThinWire<W>>>
        ensures slots { result.items ≡ self }
        ensures few { vec_len result ≤ 2 ^ 32 }
    {
        let Wires { slots, alloc: _ } = self;
        slots
    }

    /// Makes one driver call on the wire of its connection. The wire's journal must let the call be sent. The driver is
    /// asked once. Only if the wire's judge has no room for the answer, and finds no memory for it, isn't it asked.
    pub fn perform(&mut self, permit: Permit) -> Result<Heard, Memory>
        requires { IsSomeAnd (slot self.old permit.conn) (λ w. MayBeSent w.conn w.journal permit) }
        ensures entry { IfOk result (λ heard. heard ≡ answered permit heard.answer) }
        ensures fits { IfOk result
            (λ heard. IsSomeAnd (slot self.old permit.conn) (λ w. fits_at_its_place w.journal heard ≡ true)) }
        ensures no_want { IfOk result (λ heard. is_memory heard.answer ≡ false) }
        ensures others { (c : ℕ) → c ≢ permit.conn → slot self.new c ≡ slot self.old c }
        ensures noted { IfOk result
            (λ heard. HearsEntry W.told heard (slot self.old permit.conn) (slot self.new permit.conn)) }
        ensures err { OnErr result (LacksMemory W.told permit self.old self.new) }
    {
        match &mut self.slots[permit.conn as usize] {
            Some(wire) => perform_on(wire, permit),
            None => unreachable!(),
        }
    }
}

/// Makes one driver call on a wire, which may be out of its slot. The wire's journal must let the call be sent. The
/// driver is asked once. Only if the wire's judge has no room for the answer, and finds no memory for it, isn't it
/// asked.
pub fn perform_on<W: Wire>(wire: &mut ThinWire<W>, permit: Permit) -> Result<Heard, Memory>
    requires { MayBeSent wire.old.conn wire.old.journal permit }
    ensures entry { IfOk result (λ heard. heard ≡ answered permit heard.answer) }
    ensures fits { IfOk result (λ heard. fits_at_its_place wire.old.journal heard ≡ true) }
    ensures no_want { IfOk result (λ heard. is_memory heard.answer ≡ false) }
    ensures noted { IfOk result (λ heard. Hears W.told heard wire.old wire.new) }
    ensures err { OnErr result
        (((wire.old.spare ≡ 0) × SameHeard W.told wire.old wire.new) ⊎ Wants W.told permit.call wire.old wire.new) }
{
    match wire.perform(permit) {
        Ok(heard) => Ok(heard),
        Err(WireFault::Memory(_)) => Err(Memory),
        Err(WireFault::Stray(_)) => unreachable!(),
    }
}

/// Plans a fault on a wire.
fn plan_on<W: Wire>(wire: &mut ThinWire<W>, nth: u32, what: Planned) -> Result<(), Memory>
    ensures planned { OnOk result (HearsPlan W.told (nth, what) wire.old wire.new) }
    ensures err { OnErr result (SameHeard W.told wire.old wire.new) }
{
    wire.plan(nth, what)
}
