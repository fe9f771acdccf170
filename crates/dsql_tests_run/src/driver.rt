//! A driver that takes its answers from a report.
ghost use Rattle.std.specs.Prelude.{◌≡◌, ℕ, Bool, List, None, Some, true, false, length, IfOk, IfErr};
ghost use Rattle.dsql_value.specs.declared.value.Param.{Param};
ghost use Rattle.dsql_driver.specs.declared.answer.DriverAnswer.{DriverAnswer};
ghost use Rattle.dsql_driver.specs.declared.call.DriverCall.TheVariants.{Prepare, Query};
ghost use Rattle.dsql_driver.specs.declared.call.Input.{Input};
ghost use Rattle.dsql_tests_run.specs.Live.{live_of, cursors_of};
ghost use Rattle.dsql_driver.specs.Fits.{fits_of};
ghost use Rattle.dsql_driver.specs.Wires.{KeepsHandles, KeepsCursors};

use dsql_driver::{Answered, Caps, DriverAnswer, DriverCall, Fleet, Input, Planned, Refused, Wire};
use dsql_value::{Columns, Items, Memory, Txt, Value, Values};
use std::alloc::Global;

/// What the driver can do if a script asks for no other abilities.
const CAPS: Caps = Caps {
    fast_exec: true,
    fast_query: true,
    begin_options: true,
    named: false,
    pinger: true,
    resetter: true,
    validator: true,
};

/// An answer of the driver.
#[derive(Clone, Copy)]
enum ToldAnswer {
    Done,
    /// A result: one entry was affected.
    Ran,
    Skip,
    /// A handle for a statement with so many inputs.
    Gave(u8),
    /// A cursor with the one column `value`.
    Cursor,
    /// A row with the number 1.
    Row,
    End,
    Invalid,
    Bad,
    /// A failure with the text `boom`.
    Boom,
}

/// A driver that answers each call as a report says of the same connection. After the report says no more, it
/// answers that there is no memory. A connection gives one handle and one cursor.
#[derive(Drop)]
pub(super) struct ToldFleet<'a> {
    alloc: Global,
    caps: Caps,
    report: &'a str,
}

/// A connection of such a driver.
#[derive(Drop)]
pub(super) struct ToldWire {
    alloc: Global,
    answers: Vec<ToldAnswer>,
    /// How many of its answers it gave.
    given: usize,
    /// Whether it gave its handle, whose number is 1.
    prepared: bool,
    /// Whether it gave its cursor, whose number is 1.
    opened: bool,
}

/// How an entry of a report ends, and which answer that is.
const ANSWERS: [(&str, ToldAnswer); 11] = [
    ("\"done\"]]", ToldAnswer::Done),
    ("\"result\",0,1]]", ToldAnswer::Ran),
    ("\"skip\"]]", ToldAnswer::Skip),
    ("\"prepared\",1,1]]", ToldAnswer::Gave(1)),
    ("\"prepared\",1,2]]", ToldAnswer::Gave(2)),
    ("\"cursor\",1,[\"value\"]]]", ToldAnswer::Cursor),
    ("\"row\",[1]]]", ToldAnswer::Row),
    ("\"end\"]]", ToldAnswer::End),
    ("\"invalid\"]]", ToldAnswer::Invalid),
    ("\"bad\"]]", ToldAnswer::Bad),
    ("\"fail\",\"boom\"]]", ToldAnswer::Boom),
];

/// Returns the answer of an entry of a report that ends like this.
fn told_answer(end: &str) -> Option<ToldAnswer> {
    for (told, answer) in ANSWERS {
        if told == end {
            return Some(answer);
        }
    }
    None
}

/// Returns the answers that a connection gave according to a report.
fn answers_of(alloc: Global, report: &str, number: u32) -> Result<Vec<ToldAnswer>, Memory> {
    let head = format!(in alloc; "[\"heard\",{number},")?;
    let mut answers = Vec::new(alloc);
    for line in report.lines() {
        if line.starts_with(head.as_str()) {
            if let Some((_, end)) = line.rsplit_once("],[") {
                if let Some(told) = told_answer(end) {
                    answers.push(told)?;
                }
            }
        }
    }
    Ok(answers)
}

fn no_memory() -> Answered
    ensures { result ≡ record { answer = DriverAnswer.Memory; copy = DriverAnswer.Memory } }
{
    Answered {
        answer: DriverAnswer::Memory,
        copy: DriverAnswer::Memory,
    }
}

fn boom(alloc: Global) -> Result<Txt, Memory> {
    Txt::copy_of(alloc, "boom")
}

fn one_column(alloc: Global) -> Result<Columns, Memory>
    ensures { IfOk result (λ columns. length columns ≡ 1) }
{
    let value = Txt::copy_of(alloc, "value")?;
    Ok(Items::new(vec![in alloc; value]?))
}

fn one_value(alloc: Global) -> Result<Values, Memory>
    ensures { IfOk result (λ values. length values ≡ 1) }
{
    Ok(Items::new(vec![in alloc; Value::Int(1)]?))
}

/// Returns the answer to a call that reads rows, except for the answer with its cursor. It knows no other
/// calls.
fn row_answer_of(alloc: Global, call: &DriverCall, told: ToldAnswer) -> Result<DriverAnswer, Memory>
    ensures fitting { IfOk result (λ answer. fits_of call.now answer ≡ true) }
    ensures handles { (live : List ℕ) → IfOk result (λ answer. KeepsHandles call.now answer live live) }
    ensures cursors { (opened : Bool)
        → IfOk result (λ answer. KeepsCursors call.now answer (cursors_of opened) (cursors_of opened)) }
{
    Ok(match call {
        DriverCall::Query(Input::Text(_), _) => match told {
            ToldAnswer::Skip => DriverAnswer::Skip,
            ToldAnswer::Bad => DriverAnswer::Bad,
            ToldAnswer::Boom => DriverAnswer::Fail(boom(alloc)?),
            _ => DriverAnswer::Memory,
        },
        DriverCall::Next(_) => match told {
            ToldAnswer::Row => DriverAnswer::Row(one_value(alloc)?),
            ToldAnswer::End => DriverAnswer::End,
            ToldAnswer::Bad => DriverAnswer::Bad,
            ToldAnswer::Boom => DriverAnswer::Fail(boom(alloc)?),
            _ => DriverAnswer::Memory,
        },
        DriverCall::CloseRows(_) => match told {
            ToldAnswer::Done => DriverAnswer::Done,
            ToldAnswer::Bad => DriverAnswer::Bad,
            ToldAnswer::Boom => DriverAnswer::Fail(boom(alloc)?),
            _ => DriverAnswer::Memory,
        },
        _ => DriverAnswer::Memory,
    })
}

/// Returns the answer to a call, except for the answers with its handle and its cursor. It knows only the calls
/// that an exec, a one or a query makes.
fn answer_of(alloc: Global, call: &DriverCall, told: ToldAnswer) -> Result<DriverAnswer, Memory>
    ensures fitting { IfOk result (λ answer. fits_of call.now answer ≡ true) }
    ensures handles { (live : List ℕ) → IfOk result (λ answer. KeepsHandles call.now answer live live) }
    ensures cursors { (opened : Bool)
        → IfOk result (λ answer. KeepsCursors call.now answer (cursors_of opened) (cursors_of opened)) }
{
    Ok(match call {
        DriverCall::Reset | DriverCall::CloseStmt(_) | DriverCall::Shut => match told {
            ToldAnswer::Done => DriverAnswer::Done,
            ToldAnswer::Bad => DriverAnswer::Bad,
            ToldAnswer::Boom => DriverAnswer::Fail(boom(alloc)?),
            _ => DriverAnswer::Memory,
        },
        DriverCall::Exec(Input::Text(_), _) => match told {
            ToldAnswer::Ran => DriverAnswer::Result {
                last: 0,
                affected: 1,
            },
            ToldAnswer::Skip => DriverAnswer::Skip,
            ToldAnswer::Bad => DriverAnswer::Bad,
            ToldAnswer::Boom => DriverAnswer::Fail(boom(alloc)?),
            _ => DriverAnswer::Memory,
        },
        DriverCall::Exec(Input::Handle(_), _) => match told {
            ToldAnswer::Ran => DriverAnswer::Result {
                last: 0,
                affected: 1,
            },
            ToldAnswer::Bad => DriverAnswer::Bad,
            ToldAnswer::Boom => DriverAnswer::Fail(boom(alloc)?),
            _ => DriverAnswer::Memory,
        },
        DriverCall::Prepare(_) | DriverCall::Query(Input::Handle(_), _) => match told {
            ToldAnswer::Bad => DriverAnswer::Bad,
            ToldAnswer::Boom => DriverAnswer::Fail(boom(alloc)?),
            _ => DriverAnswer::Memory,
        },
        DriverCall::Valid => match told {
            ToldAnswer::Done => DriverAnswer::Done,
            ToldAnswer::Invalid => DriverAnswer::Invalid,
            _ => DriverAnswer::Memory,
        },
        _ => return row_answer_of(alloc, call, told),
    })
}

impl ToldWire {
    /// Returns the next answer, if there is one.
    fn next(&mut self) -> Option<ToldAnswer>
        ensures prepared { self.new.prepared ≡ self.old.prepared }
        ensures opened { self.new.opened ≡ self.old.opened }
    {
        let told = self.answers.get(self.given).copied();
        self.given = self.given.saturating_add(1);
        told
    }

    /// Gives the handle if it wasn't given yet.
    fn give(&mut self, inputs: u8) -> Answered
        ensures copied { result.copy ≡ result.answer }
        ensures fitting { (text : List ℕ) → fits_of (Prepare text) result.answer ≡ true }
        ensures handles { (text : List ℕ) → KeepsHandles (Prepare text) result.answer (live_of self.old.prepared)
            (live_of self.new.prepared) }
        ensures cursors { (text : List ℕ) → KeepsCursors (Prepare text) result.answer (cursors_of self.old.opened)
            (cursors_of self.new.opened) }
    {
        if self.prepared {
            return no_memory();
        }
        self.prepared = true;
        let inputs = i32::from(inputs);
        Answered {
            answer: DriverAnswer::Prepared { handle: 1, inputs },
            copy: DriverAnswer::Prepared { handle: 1, inputs },
        }
    }

    /// Gives the cursor if it wasn't given yet.
    fn open(&mut self) -> Result<Answered, Memory>
        ensures copied { IfOk result (λ answered. answered.copy ≡ answered.answer) }
        ensures fitting { (input : Input) (params : List Param)
            → IfOk result (λ answered. fits_of (Query input params) answered.answer ≡ true) }
        ensures handles { (input : Input) (params : List Param)
            → IfOk result (λ answered. KeepsHandles (Query input params) answered.answer
            (live_of self.old.prepared) (live_of self.new.prepared)) }
        ensures cursors { (input : Input) (params : List Param)
            → IfOk result (λ answered. KeepsCursors (Query input params) answered.answer
            (cursors_of self.old.opened) (cursors_of self.new.opened)) }
        ensures prepared { IfErr result (λ _. self.new.prepared ≡ self.old.prepared) }
        ensures opened { IfErr result (λ _. self.new.opened ≡ self.old.opened) }
    {
        if self.opened {
            return Err(Memory);
        }
        let columns = one_column(self.alloc)?;
        let copy = columns.clone()?;
        self.opened = true;
        Ok(Answered {
            answer: DriverAnswer::Cursor { rows: 1, columns },
            copy: DriverAnswer::Cursor {
                rows: 1,
                columns: copy,
            },
        })
    }

    fn answer_twice(&mut self, call: &DriverCall) -> Result<Answered, Memory>
        ensures copied { IfOk result (λ answered. answered.copy ≡ answered.answer) }
        ensures fitting { IfOk result (λ answered. fits_of call.now answered.answer ≡ true) }
        ensures handles { IfOk result (λ answered. KeepsHandles call.now answered.answer (live_of self.old.prepared)
            (live_of self.new.prepared)) }
        ensures cursors { IfOk result (λ answered. KeepsCursors call.now answered.answer (cursors_of self.old.opened)
            (cursors_of self.new.opened)) }
        ensures prepared { IfErr result (λ _. self.new.prepared ≡ self.old.prepared) }
        ensures opened { IfErr result (λ _. self.new.opened ≡ self.old.opened) }
    {
        let Some(told) = self.next() else {
            return Err(Memory);
        };
        if let DriverCall::Prepare(_) = call {
            if let ToldAnswer::Gave(inputs) = told {
                return Ok(self.give(inputs));
            }
        }
        if let DriverCall::Query(_, _) = call {
            if let ToldAnswer::Cursor = told {
                return self.open();
            }
        }
        let answer = answer_of(self.alloc, call, told)?;
        let copy = answer.clone()?;
        Ok(Answered { answer, copy })
    }
}

impl Wire for ToldWire {
    ghost told = { λ _. None };

    ghost faults = { λ _. 18446744073709551615 };

    ghost handles = { λ w. live_of w.prepared };

    ghost cursors = { λ w. cursors_of w.opened };

    fn call(&mut self, call: &DriverCall) -> Answered {
        match self.answer_twice(call) {
            Ok(answered) => answered,
            Err(Memory) => no_memory(),
        }
    }

    fn plan(&mut self, _nth: u32, _what: Planned) -> Result<(), Memory> {
        Ok(())
    }
}

impl<'a> ToldFleet<'a> {
    /// Returns a driver that answers as this report says.
    pub(super) fn new(alloc: Global, report: &'a str) -> ToldFleet<'a> {
        ToldFleet {
            alloc,
            caps: CAPS,
            report,
        }
    }

    fn opened(&self, number: u32) -> Result<ToldWire, Memory>
        ensures prepared { IfOk result (λ w. w.prepared ≡ false) }
        ensures opened { IfOk result (λ w. w.opened ≡ false) }
    {
        Ok(ToldWire {
            alloc: self.alloc,
            answers: answers_of(self.alloc, self.report, number)?,
            given: 0,
            prepared: false,
            opened: false,
        })
    }
}

impl<'a> Fleet for ToldFleet<'a> {
    type Wire = ToldWire;

    ghost ability = { λ f. f.caps };

    ghost preferred = { λ f. record { last = Some f.caps; times = 18446744073709551615 } };

    ghost told = { λ _. None };

    ghost faults = { λ _. 18446744073709551615 };

    fn caps(&self) -> Caps {
        self.caps
    }

    fn prefer(&mut self, caps: Caps) {
        self.caps = caps;
    }

    fn plan(&mut self, _wire: u32, _nth: u32, _what: Planned) -> Result<(), Memory> {
        Ok(())
    }

    fn connect(&mut self, number: u32) -> Result<ToldWire, Refused> {
        let Ok(mut wire) = self.opened(number) else {
            return Err(Refused::Memory);
        };
        match wire.next() {
            Some(ToldAnswer::Done) => Ok(wire),
            Some(ToldAnswer::Bad) => Err(Refused::Bad),
            Some(ToldAnswer::Boom) => match boom(self.alloc) {
                Ok(text) => Err(Refused::Fail(text)),
                Err(Memory) => Err(Refused::Memory),
            },
            _ => Err(Refused::Memory),
        }
    }

    fn retire(&mut self, _number: u32, _wire: ToldWire) {}
}
