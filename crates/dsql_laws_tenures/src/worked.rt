//! Worked tenures: examples of the laws and of their premises.
ghost use Rattle.dsql_laws_tenures.specs.Worked.{GivenAgain, NoPing, OpenedTwice, OutOfOrder, TwoReaders};
ghost use Rattle.dsql_laws_tenures.specs.WorkedBegins.{BadBefore, Begins, LeftOpen, NoTest, Numbered, TestedAtEnd};

/// Worked tenures of a transaction satisfy what the laws say. If a tenure breaks a premise, it also breaks what
/// the law says.
pub fn worked_tenures()
    ensures readers { TwoReaders }
    ensures again { GivenAgain }
    ensures twice { OpenedTwice }
    ensures order { OutOfOrder }
    ensures ping { NoPing }
{}

/// The same holds for worked tenures that begin a transaction, and for the test at the end of one.
pub fn worked_begins()
    ensures begins { Begins }
    ensures left_open { LeftOpen }
    ensures bad_before { BadBefore }
    ensures numbered { Numbered }
    ensures tested { TestedAtEnd }
    ensures no_test { NoTest }
{}
