//! Laws of things with numbers. Each law is the contract of a function that does nothing.
ghost use Rattle.dsql_value_numbered.specs.Laws.{ChangesOneNumber, ChangesEach};

/// What is made or changed is the thing of that number, and no other.
#[tactic(auto, using(crate::proofs::Numbers::changes_one_number))]
pub fn changes_of_one_number<T>()
    ensures { ChangesOneNumber T }
{}

/// A change of all things changes each for itself.
#[tactic(auto, using(crate::proofs::Numbers::changes_each))]
pub fn changes_of_each_number<T>()
    ensures { ChangesEach T }
{}
