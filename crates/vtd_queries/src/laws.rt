//! Laws of what texts answer. Each function does nothing; its contract is the law, which the check proves.

ghost use Rattle.std.specs.Prelude.{◌≡◌, ℕ, List, Result};
ghost use Rattle.xml_model.specs.Nest.{Forest};
ghost use Rattle.xml_model.specs.Tree.{Entry};
ghost use Rattle.xpath_grammar.specs.Tree.{Tree};
ghost use Rattle.xpath_values.specs.Values.{Meant};
ghost use Rattle.vtd_modifier.specs.declared.operation.Operation.{Operation};
ghost use Rattle.vtd_queries.specs.declared.faults.OperationFault.{OperationFault};
ghost use Rattle.vtd_queries.specs.declared.faults.QueryFault.{QueryFault};
ghost use Rattle.vtd_queries.specs.declared.operating.Operated.{Operated};
ghost use Rattle.vtd_queries.specs.Operations.{Operates};
ghost use Rattle.vtd_queries.specs.Questions.{Asks, AsksNodes};
ghost use Rattle.vtd_queries.specs.Readings.{Reads};

/// A text is at most one expression, or has at most one refusal.
#[tactic(auto, using(crate::proofs::Readings::one_reading))]
pub fn one_reading()
    ensures { (bound : List (List ℕ × List ℕ)) (text : List ℕ) (a b : Result Tree QueryFault) →
        Reads bound text a → Reads bound text b → a ≡ b }
{}

/// Any text is an expression or has a refusal: whether it splits into tokens is decided, and whether they derive
/// something.
#[tactic(auto, using(crate::proofs::Readings::some_reading))]
pub fn some_reading()
    ensures { (bound : List (List ℕ × List ℕ)) (text : List ℕ) →
        (a : Result Tree QueryFault) × Reads bound text a }
{}

/// A text has at most one answer on a document.
pub fn one_answer()
    ensures value { (bytes : List ℕ) (nest : Forest) (bound : List (List ℕ × List ℕ)) (text : List ℕ)
        (a b : Result Meant QueryFault) → Asks bytes nest bound text a → Asks bytes nest bound text b → a ≡ b }
    ensures nodes { (bytes : List ℕ) (nest : Forest) (bound : List (List ℕ × List ℕ)) (text : List ℕ)
        (a b : Result (List Entry) QueryFault) → AsksNodes bytes nest bound text a →
        AsksNodes bytes nest bound text b → a ≡ b }
{}

/// Any text has some answer on a document.
#[tactic(auto, using(crate::proofs::Answers::some_value, crate::proofs::Answers::some_list))]
pub fn some_answer()
    ensures value { (bytes : List ℕ) (nest : Forest) (bound : List (List ℕ × List ℕ)) (text : List ℕ) →
        (a : Result Meant QueryFault) × Asks bytes nest bound text a }
    ensures nodes { (bytes : List ℕ) (nest : Forest) (bound : List (List ℕ × List ℕ)) (text : List ℕ) →
        (a : Result (List Entry) QueryFault) × AsksNodes bytes nest bound text a }
{}

/// An operation on the nodes of a text has at most one answer on a document.
pub fn one_operation()
    ensures { (bytes : List ℕ) (nest : Forest) (bound : List (List ℕ × List ℕ)) (text : List ℕ)
        (operation : Operation) (a b : Result Operated OperationFault) →
        Operates bytes nest bound text operation a → Operates bytes nest bound text operation b → a ≡ b }
{}

/// An operation on the nodes of any text has some answer on a document.
#[tactic(auto, using(crate::proofs::Answers::some_operation))]
pub fn some_operation()
    ensures { (bytes : List ℕ) (nest : Forest) (bound : List (List ℕ × List ℕ)) (text : List ℕ)
        (operation : Operation) → (a : Result Operated OperationFault) × Operates bytes nest bound text operation a }
{}
