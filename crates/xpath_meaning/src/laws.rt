//! Laws of what expressions mean. Each function does nothing; its contract is the law, which the check proves. Other
//! crates cite the lemmas of `proofs/Orders.antt` and `proofs/NumberLemmas.antt`.

ghost use Rattle.std.specs.Prelude.{IfOk};
ghost use Rattle.xml_model.specs.Contexts.{Rises};
ghost use Rattle.xpath_grammar.specs.Tree.{Tree};
ghost use Rattle.xpath_values.specs.declared.Value.{Value};
ghost use Rattle.xpath_values.specs.Numbers.{IsNumber};
ghost use Rattle.xpath_values.specs.Values.{IsHeld, Meant, held_as, number_of};
ghost use Rattle.xpath_meaning.specs.Context.{Context};
ghost use Rattle.xpath_meaning.specs.Meaning.{mean};
ghost use Rattle.xpath_meaning.specs.Meets.{IsHeldFor};
ghost use Rattle.xpath_meaning.specs.Scope.{Fits, IsInOrder};

/// The nodes of what a program holds for the meaning of an expression are in document order, each once, where those of
/// the document are.
pub fn meant_in_order()
    ensures { (t : Tree) (c : Context) (x : Value) → Rises c.document → IsHeldFor (IsHeld c.document) x (mean t c) →
        IsInOrder x }
{}

/// What a value in range is converted to is a number in range, or a fault.
pub fn numbers_fit()
    ensures { (v : Meant) → Fits (held_as v) → IfOk (number_of v) IsNumber }
{}
