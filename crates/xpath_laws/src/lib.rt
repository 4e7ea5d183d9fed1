//! Laws of evaluation. Each function does nothing; its contract is the law.
#![tactic(auto)]

ghost use Rattle.std.specs.Prelude.{◌≡◌, ℕ, Bool, ◌+◌, true, false, Ok, List, length, take, drop, filter};
ghost use Rattle.xml_model.specs.Nest.{Forest, is_nest};
ghost use Rattle.std.specs.List.{AllByRecursion, Contains};
ghost use Rattle.xml_model.specs.Contexts.{Rises, union_list};
ghost use Rattle.xml_model.specs.Names.{passes};
ghost use Rattle.xml_model.specs.Tree.{Entry, all};
ghost use Rattle.xml_model.specs.declared.Axis.{Axis};
ghost use Rattle.xml_model.specs.declared.Axis.TheVariants as axes;
ghost use Rattle.xpath_tokens.specs.declared.StepAxis.{StepAxis};
ghost use Rattle.xpath_tokens.specs.declared.StepAxis.TheVariants.{Known};
ghost use Rattle.xpath_grammar.specs.declared.expr.StepTest.{StepTest};
ghost use Rattle.xpath_grammar.specs.declared.expr.StepTest.TheVariants as written;
ghost use Rattle.xpath_grammar.specs.Tree.{Tree, Trees, none, more, stop, go};
ghost use Rattle.xpath_values.specs.Answers.{and_then};
ghost use Rattle.xpath_values.specs.Numbers.{counted};
ghost use Rattle.xpath_values.specs.Values.{Meant, nodes, number};
ghost use Rattle.xpath_meaning.specs.Context.{Context, at, in_order, is_attribute_axis, test_of};
ghost use Rattle.xpath_meaning.specs.Meaning.{filtered, mean, kept, step_from, walked};
ghost use Rattle.xpath_laws.specs.Analysis.{reads_context, reads_position};
ghost use Rattle.xpath_laws.specs.Faults.{faultless, kind, kind_of, IsFine};
ghost use Rattle.xpath_laws.specs.Fused.{are_positionless, IsTree, IsPlain, ArePlain};
ghost use Rattle.xpath_laws.specs.Orders.{IsPart, AreApart};

/// The nodes of what an expression means are in document order, each once: their indexes rise.
#[tactic(auto, using(crate::proofs::Orderly::nodes_rise))]
pub fn nodes_in_order()
    ensures { (e : Tree) (c : Context) (es : List Entry) → Rises c.document → mean e c ≡ Ok (nodes es) → Rises es }
{}

/// The nodes of a document are in document order, as `nodes_in_order` asks.
#[tactic(auto, using(crate::proofs::Trees::nest_rises))]
pub fn documents_rise()
    ensures { (nest : Forest) (first : ℕ) → Rises (all nest first) }
{}

/// The nodes of what an expression means are of the document.
#[tactic(auto, using(crate::proofs::WithinDocument::nodes_within))]
pub fn nodes_of_document()
    ensures { (e : Tree) (c : Context) (es : List Entry) → Contains c.document c.node → mean e c ≡ Ok (nodes es) →
        AllByRecursion (λ x. Contains c.document x) es }
{}

/// An expression that does not read the context has one value everywhere in a document.
#[tactic(auto, using(crate::proofs::Everywhere::mean_same))]
pub fn same_everywhere()
    ensures { (e : Tree) (c : Context) (x : Entry) (p n : ℕ) → reads_context e ≡ false →
        mean e (at c x p n) ≡ mean e c }
{}

/// Nodes that are in document order, each once, stay as they are.
#[tactic(auto, using(crate::proofs::InOrder::stays))]
pub fn in_order_stays()
    ensures { (document xs : List Entry) → IsPart xs document → AreApart document → in_order document xs ≡ xs }
{}

/// A predicate that is the number i + 1 passes the node after i others, and no other node is asked for.
#[tactic(auto, using(crate::proofs::Numbered::numbered))]
pub fn numbered_alone()
    ensures { (c : Context) (n p i : ℕ) (es : List Entry) →
        kept (λ d. Ok (number (counted (p + i)))) c n p es ≡ Ok (take 1 (drop i es)) }
{}

/// `descendant-or-self::node()/child::T` finds what `descendant::T` finds.
#[tactic(auto, using(crate::proofs::Fused::fused))]
pub fn one_scan()
    ensures { (c : Context) (test : StepTest) (es : List Entry) → IsTree c.document →
        walked (go (Known axes.DescendantOrSelf) written.Node none (go (Known axes.Child) test none stop)) c es ≡
        walked (go (Known axes.Descendant) test none stop) c es }
{}

/// The nodes of a document are a tree, as `one_scan` asks.
#[tactic(auto, using(crate::proofs::Trees::tree_of_nest))]
pub fn documents_are_trees()
    ensures { (nest : Forest) (first : ℕ) → is_nest nest ≡ true → IsTree (all nest first) }
{}

/// `descendant-or-self::node()/child::T[p]` finds what `descendant::T[p]` finds, where the predicates have no fault on
/// the document's nodes and do not ask for the position.
#[tactic(auto, using(crate::proofs::Fused::fused_plain))]
pub fn one_scan_with_predicates()
    ensures { (c : Context) (test : StepTest) (ps : Trees) (q : Entry → Bool) (es : List Entry) →
        IsTree c.document → ArePlain c ps q →
        walked (go (Known axes.DescendantOrSelf) written.Node none (go (Known axes.Child) test ps stop)) c es ≡
        walked (go (Known axes.Descendant) test ps stop) c es }
{}

/// A predicate that has no fault and does not ask for the position leaves the nodes that pass it.
#[tactic(auto, using(crate::proofs::Fused::one_plain))]
pub fn plain_predicate()
    ensures { (c : Context) (p : Tree) (q : Entry → Bool) → IsPlain c (mean p) q → ArePlain c (more p none) q }
{}

/// An expression that is faultless by its text has no fault in any context.
#[tactic(auto, using(crate::proofs::Faults::mean_fine))]
pub fn faultless_is_fine()
    ensures { (e : Tree) (c : Context) → faultless e ≡ true → IsFine (mean e c) }
{}

/// A value is of its expression's type.
#[tactic(auto, using(crate::proofs::Faults::has_kind))]
pub fn kinds_hold()
    ensures { (e : Tree) (c : Context) (v : Meant) → mean e c ≡ Ok v → kind v ≡ kind_of e }
{}

/// An expression that does not read the position or the size has one value at a node.
#[tactic(auto, using(crate::proofs::Positions::one_value))]
pub fn position_unread()
    ensures { (e : Tree) (c : Context) (x : Entry) (p n q m : ℕ) → reads_position e ≡ false →
        mean e (at c x p n) ≡ mean e (at c x q m) }
{}

/// A step without predicates finds those on the axis of some of its nodes that pass its test.
#[tactic(auto, using(crate::proofs::AtOnce::union_step))]
pub fn step_of_union()
    ensures { (c : Context) (axis : Axis) (test : StepTest) (es : List Entry) → IsTree c.document →
        step_from (filtered none) (Known axis) test c es ≡
        Ok (filter (passes (test_of c.bindings test) (is_attribute_axis axis)) (union_list axis es c.document)) }
{}

/// Where predicates do not ask for the position, and have no fault on all nodes that a step finds from some nodes, they
/// leave of these what the step with the predicates finds.
#[tactic(auto, using(crate::proofs::AtOnce::at_once))]
pub fn predicates_at_once()
    ensures { (c : Context) (axis : StepAxis) (test : StepTest) (ps : Trees) (es xs zs : List Entry) →
        IsTree c.document → are_positionless ps ≡ true → step_from (filtered none) axis test c es ≡ Ok xs →
        filtered ps c xs ≡ Ok zs → step_from (filtered ps) axis test c es ≡ Ok zs }
{}

/// The same for `descendant-or-self::node()/child::T[p]`, over what `descendant::T` finds.
#[tactic(auto, using(crate::proofs::AtOnce::scan_at_once))]
pub fn scan_at_once()
    ensures { (c : Context) (test : StepTest) (ps : Trees) (es xs zs : List Entry) →
        IsTree c.document → are_positionless ps ≡ true →
        step_from (filtered none) (Known axes.Descendant) test c es ≡ Ok xs → filtered ps c xs ≡ Ok zs →
        and_then (step_from (filtered none) (Known axes.DescendantOrSelf) written.Node c es)
        (step_from (filtered ps) (Known axes.Child) test c) ≡ Ok zs }
{}
