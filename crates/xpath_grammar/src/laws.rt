//! Laws of the grammar, over its definitions alone. Each function is empty: its contract is the law.

ghost use Rattle.std.specs.Prelude.{◌≡◌, ◌≢◌, ◌↔◌, ℕ, List, [], true, false, cond, Some};
ghost use Rattle.std.specs.Str.{bytes_eq};
ghost use Rattle.xpath_tokens.specs.declared.Token.{Token};
ghost use Rattle.xpath_grammar.specs.Grammar.{Derives, Symbol, Phrase, MayFollow, FilterExpr, RelativeLocationPath};
ghost use Rattle.xpath_grammar.specs.Tree.{Tree};
ghost use Rattle.xpath_grammar.specs.Bindings.{uri_in, can_bind, bound_in, AreBound};
ghost use Rattle.xpath_grammar.specs.Static.{refusals};
ghost use Rattle.xpath_grammar.specs.Passes.{Passes};
ghost use Rattle.xpath_grammar.specs.Laws.{minuses, flags, IsForm, IsLastOperator, IsSlash, IsFirstSlash};

pub use xpath_tokens::laws::one_split;

/// A token list derives at most one phrase from a symbol.
pub fn one_phrase()
    ensures { (s : Symbol) (ts : List Token) (e f : Phrase) → Derives s ts e → Derives s ts f → e ≡ f }
{}

/// The operator of a production with two parts is the last token outside all brackets that is one of that symbol's
/// operators, where a minus counts only if it is binary.
pub fn last_operator()
    ensures { (s o : Symbol) (us vs : List Token) (t : Token) (x y : Phrase)
        → IsForm s t o → Derives s us x → Derives o vs y → IsLastOperator s us t vs }
{}

/// A minus is binary exactly where a token that is `/`, or can end an operand, is before it.
pub fn binary_minus()
    ensures { (s : Symbol) (ts : List Token) (e : Phrase) (d : Derives s ts e)
        → MayFollow s false → flags false ts ≡ minuses d }
{}

/// After an expression with its predicates, the slash before the steps is the first one outside all brackets.
pub fn first_slash()
    ensures { (us vs : List Token) (t : Token) (x y : Phrase)
        → IsSlash t → Derives FilterExpr us x → Derives RelativeLocationPath vs y → IsFirstSlash us }
{}

/// An expression has no static refusal exactly where each of its parts passes.
pub fn passes_by_parts()
    ensures { (bs : List (List ℕ × List ℕ)) (e : Tree) → (refusals bs e ≡ []) ↔ Passes bs e }
{}

/// After a prefix was bound it has that URI, and each other prefix has the URI that it had.
pub fn uri_after_binding()
    ensures { (bs : List (List ℕ × List ℕ)) (p u q : List ℕ) → can_bind p u ≡ true
        → uri_in (bound_in bs p u) q ≡ cond (bytes_eq q p) (Some u) (uri_in bs q) }
{}

/// A prefix is bound to no empty URI.
pub fn some_uri()
    ensures { (bs : List (List ℕ × List ℕ)) (p u : List ℕ) → AreBound bs → uri_in bs p ≡ Some u → u ≢ [] }
{}
