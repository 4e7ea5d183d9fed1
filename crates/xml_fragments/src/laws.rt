//! Laws of elements that are cut out. Each function does nothing; its contract is the law, which the check proves.

ghost use Rattle.std.specs.Prelude.{◌≡◌, ℕ, false, List, [], map, Contains};
ghost use Rattle.xml_model.specs.Items.{Tag, first_place};
ghost use Rattle.xml_model.specs.Nest.{Forest, done, empty, element};
ghost use Rattle.xml_model.specs.Tree.{Thing, Entry, Here, all, kind_of};
ghost use Rattle.xml_model.specs.Accepted.{Accepted};
ghost use Rattle.xml_nests.specs.Fits.{document_of};
ghost use Rattle.xml_nests.specs.Context.{Context, plug, tags_in};
ghost use Rattle.xml_model.specs.declared.Kind.TheVariants as kinds;
ghost use Rattle.xml_fragments.specs.Fragment.{IsDocumentOfItsOwn, needed_of, subtree};
ghost use Rattle.xml_fragments.specs.Cut.{shown, cut_tag, needed, whole_nodes, tags_held};

/// An element of an accepted document, cut out with the declarations that it needs, is an accepted document of at most
/// the old length, and the tree of its root element has the kinds, expanded names and contents of the element's, in
/// the same order.
pub fn cut_is_a_document()
    ensures { (bytes : List ℕ) (nest : Forest) (e : Entry) → Accepted 8 bytes nest →
        Contains (all nest (first_place bytes)) e → kind_of e.what ≡ kinds.Element → IsDocumentOfItsOwn bytes nest e }
{}

/// The declarations that an element of an accepted document needs, by its nodes, are those that its tag and what is in
/// it need of the tags of the elements round it.
pub fn needed_by_tags()
    ensures { (bytes : List ℕ) (nest : Forest) (e : Entry) (t : Tag) (inside : Forest) → Accepted 8 bytes nest →
        Contains (all nest (first_place bytes)) e → e.what ≡ Thing.element t inside →
        needed_of (subtree e.path (all nest (first_place bytes))) e.holders
        ≡ needed t inside [] (tags_held e.holders) }
{}

/// An element of an accepted document with its attributes and all in it, under the tag of its cut and no other tag,
/// has the kinds, expanded names and contents that it had, in the same order.
pub fn cut_shows_the_same()
    ensures { (bytes : List ℕ) (nest : Forest) (e : Entry) (t : Tag) (inside : Forest) (h first : Here)
        (stop stop' : ℕ) → Accepted 8 bytes nest →
        Contains (all nest (first_place bytes)) e → e.what ≡ Thing.element t inside → h.holders ≡ e.holders →
        first.holders ≡ [] →
        map shown (whole_nodes h t inside stop) ≡ map shown
        (whole_nodes first (cut_tag t inside (tags_held h.holders)) inside stop') }
{}

/// An element, under the tag of its cut, is an accepted document of its own.
pub fn cut_is_accepted()
    ensures whole { (bytes : List ℕ) (c : Context) (t : Tag) (inside : Forest) (space : List ℕ) →
        Accepted 8 bytes (plug c (element t inside space done)) →
        Accepted 8 (document_of false (element (cut_tag t inside (tags_in [] c)) inside space done))
        (element (cut_tag t inside (tags_in [] c)) inside space done) }
    ensures without_end { (bytes : List ℕ) (c : Context) (t : Tag) → Accepted 8 bytes (plug c (empty t done)) →
        Accepted 8 (document_of false (empty (cut_tag t done (tags_in [] c)) done))
        (empty (cut_tag t done (tags_in [] c)) done) }
{}
