//! The declarations that reach a tag, and the URIs of prefixes under them (Namespaces in XML 1.0, sections 3 and 6).

ghost use Rattle.std.specs.Prelude.{◌≡◌, ℕ, ◌<◌, ◌≤◌, ◌≢◌, ◌^◌, List, [], length, bytes_eq, encode_utf8_all, IfSome};
ghost use Rattle.std.specs.List.{slice_index_or};
ghost use Rattle.xml_model.specs.Nest.{Forest};
ghost use Rattle.xml_model.specs.Tree.{Holder};
ghost use Rattle.vtd_words.specs.Table.{nodes_of};
ghost use Rattle.vtd_namespaces.specs.Undeclared.{NoneDeclared};

use crate::compare::same_uri;
use crate::declarations::declaration_for;
use crate::holders::XML;
use crate::memo::{Memo, Prefix, nearest_known};
use crate::open_tags::OpenTags;
use crate::uri::Uri;
use vtd_text::Chars;
use vtd_words::{Table, Words};

/// The tags that are open at a tag, itself included, and its depth. No record from `end` on is of a declaration's name.
#[derive(Drop)]
pub struct Scope<'s, 'a, W: Words> {
    pub table: &'s Table<'a, W>,
    pub open_tags: &'s OpenTags,
    pub depth: u8,
    pub end: u32,
    ghost fits: { length ((W.lists table.now.words).records) < 2 ^ 32 },
    ghost within: { (k : ℕ) → slice_index_or open_tags.now k 0 < length ((W.lists table.now.words).records) },
    ghost undeclared: { NoneDeclared (W.lists table.now.words).records end },
}

impl<'s, 'a, W: Words> Scope<'s, 'a, W> {
    ghost use Rattle.vtd_namespaces.specs.Scope.{IsNearest, tags_in};
    ghost use Rattle.vtd_namespaces.specs.Memos.{IsMemoOf};
    ghost use Rattle.vtd_namespaces.specs.Reach.{IsScope, same_uri};
    ghost use Rattle.vtd_namespaces.specs.Uris.{uri_value};
    ghost use Rattle.xml_model.specs.Accepted.{is_bound};
    ghost use Rattle.xml_model.specs.Names.{attribute_uri};
    ghost use Rattle.vtd_text.specs.NameRecords.{IsDeclaration};

    /// The record of the name of the nearest declaration of a prefix, or `None` where there is none.
    pub fn declaration(&self, prefix: &[u8]) -> Option<u32>
        ensures found { (nest : Forest) (hs : List Holder) → IsScope self.now.table.now.bytes
            (W.lists self.now.table.now.words) self.now.open_tags.now self.now.depth nest hs →
            (p : List ℕ) → prefix.now ≡ encode_utf8_all p →
            IsNearest (nodes_of self.now.table.now.bytes nest) hs p result }
        ensures declares { IfSome result (IsDeclaration self.now.table.now.bytes (W.lists self.now.table.now.words)) }
    {
        declaration_for(
            self.table.bytes(),
            self.table.words(),
            self.open_tags,
            self.depth as usize + 1,
            self.end,
            prefix,
        )
    }

    /// The same by a memo of what tags declare: the record of the name of the nearest declaration of a prefix, or
    /// `None` where there is none.
    pub fn declaration_known(&self, memo: &mut Memo, prefix: &Prefix<'_>) -> Option<u32>
        requires known { IsMemoOf self.now.table.now.bytes (W.lists self.now.table.now.words).records memo.old }
        ensures known { IsMemoOf self.now.table.now.bytes (W.lists self.now.table.now.words).records memo.new }
        ensures found { (nest : Forest) (hs : List Holder) → IsScope self.now.table.now.bytes
            (W.lists self.now.table.now.words) self.now.open_tags.now self.now.depth nest hs →
            (p : List ℕ) → prefix.now.text.now ≡ encode_utf8_all p →
            IsNearest (nodes_of self.now.table.now.bytes nest) hs p result }
        ensures declares { IfSome result (IsDeclaration self.now.table.now.bytes (W.lists self.now.table.now.words)) }
    {
        nearest_known(
            self.table.bytes(),
            self.table.words(),
            memo,
            self.open_tags,
            self.depth as usize + 1,
            self.end,
            prefix,
        )
    }

    /// The URI to which a prefix is bound that is not empty, by the record of its nearest declaration; none where it is
    /// not bound.
    pub fn uri_by(&self, prefix: &[u8], declaration: Option<u32>) -> Uri<'a, W>
        requires { IfSome declaration (IsDeclaration self.now.table.now.bytes (W.lists self.now.table.now.words)) }
        ensures { (nest : Forest) (hs : List Holder) → IsScope self.now.table.now.bytes
            (W.lists self.now.table.now.words) self.now.open_tags.now self.now.depth nest hs →
            (p : List ℕ) → prefix.now ≡ encode_utf8_all p → (p ≡ [] → ⊥) →
            IsNearest (nodes_of self.now.table.now.bytes nest) hs p declaration →
            uri_value result ≡ attribute_uri p (tags_in hs) }
    {
        if prefix == XML {
            return Uri::Xml;
        }
        match declaration {
            Some(at) => Uri::Declared(Chars::of_declaration(self.table, at)),
            None => Uri::None,
        }
    }

    /// Whether two prefixes that are not empty are bound to one URI, or both not bound, by the records of their nearest
    /// declarations.
    pub fn bound_alike(
        &self,
        one: &[u8],
        declaration: Option<u32>,
        other: &[u8],
        other_declaration: Option<u32>,
    ) -> bool
        requires one { IfSome declaration (IsDeclaration self.now.table.now.bytes (W.lists self.now.table.now.words)) }
        requires other { IfSome other_declaration
            (IsDeclaration self.now.table.now.bytes (W.lists self.now.table.now.words)) }
        ensures { (nest : Forest) (hs : List Holder) → IsScope self.now.table.now.bytes
            (W.lists self.now.table.now.words) self.now.open_tags.now self.now.depth nest hs →
            (p q : List ℕ) → one.now ≡ encode_utf8_all p → other.now ≡ encode_utf8_all q → (p ≡ [] → ⊥) → (q ≡ [] → ⊥) →
            IsNearest (nodes_of self.now.table.now.bytes nest) hs p declaration →
            IsNearest (nodes_of self.now.table.now.bytes nest) hs q other_declaration →
            result ≡ same_uri (attribute_uri p (tags_in hs)) (attribute_uri q (tags_in hs)) }
    {
        same_uri(
            self.uri_by(one, declaration),
            self.uri_by(other, other_declaration),
        )
    }

    /// Whether a prefix is bound, by the record of its nearest declaration (Namespaces in XML 1.0, section 5,
    /// constraint 'Prefix Declared'): the empty one needs no binding, and `xml` always has one.
    pub fn is_bound(&self, prefix: &[u8], declaration: Option<u32>) -> bool
        ensures { (nest : Forest) (hs : List Holder) → IsScope self.now.table.now.bytes
            (W.lists self.now.table.now.words) self.now.open_tags.now self.now.depth nest hs →
            (p : List ℕ) → prefix.now ≡ encode_utf8_all p →
            IsNearest (nodes_of self.now.table.now.bytes nest) hs p declaration → result ≡ is_bound p (tags_in hs) }
    {
        if prefix.is_empty() {
            return true;
        }
        if prefix == XML {
            return true;
        }
        declaration.is_some()
    }
}
