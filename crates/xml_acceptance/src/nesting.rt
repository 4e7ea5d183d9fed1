//! Which items nest: the elements that are open (XML 1.0, productions 1, 39 and 43).
#![tactic(auto)]

ghost use Rattle.std.specs.Prelude.{◌≡◌, ℕ, ◌-◌, ◌^◌, ◌<◌, ◌≤◌, List, [], true, length, take, drop, slice_index_or};
ghost use Rattle.std.specs.Prelude.{nat_lt};
ghost use Rattle.std.specs.Str.{bytes_eq};
ghost use Rattle.xml_model.specs.Items.{Item as ModelItem, Leaf, Tag, start_tag, empty_tag, end_tag, leaf, begins_at};
ghost use Rattle.xml_items.specs.Shown.{item_shown, IsItemAt};
ghost use Rattle.xml_acceptance.specs.Machine.{Phase as MachinePhase, state, whole, step};
ghost use Rattle.xml_acceptance.specs.Phases.{outer_of};
ghost use Rattle.xml_acceptance.specs.Widths.{span_bytes, InBytes};

use crate::phases::{OuterKind, Phase, Placement, inner_placement, outer_kind, phase_after};
use xml_items::{Item, ItemKind};
use xml_model::Span;

/// How many elements may be open at once: the depth of an element is at most 254.
const MOST_OPEN: usize = 255;

/// The names of the elements that are open, the root element's first, and what may be outside of them.
#[derive(Drop)]
pub struct OpenTags {
    names: [Span; 255],
    depth: usize,
    phase: Phase,
    ghost few: { depth ≤ 255 },
}

/// Whether the bytes are the same, compared one by one: names are short.
#[inline(always)]
fn are_same(first: &[u8], second: &[u8]) -> bool
    ensures { result ≡ bytes_eq first.now second.now }
{
    let mut rest = second;
    for byte in first {
        let [other, after @ ..] = rest else {
            return false;
        };
        if *byte != *other {
            return false;
        }
        rest = after;
    }
    rest.is_empty()
}

/// Whether the same bytes are in two places.
fn is_same(bytes: &[u8], one: Span, other: Span) -> bool
    requires one { InBytes bytes.now one }
    requires other { InBytes bytes.now other }
    ensures { result ≡ bytes_eq (span_bytes bytes.now one) (span_bytes bytes.now other) }
{
    let first = &bytes[one.start as usize..one.end as usize];
    let second = &bytes[other.start as usize..other.end as usize];
    are_same(first, second)
}

impl OpenTags {
    ghost use Rattle.xml_acceptance.specs.Open.{no_span, start_placement, is_end, NameAt, IsStack, Shows, Shown};

    /// No element is open, and nothing has come.
    pub fn new() -> Self
        ensures { (bytes : List ℕ) → Shows bytes result [] whole }
    {
        OpenTags {
            names: [Span { start: 0, end: 0 }; 255],
            depth: 0,
            phase: Phase::Whole,
        }
    }

    /// Whether an element is open.
    pub fn is_inside(&self) -> bool
        ensures { (bytes : List ℕ) (names : List (List ℕ)) (phase : MachinePhase) → Shows bytes self.now names phase →
            result ≡ nat_lt 0 (length names) }
    {
        self.depth > 0
    }

    /// How many elements are open.
    pub fn depth(&self) -> u32
        ensures { (bytes : List ℕ) (names : List (List ℕ)) (phase : MachinePhase) → Shows bytes self.now names phase →
            result ≡ length names }
    {
        self.depth as u32
    }

    /// Whether the root element has come and none is open.
    pub fn is_complete(&self) -> bool
        ensures { (bytes : List ℕ) (names : List (List ℕ)) (phase : MachinePhase) → Shows bytes self.now names phase →
            result ≡ is_end (state names phase) }
    {
        self.depth == 0 && self.phase == Phase::Tail
    }

    /// The name of the innermost open element.
    fn top(&self) -> Span
        requires { 0 < self.now.depth }
        ensures { result ≡ slice_index_or self.now.names (self.now.depth - 1) no_span }
    {
        self.names[self.depth - 1]
    }

    /// Whether an element may begin here: the root element, or one inside at most 254 others.
    fn start_placement(&self) -> Placement
        ensures shown { (bytes : List ℕ) (names : List (List ℕ)) (phase : MachinePhase) →
            Shows bytes self.now names phase → result ≡ start_placement names phase }
        ensures room { result ≡ Placement.Fits → self.now.depth < 255 }
    {
        if self.depth == 0 {
            if self.phase == Phase::Tail {
                return Placement::Misplaced;
            }
            return Placement::Fits;
        }
        if self.depth < MOST_OPEN {
            Placement::Fits
        } else {
            Placement::TooDeep
        }
    }

    /// Takes a start tag, if it may be here.
    fn open(&mut self, name: Span) -> Placement
        ensures { (bytes : List ℕ) (tag : Tag) (names : List (List ℕ)) (phase : MachinePhase) →
            Shows bytes self.old names phase → NameAt bytes name tag.name
            → Shown bytes self.new result names (start_tag tag) (step names phase (start_tag tag)) }
    {
        match self.start_placement() {
            Placement::Fits => {
                self.names[self.depth] = name;
                self.depth += 1;
                self.phase = Phase::Tail;
                Placement::Fits
            }
            refusal => refusal,
        }
    }

    /// Takes an empty tag, if it may be here.
    fn pass(&mut self) -> Placement
        ensures { (bytes : List ℕ) (tag : Tag) (names : List (List ℕ)) (phase : MachinePhase) →
            Shows bytes self.old names phase
            → Shown bytes self.new result names (empty_tag tag) (step names phase (empty_tag tag)) }
    {
        match self.start_placement() {
            Placement::Fits => {
                self.phase = Phase::Tail;
                Placement::Fits
            }
            refusal => refusal,
        }
    }

    /// Takes an end tag, if it has the name of the innermost open element.
    fn close(&mut self, bytes: &[u8], name: Span) -> Placement
        requires name { InBytes bytes.now name }
        requires stack { IsStack bytes.now self.old }
        ensures { (written space : List ℕ) (names : List (List ℕ)) (phase : MachinePhase) →
            Shows bytes.now self.old names phase → NameAt bytes.now name written
            → Shown bytes.now self.new result names (end_tag written space) (step names phase (end_tag written space)) }
    {
        if self.depth == 0 {
            return Placement::Misplaced;
        }
        if !is_same(bytes, self.top(), name) {
            return Placement::Misplaced;
        }
        self.depth -= 1;
        Placement::Fits
    }

    /// Takes an item that is no tag and is outside of every element, if it may be here.
    fn take_outer(&mut self, kind: OuterKind) -> Placement
        ensures { (bytes : List ℕ) (x : Leaf) (phase : MachinePhase) → Shows bytes self.old [] phase → kind ≡ outer_of x
            → Shown bytes self.new result [] (leaf x) (step [] phase (leaf x)) }
    {
        match phase_after(self.phase, kind) {
            Some(phase) => {
                self.phase = phase;
                Placement::Fits
            }
            None => Placement::Misplaced,
        }
    }

    /// Takes an item, if it may be after those before it.
    #[inline(always)]
    pub fn take(&mut self, bytes: &[u8], item: Item) -> Placement
        requires size { length bytes.now < 2 ^ 30 }
        requires item { IsItemAt bytes.now item.span.start item }
        requires stack { IsStack bytes.now self.old }
        ensures { (i : ModelItem) (names : List (List ℕ)) (phase : MachinePhase) →
            begins_at bytes.now item.span.start i ≡ true → item ≡ item_shown item.span.start i →
            Shows bytes.now self.old names phase
            → Shown bytes.now self.new result names i (step names phase i) }
    {
        match item.kind {
            ItemKind::StartTag => self.open(item.name),
            ItemKind::EmptyTag => self.pass(),
            ItemKind::EndTag => self.close(bytes, item.name),
            kind if self.depth > 0 => inner_placement(kind),
            _ => self.take_outer(outer_kind(bytes, item)),
        }
    }
}
