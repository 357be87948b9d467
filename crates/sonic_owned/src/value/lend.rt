// Parts that are lent to be changed.
ghost use Rattle.std.specs.Prelude.{◌≡◌, ◌≢◌, ◌<◌, ◌∷◌, [], length, None, Some, IfOk, IfErr, IsErr, IfSome, OnErr, OnSome, ◌↔◌, ◌≤◌, IsTrue, IsFalse};
ghost use Rattle.std.specs.Borrow.{sem, follows_so, LendsSo, LendsSoOk};
ghost use Rattle.sonic_error.specs.Errors.{IsPlainError};
ghost use Rattle.sonic_find.specs.Paths.{kind_of};
ghost use Rattle.sonic_lazy.specs.Scalars.{container};
ghost use Rattle.sonic_owned.specs.Forms.{Form, level, Members, unnamed, named, scalar_of_form};
ghost use Rattle.sonic_owned.specs.Leading.{item_in};
ghost use Rattle.sonic_owned.specs.Lends.{answer_name, IsLeftBehind, OfAnswer};
ghost use Rattle.sonic_owned.specs.Internal.Lends.{last_nodes, AtNode, HasItem, HasNoItem, IfAtNode, IsLent, IsItemPut, IsLeft, IsPathFound, OfPart, IsLoanAnswer};
ghost use Rattle.sonic_owned.specs.Opened.{IsOpened, IsClosedContainer, IsClosedOf};
ghost use Rattle.sonic_owned.specs.Puts.{put_in, IsPartOf, IsPut};
ghost use Rattle.sonic_owned.specs.Reached.{IsKeptAlong, IsOpenedAlong, IsOpenedOn, IsUnreached, LeadsNowhere};
ghost use Rattle.sonic_owned.specs.Views.{form, elements, members};
ghost use Rattle.sonic_owned.specs.contracts.value.OwnedLazyValue.{the_row as value_row};
ghost use Rattle.sonic_owned.specs.contracts.value.LazyArray.{the_row as array_row};
ghost use Rattle.sonic_owned.specs.contracts.value.LazyObject.{the_row as object_row};
ghost use Rattle.sonic_pointer.specs.Nodes.{node_of, path_of};
ghost use Rattle.sonic_text.specs.declared.kind.Kind.TheVariants.{Array, Object};

use super::{LazyArray, LazyObject, Node, OwnedLazyValue};
use sonic_error::{Error, ErrorCode, Result};
use sonic_lazy::JsonValueTrait;
use sonic_pointer::{MAX_NODES, PointerNode};
use std::alloc::Global;

// Why nothing is lent.
pub(super) enum Stop {
    // The path leads nowhere.
    Nowhere,
    // There is no memory to open a level.
    NoMemory,
    // The path is too long.
    TooDeep,
}

// A value whose levels are opened and lent.
//
// The borrow checker proves what is lent of a type by way of this trait, and not what is lent of a
// value as a value.
pub(crate) trait Opens {
    // The form of the value.
    ghost seen: { Self → Form };

    // Whether the value is of the kind that a node asks for.
    fn is_for(&self, node: PointerNode<'_>) -> bool
        ensures { IsTrue result
            ↔ (scalar_of_form (seen self.now) ≡ container (kind_of (node_of node.entry))) };

    // Opens the first level, and says whether there was memory for it.
    fn open_level(&mut self, alloc: Global) -> bool
        ensures opened { IsTrue result → IsOpened (seen self.old) (seen self.new) }
        ensures same { IsFalse result → seen self.new ≡ seen self.old }
        ensures memory { IsFalse result → IsClosedContainer (seen self.old) };

    // The array that the value is opened to.
    fn array_level<'a>(&'a mut self) -> Option<&'a mut LazyArray>
        ensures* back { sem 𝓛 (LendsSo Self.row array_row self.entry result
            (λ m w. OnSome result (seen m ≡ level Array (unnamed (elements w))))
            (λ m. seen m ≡ seen self.old)) }
        ensures some { IfSome result (λ a. seen self.old ≡ level Array (unnamed (elements a.now))) }
        ensures none { result ≡ None → (ms : Members) → seen self.old ≢ level Array ms };

    // The object that the value is opened to.
    fn object_level<'a>(&'a mut self) -> Option<&'a mut LazyObject>
        ensures* back { sem 𝓛 (LendsSo Self.row object_row self.entry result
            (λ m w. OnSome result (seen m ≡ level Object (named (members w))))
            (λ m. seen m ≡ seen self.old)) }
        ensures some { IfSome result (λ o. seen self.old ≡ level Object (named (members o.now))) }
        ensures none { result ≡ None → (ms : Members) → seen self.old ≢ level Object ms };
}

impl Opens for OwnedLazyValue {
    ghost seen = { form };

    fn is_for(&self, node: PointerNode<'_>) -> bool {
        match node {
            PointerNode::Index(_) => self.is_array(),
            PointerNode::Key(_) => self.is_object(),
        }
    }

    fn open_level(&mut self, alloc: Global) -> bool {
        match self.load(alloc) {
            Ok(()) => true,
            Err(_) => false,
        }
    }

    fn array_level<'a>(&'a mut self) -> Option<&'a mut LazyArray> {
        match &mut self.node {
            Node::Array(level) => Some(level),
            _ => None,
        }
    }

    fn object_level<'a>(&'a mut self) -> Option<&'a mut LazyObject> {
        match &mut self.node {
            Node::Object(level) => Some(level),
            _ => None,
        }
    }
}

// The item that a node names in a level that is opened.
fn lend_item<'a, A: Opens>(
    value: &'a mut A,
    node: PointerNode<'_>,
) -> Option<&'a mut OwnedLazyValue>
    ensures* back { sem 𝓛 (LendsSo A.row value_row value.entry result
        (λ m w. IfSome result (λ x.
        (item_in (node_of node.entry) (A.Opens.seen value.old) ≡ Some (form x.now))
        × (A.Opens.seen m ≡ put_in (node_of node.entry) (form w) (A.Opens.seen value.old))))
        (λ m. A.Opens.seen m ≡ A.Opens.seen value.old)) }
    ensures some { IfSome result (λ x.
        item_in (node_of node.entry) (A.Opens.seen value.old) ≡ Some (form x.now)) }
    ensures none { result ≡ None → item_in (node_of node.entry) (A.Opens.seen value.old) ≡ None }
{
    match node {
        PointerNode::Index(i) => value.array_level()?.at_mut(i),
        PointerNode::Key(key) => {
            let level = value.object_level()?;
            let i = level.first_of_key(key)?;
            level.at_mut(i)
        }
    }
}

// The same, where the level isn't opened yet. A value of another kind stays as it is.
fn lend_opened<'a, A: Opens>(
    value: &'a mut A,
    alloc: Global,
    node: PointerNode<'_>,
) -> std::result::Result<&'a mut OwnedLazyValue, Stop>
    ensures* back { sem 𝓛 (LendsSoOk A.row value_row value.entry result
        (λ m w. OfPart result (λ i.
        IsItemPut (node_of node.entry) (A.Opens.seen value.old) i (form w) (A.Opens.seen m)))
        (λ m. IsLeft (IsOpenedAlong (node_of node.entry ∷ []) (A.Opens.seen value.old) (A.Opens.seen m))
        result (A.Opens.seen value.old) (A.Opens.seen m))) }
    ensures found { IsLent (HasItem (node_of node.entry) (A.Opens.seen value.old))
        (HasNoItem (node_of node.entry) (A.Opens.seen value.old))
        (IsClosedOf (kind_of (node_of node.entry)) (A.Opens.seen value.old))
        result }
{
    if !value.is_for(node) {
        return Err(Stop::Nowhere);
    }
    if !value.open_level(alloc) {
        return Err(Stop::NoMemory);
    }
    match lend_item(value, node) {
        Some(item) => Ok(item),
        None => Err(Stop::Nowhere),
    }
}

// A path of which some last nodes are still to be followed.
#[derive(Clone, Copy)]
pub(super) struct Way<'s, 'p> {
    alloc: Global,
    nodes: &'s [PointerNode<'p>],
}

// The item of the next node, where so many are left. A number that no node is left for lends nothing.
fn lend_next<'a, 's, 'p, A: Opens>(
    value: &'a mut A,
    way: &Way<'s, 'p>,
    left: usize,
) -> std::result::Result<&'a mut OwnedLazyValue, Stop>
    ensures* back { sem 𝓛 (LendsSoOk A.row value_row value.entry result
        (λ m w. OfPart result (λ i. AtNode left way.now.nodes.now (λ node.
        IsItemPut node (A.Opens.seen value.old) i (form w) (A.Opens.seen m))))
        (λ m. IsLeft (AtNode left way.now.nodes.now (λ node.
        IsOpenedAlong (node ∷ []) (A.Opens.seen value.old) (A.Opens.seen m)))
        result (A.Opens.seen value.old) (A.Opens.seen m))) }
    ensures found { IsLent
        (λ i. AtNode left way.now.nodes.now (λ node. HasItem node (A.Opens.seen value.old) i))
        (AtNode left way.now.nodes.now (λ node. HasNoItem node (A.Opens.seen value.old)))
        (IfAtNode left way.now.nodes.now (λ node. IsClosedOf (kind_of node) (A.Opens.seen value.old)))
        result }
{
    if left > way.nodes.len() {
        return Err(Stop::NoMemory);
    }
    let i = way.nodes.len() - left;
    if i >= way.nodes.len() {
        return Err(Stop::NoMemory);
    }
    lend_opened(value, way.alloc, way.nodes[i])
}

// The same of a value. It isn't inlined, so that a step along a path takes little of the stack.
#[inline(never)]
fn item_next<'a, 's, 'p>(
    value: &'a mut OwnedLazyValue,
    way: &Way<'s, 'p>,
    left: usize,
) -> std::result::Result<&'a mut OwnedLazyValue, Stop>
    ensures* back { sem 𝓛 (LendsSoOk value_row value_row value.entry result
        (λ m w. OfPart result (λ i. AtNode left way.now.nodes.now (λ node.
        IsItemPut node (form value.old) i (form w) (form m))))
        (λ m. IsLeft (AtNode left way.now.nodes.now (λ node.
        IsOpenedAlong (node ∷ []) (form value.old) (form m)))
        result (form value.old) (form m))) }
    ensures found { IsLent
        (λ i. AtNode left way.now.nodes.now (λ node. HasItem node (form value.old) i))
        (AtNode left way.now.nodes.now (λ node. HasNoItem node (form value.old)))
        (IfAtNode left way.now.nodes.now (λ node. IsClosedOf (kind_of node) (form value.old)))
        result }
{
    lend_next(value, way, left)
}

// A value whose parts are lent along a path.
pub(super) trait Walks {
    // The form of the value.
    ghost seen: { Self → Form };

    // The part to which the last nodes of a path lead, so many of them.
    fn walk<'a, 's, 'p>(
        &'a mut self,
        way: &Way<'s, 'p>,
        left: usize,
    ) -> std::result::Result<&'a mut OwnedLazyValue, Stop>
        ensures* back { sem 𝓛 (LendsSoOk Self.row value_row self.entry result
            (λ m w. OfPart result (λ i.
            IsPut (last_nodes left way.now.nodes.now) (seen self.old) i (form w) (seen m)))
            (λ m. IsOpenedAlong (last_nodes left way.now.nodes.now) (seen self.old) (seen m))) }
        ensures found { IsLent
            (IsPartOf (last_nodes left way.now.nodes.now) (seen self.old))
            (LeadsNowhere (last_nodes left way.now.nodes.now) (seen self.old))
            (left ≤ length way.now.nodes.now
            → IsOpenedOn (last_nodes left way.now.nodes.now) (seen self.old))
            result };
}

impl Walks for OwnedLazyValue {
    ghost seen = { form };

    fn walk<'a, 's, 'p>(
        &'a mut self,
        way: &Way<'s, 'p>,
        left: usize,
    ) -> std::result::Result<&'a mut OwnedLazyValue, Stop> {
        if left == 0 {
            return Ok(self);
        }
        match item_next(self, way, left) {
            Ok(item) => item.walk(way, left - 1),
            Err(stop) => Err(stop),
        }
    }
}

// The part to which a path leads.
pub(super) fn lend_part<'a, A: Walks>(
    value: &'a mut A,
    alloc: Global,
    path: &[PointerNode<'_>],
) -> std::result::Result<&'a mut OwnedLazyValue, Stop>
    ensures* back { sem 𝓛 (LendsSoOk A.row value_row value.entry result
        (λ m w. OfPart result (λ i.
        IsPut (path_of path.now) (A.Walks.seen value.old) i (form w) (A.Walks.seen m)))
        (λ m. IsLeftBehind path.now (A.Walks.seen value.old) (A.Walks.seen m))) }
    ensures found { IsPathFound path.now (A.Walks.seen value.old) result }
{
    if path.len() > MAX_NODES {
        return Err(Stop::TooDeep);
    }
    let way = Way { alloc, nodes: path };
    value.walk(&way, path.len())
}

// What is answered of what is lent.
pub(super) fn found_or_error<'a, L>(
    lent: std::result::Result<&'a mut L, Stop>,
) -> Result<Option<&'a mut L>>
    ensures { IsLoanAnswer lent.entry result }
{
    match lent {
        Ok(part) => Ok(Some(part)),
        Err(Stop::Nowhere) => Ok(None),
        Err(Stop::NoMemory) => Err(Error::plain(ErrorCode::NoMemory)),
        Err(Stop::TooDeep) => Err(Error::plain(ErrorCode::RecursionLimitExceeded)),
    }
}

impl OwnedLazyValue {
    /// The item that a node names, to be changed: the value of the first member with the key, or the
    /// element of the index. `None` where there is none, or the value is of another kind.
    ///
    /// The first level of the value is opened where its kind fits the node, and once the loan ends the
    /// value is that level with what was left in the item's place. Where nothing is lent it means what
    /// it meant, and no other level is opened. The only error is `ErrorCode::NoMemory`, of a container
    /// that isn't opened and whose kind fits, and the value is unchanged then.
    ///
    /// ```text
    /// let mut value = OwnedLazyValue::from_str(alloc, "{\"a\": 1}")?;
    /// if let Some(item) = value.get_mut(alloc, PointerNode::Key("a"))? {
    ///     *item = OwnedLazyValue::from(true);
    /// }
    /// assert_eq!(rt; &value.to_string(alloc)?[..], "{\"a\":true}");
    /// ```
    pub fn get_mut(
        &mut self,
        alloc: Global,
        node: PointerNode<'_>,
    ) -> Result<Option<&mut OwnedLazyValue>>
        ensures* back { sem 𝓛 (follows_so value_row value_row self.entry.ghost_name (answer_name result)
            (λ w m. OfAnswer result (λ i.
            IsPut (node_of node.entry ∷ []) (form self.old) i (form w) (form m)))
            (λ m. IsKeptAlong (node_of node.entry ∷ []) (form self.old) (form m)
            × OnErr result (form m ≡ form self.old))) }
        ensures some { IfOk result (λ found. IfSome found (λ part.
            IsPartOf (node_of node.entry ∷ []) (form self.old) (form part.now))) }
        ensures none { IfOk result (λ found. found ≡ None
            → LeadsNowhere (node_of node.entry ∷ []) (form self.old)) }
        ensures err { IfErr result (λ error. IsPlainError error ErrorCode.NoMemory) }
        ensures memory { OnErr result (IsClosedOf (kind_of (node_of node.entry)) (form self.old)) }
    {
        found_or_error(lend_opened(self, alloc, node))
    }

    /// The value to which a path leads in this one, to be changed (compare RFC 6901, section 4).
    /// `None` where it leads to none.
    ///
    /// Each level on the way is opened whose kind fits its node, and once the loan ends the value has
    /// what was left in the part's place. Where nothing is lent the value means what it meant, and no
    /// other level is opened. The errors are `ErrorCode::RecursionLimitExceeded` of a path of more than
    /// 255 nodes, before all else, and then the value is unchanged, and `ErrorCode::NoMemory`, where a
    /// level is to be opened.
    ///
    /// ```text
    /// let mut value = OwnedLazyValue::from_str(alloc, "{\"c\": [0, 1, 2]}")?;
    /// if let Some(part) = value.pointer_mut(alloc, &pointer!["c", 1])? {
    ///     *part = OwnedLazyValue::from(3u64);
    /// }
    /// assert_eq!(rt; &value.to_string(alloc)?[..], "{\"c\":[0,3,2]}");
    /// ```
    pub fn pointer_mut(
        &mut self,
        alloc: Global,
        path: &[PointerNode<'_>],
    ) -> Result<Option<&mut OwnedLazyValue>>
        ensures* back { sem 𝓛 (follows_so value_row value_row self.entry.ghost_name (answer_name result)
            (λ w m. OfAnswer result (λ i.
            IsPut (path_of path.now) (form self.old) i (form w) (form m)))
            (λ m. IsLeftBehind path.now (form self.old) (form m))) }
        ensures some { IfOk result (λ found. IfSome found (λ part.
            IsPartOf (path_of path.now) (form self.old) (form part.now))) }
        ensures none { IfOk result (λ found. found ≡ None
            → LeadsNowhere (path_of path.now) (form self.old)) }
        ensures err { IfErr result (IsUnreached (path_of path.now)) }
        ensures limit { 255 < length path.now → IsErr result }
        ensures memory { OnErr result (length path.now ≤ 255
            → IsOpenedOn (path_of path.now) (form self.old)) }
    {
        found_or_error(lend_part(self, alloc, path))
    }
}
