// Where a pointer leads in a value.
ghost use Rattle.std.specs.Prelude.{◌≡◌, None, IfOk, IfSome, option_map};
ghost use Rattle.sonic_owned.specs.Forms.{FormMeans};
ghost use Rattle.sonic_owned.specs.Seen.{view_form};
ghost use Rattle.sonic_owned.specs.Views.{form};
ghost use Rattle.sonic_patch.specs.Internal.Resolved.{IsLed, LeadNowhere};
ghost use Rattle.sonic_patch.specs.Resolution.{index_of, node_in};
ghost use Rattle.sonic_pointer.specs.Nodes.{node_of};
ghost use Rattle.sonic_text.specs.Trees.{Tree};

use sonic_error::JsonType;
use sonic_input::FastStr;
use sonic_lazy::JsonValueTrait;
use sonic_owned::{OwnedLazyValue, OwnedView};
use sonic_pointer::PointerNode;
use sonic_text::byte_at;
use std::alloc::{AllocError, Global};

// The index that a token is: `0`, or digits that don't begin with it.
pub(crate) fn index_of(token: &str) -> Option<usize>
    ensures { result ≡ index_of token.now }
{
    let first = byte_at(token.as_bytes(), 0);
    if first == b'+' {
        return None;
    }
    if first == b'0' && token.len() > 1 {
        return None;
    }
    match token.parse::<usize>() {
        Ok(i) => Some(i),
        Err(_) => None,
    }
}

// The node that a token is in a value.
pub(crate) fn node_in<'t>(part: &OwnedView<'_>, token: &'t FastStr) -> Option<PointerNode<'t>>
    ensures { (v : Tree) → FormMeans (view_form part.now) v → option_map node_of result ≡ node_in v token.now }
{
    match part.get_type() {
        JsonType::Object => Some(PointerNode::Key(token.as_str())),
        JsonType::Array => match index_of(token.as_str()) {
            Some(i) => Some(PointerNode::Index(i)),
            None => None,
        },
        _ => None,
    }
}

// The nodes that tokens are in a value, and what they lead to.
#[derive(Drop)]
pub(crate) struct Led<'v, 't> {
    pub(crate) nodes: Vec<PointerNode<'t>>,
    pub(crate) part: OwnedView<'v>,
}

// Where tokens lead in a value. Nothing of it is opened.
pub(crate) fn resolve<'v, 't>(
    alloc: Global,
    value: &'v OwnedLazyValue,
    tokens: &'t [FastStr],
) -> Result<Option<Led<'v, 't>>, AllocError>
    ensures some { IfOk result (λ found. IfSome found (IsLed tokens.now (form value.now))) }
    ensures none { IfOk result (λ found. found ≡ None → LeadNowhere tokens.now (form value.now)) }
{
    let mut nodes = Vec::new(alloc);
    let mut part = OwnedView::Node(value);
    'tokens: for token in tokens {
        let Some(node) = node_in(&part, token) else {
            return Ok(None);
        };
        let Some(next) = part.get(node) else {
            return Ok(None);
        };
        nodes.push(node)?;
        part = next;
    }
    Ok(Some(Led { nodes, part }))
}
