//! `pointer!`.

/// Makes a path, as an array of nodes: `pointer!["a", 1]` has the nodes `Key("a")` and `Index(1)`.
///
/// Each part is anything that a `PointerNode` is made from, and `pointer![]` is the empty path.
#[macro_export]
macro_rules! pointer {
    () => {{
        let none: [$crate::PointerNode; 0] = [];
        none
    }};
    ($($node:expr),+ $(,)?) => {
        [$($crate::PointerNode::from($node)),+]
    };
}
