// Heads that are read into a tree that holds a path.
use crate::same::same_at;
use sonic_paths::internal::HeadEnd::{Bad, Document};
use sonic_paths::internal::{HeadEnd, read_head};
use sonic_pointer::PointerNode::{Index, Key};
use sonic_pointer::PointerTree;
use std::test::Fail;

// A head, how it ends, and how many paths a tree then holds that held the path `["a",1]`.
const HEADS: [(&[u8], HeadEnd, usize); 7] = [
    (b"", Document(0), 1),
    (b"\n[0]", Document(1), 1),
    (b"[\"a\"]", Document(5), 2),
    (b"[\"a\",0]\n[\"b\"]\n\n[7]", Document(15), 3),
    (b"[\"a\",\"b\"]\n\n", Bad(1), 1),
    (b"[\"b\"]\n[0]\n\n", Bad(2), 2),
    (b"[\"b\"]\n[\"a\",2]\n[\"a\",\"c\"]\n[]", Bad(3), 3),
];

#[test]
fn reads_heads_into_a_tree(rt: HostRuntime) -> Result<(), Fail> {
    let alloc = rt.alloc();
    for &(input, end, count) in &HEADS {
        let mut tree = PointerTree::new(alloc);
        tree.add_path(alloc, &[Key("a"), Index(1)])
            .expect(&rt, "a path");
        same_at(&rt, read_head(alloc, input, &mut tree)?, end, input);
        same_at(&rt, tree.size(), count, input);
    }
    Ok(())
}
