// Elements of long and of nested arrays by an index, beside a plain count.
use crate::same::same_at;
use sonic_index::JsonIndex;
use sonic_pointer::PointerNode;
use sonic_pointer::PointerNode::Index;
use std::alloc::Global;
use std::process::Abort;
use std::test::Fail;

// Elements of an array, in turn.
type Shapes<'a> = [&'a str; 4];

const SHAPES: [Shapes<'static>; 4] = [
    ["0", "1", "2", "3"],
    ["[]", "[[[[0],1]],2]", "{}", "[[],[]]"],
    ["{\"a\":[1,2],\"b\":{}}", "7", "[{\"\":[3]}]", "\",[\""],
    ["[[0,1,2,3,4,5,6,7],[8]]", "null", "true", "\"]\""],
];

const COUNTS: [usize; 6] = [0, 1, 2, 3, 64, 1_000];

// How many arrays are in one, and how many elements each of them has.
const NESTED: [(usize, usize); 4] = [(1, 1), (3, 2), (2, 64), (64, 3)];

// After how many elements an array is in another one, and how many are so.
const DEEP: [(usize, usize); 4] = [(0, 50), (7, 20), (8, 20), (9, 200)];

// An array, and the places where its elements begin.
#[derive(Drop)]
struct Listing {
    text: String,
    starts: Vec<usize>,
}

fn array(alloc: Global, shapes: &Shapes<'_>, count: usize) -> Result<Listing, Fail> {
    let mut text = String::from_str(alloc, "[")?;
    let mut starts = Vec::new(alloc);
    for number in 0..count {
        if number != 0 {
            text.push(',')?;
        }
        starts.push(text.len())?;
        text.push_str(shapes[number % 4])?;
    }
    text.push(']')?;
    Ok(Listing { text, starts })
}

// Where the value begins to which a path leads.
fn start_of(index: &JsonIndex<'_>, path: &[PointerNode<'_>]) -> Option<usize> {
    let entry = index.entry(index.find(path)?)?;
    Some(entry.start)
}

// Checks each element, and that there are no others.
fn check(rt: &impl Abort, alloc: Global, shapes: &Shapes<'_>, count: usize) -> Result<(), Fail> {
    let array = array(alloc, shapes, count)?;
    let index = JsonIndex::build(alloc, array.text.as_str()).expect(rt, "a valid document");
    for (number, &start) in array.starts.iter().enumerate() {
        same_at(rt, start_of(&index, &[Index(number)]), Some(start), number);
    }
    same_at(rt, index.find(&[Index(count)]), None, count);
    same_at(rt, index.find(&[Index(usize::MAX)]), None, count);
    Ok(())
}

#[test]
fn finds_each_element(rt: HostRuntime) -> Result<(), Fail> {
    for shapes in &SHAPES {
        for &count in &COUNTS {
            check(&rt, rt.alloc(), shapes, count)?;
        }
    }
    Ok(())
}

// Checks each element of so many arrays in one.
fn check_nested(rt: &impl Abort, alloc: Global, arrays: usize, count: usize) -> Result<(), Fail> {
    let inner = array(alloc, &SHAPES[1], count)?;
    let text = inner.text.as_str();
    let outer = array(alloc, &[text, text, text, text], arrays)?;
    let index = JsonIndex::build(alloc, outer.text.as_str()).expect(rt, "a valid document");
    for (number, &place) in outer.starts.iter().enumerate() {
        for (other, &start) in inner.starts.iter().enumerate() {
            let found = start_of(&index, &[Index(number), Index(other)]);
            same_at(rt, found, Some(place.saturating_add(start)), other);
        }
        same_at(rt, index.find(&[Index(number), Index(count)]), None, count);
    }
    Ok(())
}

#[test]
fn finds_each_element_of_nested_arrays(rt: HostRuntime) -> Result<(), Fail> {
    for &(arrays, count) in &NESTED {
        check_nested(&rt, rt.alloc(), arrays, count)?;
    }
    Ok(())
}

// Arrays one inside the other, each after so many elements, and the places where their last elements
// begin.
fn deep(alloc: Global, elements: usize, depth: usize) -> Result<Listing, Fail> {
    let mut level = String::from_str(alloc, "[")?;
    for _ in 0..elements {
        level.push_str("0,")?;
    }
    let mut text = String::new(alloc);
    let mut starts = Vec::new(alloc);
    for _ in 0..depth {
        text.push_str(level.as_str())?;
        starts.push(text.len())?;
    }
    text.push('7')?;
    for _ in 0..depth {
        text.push(']')?;
    }
    Ok(Listing { text, starts })
}

// Checks the paths that lead from each array to its last element.
fn check_deep(rt: &impl Abort, alloc: Global, elements: usize, depth: usize) -> Result<(), Fail> {
    let arrays = deep(alloc, elements, depth)?;
    let index = JsonIndex::build(alloc, arrays.text.as_str()).expect(rt, "a valid document");
    let mut path = Vec::new(alloc);
    for (number, &start) in arrays.starts.iter().enumerate() {
        path.push(Index(elements))?;
        same_at(rt, start_of(&index, path.as_slice()), Some(start), number);
    }
    path.push(Index(0))?;
    same_at(rt, index.find(path.as_slice()), None, depth);
    Ok(())
}

#[test]
fn finds_the_last_element_of_arrays_one_inside_the_other(rt: HostRuntime) -> Result<(), Fail> {
    for &(elements, depth) in &DEEP {
        check_deep(&rt, rt.alloc(), elements, depth)?;
    }
    Ok(())
}
