// Random lists of edits, made by the library and by a plain slow program. The documents have no
// white space and no escapes, so the two must come to the same bytes.
ghost use Rattle.std.specs.Prelude.{◌<◌};

use crate::same::same_at;
use sonic_edits::{EditHead, edit_all, read_edits};
use sonic_owned::OwnedLazyValue;
use sonic_pointer::PointerNode;
use sonic_pointer::PointerNode::{Index, Key};
use std::alloc::{AllocError, Global};
use std::process::Abort;
use std::test::Fail;

// How many lists of edits are made.
const LISTS: usize = 2_000;

// How often a random document tries to get one more value.
const TRIES: usize = 14;

// Numbers in a random order, the same in each run.
#[derive(Drop)]
struct Random(usize);

impl Random {
    // The next number, which is below a bound.
    fn below(&mut self, bound: usize) -> usize
        requires { 0 < bound }
    {
        self.0 = self
            .0
            .wrapping_mul(6_364_136_223_846_793_005)
            .wrapping_add(1);
        (self.0 >> 33) % bound
    }

    fn key(&mut self) -> &'static str {
        match self.below(3) {
            0 => "a",
            1 => "b",
            _ => "c",
        }
    }

    fn kind(&mut self) -> Kind {
        match self.below(9) {
            0 => Kind::Scalar("0"),
            1 | 2 | 3 | 4 => Kind::Array,
            _ => Kind::Object,
        }
    }

    fn given(&mut self) -> Given {
        match self.below(4) {
            0 => Given::Number,
            1 => Given::Text,
            2 => Given::Array,
            _ => Given::Object,
        }
    }

    // A change, mostly one that can be made of a value of this kind.
    fn change(&mut self, kind: Kind) -> PlainChange {
        let given = self.given();
        match (self.below(16), kind) {
            (0 | 1, _) => PlainChange::Take,
            (2 | 3, _) | (_, Kind::Scalar(_)) => PlainChange::Set(given),
            (4, _) => PlainChange::Push(given),
            (5, _) => PlainChange::Pair(self.key(), given),
            (_, Kind::Array) => PlainChange::Push(given),
            (_, Kind::Object) => PlainChange::Pair(self.key(), given),
        }
    }
}

// A kind of values, with the text of a scalar.
#[derive(Clone, Copy)]
enum Kind {
    Scalar(&'static str),
    Array,
    Object,
}

// An item of an array or an object: its key, empty in an array, and its value's number.
#[derive(Clone, Copy)]
struct Item {
    key: &'static str,
    number: usize,
}

// A value, with the items that it has.
#[derive(Drop)]
struct Value {
    kind: Kind,
    items: Vec<Item>,
}

impl Value {
    // The number of the value to which a node leads.
    fn child(&self, node: PointerNode<'static>) -> Option<usize> {
        match (self.kind, node) {
            (Kind::Array, Index(i)) => Some(self.items.get(i)?.number),
            (Kind::Object, Key(key)) => self.first_of_key(key),
            _ => None,
        }
    }

    fn first_of_key(&self, key: &str) -> Option<usize> {
        for item in self.items.as_slice() {
            if item.key == key {
                return Some(item.number);
            }
        }
        None
    }

    // The text of the value, if these are the texts of all values.
    fn text(&self, alloc: Global, texts: &[String]) -> Result<String, AllocError> {
        let (open, close) = match self.kind {
            Kind::Scalar(text) => (text, ""),
            Kind::Array => ("[", "]"),
            Kind::Object => ("{", "}"),
        };
        let mut text = String::from_str(alloc, open)?;
        let mut comma = "";
        for item in self.items.as_slice() {
            text.push_str(comma)?;
            self.write_key(&mut text, item.key)?;
            if let Some(child) = texts.get(item.number) {
                text.push_str(child.as_str())?;
            }
            comma = ",";
        }
        text.push_str(close)?;
        Ok(text)
    }

    // Writes a key of the value, if it has keys.
    fn write_key(&self, text: &mut String, key: &str) -> Result<(), AllocError> {
        match self.kind {
            Kind::Object => {
                text.push('"')?;
                text.push_str(key)?;
                text.push_str("\":")
            }
            _ => Ok(()),
        }
    }
}

// A value that an edit puts.
#[derive(Clone, Copy)]
enum Given {
    Number,
    Text,
    Array,
    Object,
}

impl Given {
    fn text(self) -> &'static str {
        match self {
            Given::Number => "1",
            Given::Text => "\"x\"",
            Given::Array => "[2]",
            Given::Object => "{\"a\":3}",
        }
    }
}

#[derive(Clone, Copy)]
enum PlainChange {
    Set(Given),
    Push(Given),
    Pair(&'static str, Given),
    Take,
}

#[derive(Drop)]
struct PlainEdit {
    path: Vec<PointerNode<'static>>,
    change: PlainChange,
}

impl PlainEdit {
    // Writes the line that says the edit.
    fn write_line(&self, alloc: Global, line: &mut String) -> Result<(), AllocError> {
        line.push_str(match self.change {
            PlainChange::Set(_) => "[\"set\",",
            PlainChange::Push(_) => "[\"push\",",
            PlainChange::Pair(_, _) => "[\"pair\",",
            PlainChange::Take => "[\"take\",",
        })?;
        self.write_path(alloc, line)?;
        match self.change {
            PlainChange::Set(given) | PlainChange::Push(given) => {
                line.push(',')?;
                line.push_str(given.text())?;
            }
            PlainChange::Pair(key, given) => {
                line.push_str(",\"")?;
                line.push_str(key)?;
                line.push_str("\",")?;
                line.push_str(given.text())?;
            }
            PlainChange::Take => {}
        }
        line.push_str("]\n")
    }

    fn write_path(&self, alloc: Global, line: &mut String) -> Result<(), AllocError> {
        let mut before = "[";
        for node in self.path.as_slice() {
            line.push_str(before)?;
            match node {
                Key(key) => {
                    line.push('"')?;
                    line.push_str(key)?;
                    line.push('"')?;
                }
                Index(i) => line.push_str(&format!(in alloc; "{i}")?)?,
            }
            before = ",";
        }
        line.push_str(if self.path.is_empty() { "[]" } else { "]" })
    }
}

// A document: its values by their numbers. The first is the whole, and an item's number is above
// that of the value that it is in. A value that an edit took away stays, and is in no other.
#[derive(Drop)]
struct Tree {
    values: Vec<Value>,
}

impl Tree {
    fn random(alloc: Global, random: &mut Random) -> Result<Tree, AllocError> {
        let mut tree = Tree {
            values: Vec::new(alloc),
        };
        tree.add(alloc, random.kind())?;
        for _ in 0..TRIES {
            let parent = random.below(6);
            let kind = random.kind();
            match tree.kind_at(parent) {
                Kind::Scalar(_) => {}
                Kind::Array | Kind::Object => {
                    tree.append(alloc, parent, random.key(), kind)?;
                }
            }
        }
        Ok(tree)
    }

    // The kind of a value, that of a scalar where it is none.
    fn kind_at(&self, number: usize) -> Kind {
        match self.values.get(number) {
            Some(value) => value.kind,
            None => Kind::Scalar(""),
        }
    }

    // Adds a value with no items, which is in no other yet, and gives its number.
    fn add(&mut self, alloc: Global, kind: Kind) -> Result<usize, AllocError> {
        let number = self.values.len();
        let items = Vec::new(alloc);
        self.values.push(Value { kind, items })?;
        Ok(number)
    }

    // Appends an item with a new value to a value, and gives the new one's number.
    fn append(
        &mut self,
        alloc: Global,
        parent: usize,
        key: &'static str,
        kind: Kind,
    ) -> Result<usize, AllocError> {
        let number = self.add(alloc, kind)?;
        if let Some(value) = self.values.get_mut(parent) {
            value.items.push(Item { key, number })?;
        }
        Ok(number)
    }

    // Puts a value with no items in the place of another.
    fn put_kind(&mut self, alloc: Global, number: usize, kind: Kind) {
        if let Some(value) = self.values.get_mut(number) {
            *value = Value {
                kind,
                items: Vec::new(alloc),
            };
        }
    }

    // Puts a value that an edit gives in the place of another.
    fn put(&mut self, alloc: Global, number: usize, given: Given) -> Result<(), AllocError> {
        match given {
            Given::Number => self.put_kind(alloc, number, Kind::Scalar("1")),
            Given::Text => self.put_kind(alloc, number, Kind::Scalar("\"x\"")),
            Given::Array => {
                self.put_kind(alloc, number, Kind::Array);
                self.append(alloc, number, "", Kind::Scalar("2"))?;
            }
            Given::Object => {
                self.put_kind(alloc, number, Kind::Object);
                self.append(alloc, number, "a", Kind::Scalar("3"))?;
            }
        }
        Ok(())
    }

    // The number of the value to which a path leads.
    fn find(&self, path: &[PointerNode<'static>]) -> Option<usize> {
        let mut number = 0;
        for node in path {
            number = self.values.get(number)?.child(*node)?;
        }
        Some(number)
    }

    // Makes an edit, unless it is refused.
    fn make(&mut self, alloc: Global, edit: &PlainEdit) -> Result<bool, AllocError> {
        let Some(number) = self.find(edit.path.as_slice()) else {
            return Ok(false);
        };
        match (edit.change, self.kind_at(number)) {
            (PlainChange::Set(given), _) => self.put(alloc, number, given)?,
            (PlainChange::Take, _) => self.put_kind(alloc, number, Kind::Scalar("null")),
            (PlainChange::Push(given), Kind::Array) => {
                let added = self.append(alloc, number, "", Kind::Array)?;
                self.put(alloc, added, given)?;
            }
            (PlainChange::Pair(key, given), Kind::Object) => {
                let added = self.append(alloc, number, key, Kind::Array)?;
                self.put(alloc, added, given)?;
            }
            _ => return Ok(false),
        }
        Ok(true)
    }

    // The text of the whole. The values' texts are made from the last to the first, since the items
    // of a value come after it.
    fn text(&self, alloc: Global) -> Result<String, AllocError> {
        let mut texts = Vec::new(alloc);
        for _ in 0..self.values.len() {
            texts.push(String::new(alloc))?;
        }
        let mut whole = String::new(alloc);
        for i in (0..self.values.len()).rev() {
            if let Some(value) = self.values.get(i) {
                whole = value.text(alloc, texts.as_slice())?;
            }
            if let Some(text) = texts.get_mut(i) {
                *text = String::from_str(alloc, whole.as_str())?;
            }
        }
        Ok(whole)
    }

    // A random node, mostly one that leads on from a value, and the number of the value to which it
    // leads. None where nothing leads on.
    fn random_node(
        &self,
        random: &mut Random,
        number: usize,
    ) -> Option<(PointerNode<'static>, usize)> {
        match random.below(24) {
            0 => return Some((Key(random.key()), 0)),
            1 => return Some((Index(random.below(3)), 0)),
            _ => {}
        }
        let value = self.values.get(number)?;
        if value.items.is_empty() {
            return None;
        }
        let i = random.below(value.items.len());
        let item = value.items.get(i)?;
        match value.kind {
            Kind::Object => Some((Key(item.key), item.number)),
            _ => Some((Index(i), item.number)),
        }
    }

    // A random edit, mostly one that isn't refused.
    fn random_edit(&self, alloc: Global, random: &mut Random) -> Result<PlainEdit, AllocError> {
        let mut path = Vec::new(alloc);
        let mut number = 0;
        for _ in 0..random.below(4) {
            let Some((node, next)) = self.random_node(random, number) else {
                break;
            };
            path.push(node)?;
            number = next;
        }
        let change = random.change(self.kind_at(number));
        Ok(PlainEdit { path, change })
    }
}

// Makes a random list of edits in a random document, and checks that the library does the same.
fn check_list(rt: &impl Abort, alloc: Global, random: &mut Random) -> Result<(), Fail> {
    let mut tree = Tree::random(alloc, random)?;
    let document = tree.text(alloc)?;
    let mut input = String::new(alloc);
    let mut refused = None;
    for number in 1..=random.below(7) {
        let edit = tree.random_edit(alloc, random)?;
        edit.write_line(alloc, &mut input)?;
        if refused.is_none() && !tree.make(alloc, &edit)? {
            refused = Some(number);
        }
    }
    input.push('\n')?;
    let start = input.len();
    input.push_str(document.as_str())?;
    let EditHead::Edits(edits, place) = read_edits(alloc, input.as_bytes())? else {
        panic!(rt; "{input} has a bad line");
    };
    same_at(rt, place, start, &input);
    let Ok(mut value) = OwnedLazyValue::from_str(alloc, document.as_str()) else {
        panic!(rt; "{document} is no value");
    };
    same_at(rt, edit_all(alloc, &mut value, edits)?, refused, &input);
    let Ok(text) = value.to_string(alloc) else {
        panic!(rt; "memory is ample");
    };
    same_at(rt, text.as_str(), tree.text(alloc)?.as_str(), &input);
    Ok(())
}

#[test]
fn random_edits_are_made_as_by_a_plain_program(rt: HostRuntime) -> Result<(), Fail> {
    let mut random = Random(1);
    for _ in 0..LISTS {
        check_list(&rt, rt.alloc(), &mut random)?;
    }
    Ok(())
}
