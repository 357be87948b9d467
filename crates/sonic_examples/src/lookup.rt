// One path looked up many times in a document of standard input, which is checked once.
use sonic_error::Error;
use sonic_lazy::{LazyValue, get, get_unchecked, validate};
use sonic_pointer::PointerNode;
use std::alloc::Global;
use std::io::{self, Read};
use std::{env, str};

/// Which call looks a path up.
#[derive(Clone, Copy, Debug, PartialEq, Eq)]
enum Call {
    Get,
    GetUnchecked,
}

/// A path, the call that looks it up, and how often.
#[derive(Drop)]
pub struct Lookup {
    call: Call,
    times: u32,
    path: Vec<String>,
}

// The node of a word: an index where it is a number, and else a key.
fn node(word: &str) -> PointerNode<'_> {
    match word.parse() {
        Ok(index) => PointerNode::Index(index),
        Err(_) => PointerNode::Key(word),
    }
}

/// The look-up that the words of the command line ask for: `get` or `get_unchecked`, a number, and
/// the nodes of a path. Else `None`.
pub fn asked(rt: &HostRuntime, alloc: Global) -> io::Result<Option<Lookup>> {
    let mut words = env::args(rt)?.skip(1);
    let call = match words.next() {
        Some(word) if word.as_str() == "get" => Call::Get,
        Some(word) if word.as_str() == "get_unchecked" => Call::GetUnchecked,
        _ => return Ok(None),
    };
    let times = match words.next() {
        Some(word) => word.parse().unwrap_or(1),
        None => 1,
    };
    let path = words.collect(alloc)?;
    Ok(Some(Lookup { call, times, path }))
}

impl Lookup {
    // The value, as the last look-up found it.
    fn find<'t>(
        &self,
        alloc: Global,
        text: &'t [u8],
        path: &[PointerNode<'_>],
    ) -> Result<LazyValue<'t>, Error> {
        validate(alloc, text)?;
        let mut found = get_unchecked(text, path);
        for _ in 1..self.times {
            found = match self.call {
                Call::Get => get(alloc, text, path),
                Call::GetUnchecked => get_unchecked(text, path),
            };
        }
        found
    }

    /// Looks the path up in the text of standard input, and prints the length of its value.
    pub fn run(&self, rt: &HostRuntime, alloc: Global) -> io::Result<()> {
        let mut text = Vec::new(alloc);
        rt.stdin().read_to_end(&mut text)?;
        let mut path = Vec::with_capacity(alloc, self.path.len())?;
        for word in &self.path {
            path.push(node(word))?;
        }
        match self.find(alloc, &text, &path) {
            Ok(value) => println!(rt; "{}", value.as_raw_str().len()),
            Err(error) => println!(rt; "{error}"),
        }
    }
}
