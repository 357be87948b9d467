// An editor that opens a file of settings.
ghost use Rattle.std.specs.Prelude.{◌≡◌, IfOk, IsTrue, OnErr, IsFalse};
ghost use Rattle.sonic_examples.specs.Settings.{theme_path};
ghost use Rattle.sonic_owned.specs.Edits.{IsEdit, IsRefused};
ghost use Rattle.sonic_owned.specs.Forms.{raw};
ghost use Rattle.sonic_owned.specs.Reached.{MeansStill};
ghost use Rattle.sonic_owned.specs.TreeEdits.{edit_at, set};
ghost use Rattle.sonic_owned.specs.Views.{form};
ghost use Rattle.sonic_pointer.specs.Nodes.{path_of};
ghost use Rattle.sonic_text.specs.Quoting.{quoted};

use sonic_error::Result;
use sonic_input::FastStr;
use sonic_lazy::JsonContainerTrait;
use sonic_owned::{Change, LazyObject, OwnedLazyValue};
use sonic_pointer::{PointerNode, pointer};
use std::alloc::Global;
use std::io;

const SETTINGS: &str =
    r#"{"theme": "d\u00e4mmerung", "tabs": { "width" : 4 }, "plugins": ["a", "b"]}"#;

const NESTED: &str = r#"{"editor": {"theme": "dunkel", "wrap": true}, "plugins": [ "a" ]}"#;

// Prints the keys of an object that is opened.
fn show_keys(rt: &impl Print, object: &LazyObject) -> io::Result<()> {
    for i in 0..object.len() {
        if let Some((key, _)) = object.at(i) {
            println!(rt; "setting {}", key.as_str())?;
        }
    }
    Ok(())
}

// Prints the text of the first member with a key.
fn show_text(rt: &impl Print, alloc: Global, object: &LazyObject, key: &str) -> io::Result<()> {
    let Some(i) = object.first_of_key(key) else {
        return println!(rt; "{key} isn't set");
    };
    let Some((_, value)) = object.at(i) else {
        return Ok(());
    };
    match value.as_str(alloc) {
        Ok(Some(text)) => println!(rt; "{key} = {}", text.as_str()),
        Ok(None) => println!(rt; "{key} is no text"),
        Err(error) => println!(rt; "{error}"),
    }
}

// Where the theme of the editor is.
fn theme_path() -> [PointerNode<'static>; 2]
    ensures { path_of result ≡ theme_path }
{
    pointer!["editor", "theme"]
}

/// Sets the theme of the editor, and leaves all else as it was. `false` where there is no such
/// setting: then, and after an error, the settings mean what they meant.
pub fn set_theme(alloc: Global, settings: &mut OwnedLazyValue, theme: FastStr) -> Result<bool>
    ensures made { IfOk result (λ is_set. IsTrue is_set
        → IsEdit (edit_at theme_path (set (raw (quoted theme)))) (form settings.old) (form settings.new)) }
    ensures refused { IfOk result (λ is_set. IsFalse is_set
        → IsRefused (edit_at theme_path (set (raw (quoted theme)))) (form settings.old)) }
    ensures same { IfOk result (λ is_set. IsFalse is_set
        → MeansStill (form settings.old) (form settings.new)) }
    ensures kept { OnErr result (MeansStill (form settings.old) (form settings.new)) }
{
    let theme = OwnedLazyValue::from_text(theme);
    let path = theme_path();
    settings.edit(alloc, &path, Change::Set(theme))
}

// Prints what is written once the theme is set.
fn show_edited(rt: &impl Print, alloc: Global, settings: &mut OwnedLazyValue) -> io::Result<()> {
    let Ok(theme) = FastStr::new(alloc, "hell") else {
        return println!(rt; "out of memory");
    };
    match set_theme(alloc, settings, theme) {
        Ok(true) => println!(rt; "{settings}"),
        Ok(false) => println!(rt; "there is no theme"),
        Err(error) => println!(rt; "{error}"),
    }
}

/// One level of a file of settings: its keys, the text of one, and what is written afterwards. Then a
/// setting inside another one is changed.
pub fn show(rt: &impl Print, alloc: Global) -> io::Result<()> {
    let mut settings = match OwnedLazyValue::from_str(alloc, SETTINGS) {
        Ok(settings) => settings,
        Err(error) => return println!(rt; "{error}"),
    };
    if let Err(error) = settings.load(alloc) {
        return println!(rt; "{error}");
    }
    let Some(object) = settings.as_object() else {
        return println!(rt; "these are no settings");
    };
    show_keys(rt, object)?;
    show_text(rt, alloc, object, "theme")?;
    show_text(rt, alloc, object, "tabs")?;
    println!(rt; "{settings}")?;
    match OwnedLazyValue::from_str(alloc, NESTED) {
        Ok(mut settings) => show_edited(rt, alloc, &mut settings),
        Err(error) => println!(rt; "{error}"),
    }
}
