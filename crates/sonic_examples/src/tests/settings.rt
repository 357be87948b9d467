// One setting changed in a file of two hundred lines.
use crate::settings::set_theme;
use sonic_input::FastStr;
use sonic_owned::OwnedLazyValue;
use std::process::Abort;
use std::test::Fail;

// How many lines of other settings are before the editor's, and how many after it.
const LINES: u32 = 99;

#[test]
fn changes_one_setting_and_keeps_all_other_text(rt: HostRuntime) -> Result<(), Fail> {
    let alloc = rt.alloc();
    let mut file = String::new(alloc);
    let mut wanted = String::new(alloc);
    file.push_str("{\n")?;
    wanted.push_str("{")?;
    for i in 0..LINES {
        write!(
            file,
            "  \"before {i}\" : [ {i}.0 , {{\"\\u0061\" : \"\\/\"}} ] ,\n"
        )?;
        write!(
            wanted,
            "\"before {i}\":[ {i}.0 , {{\"\\u0061\" : \"\\/\"}} ],"
        )?;
    }
    file.push_str("  \"editor\" : { \"wrap\" : [ true ] , \"theme\" : \"dunkel\" } ,\n")?;
    wanted.push_str("\"editor\":{\"wrap\":[ true ],\"theme\":\"hell\"}")?;
    for i in 0..LINES {
        write!(file, "  \"after {i}\" : 1e{i} ,\n")?;
        write!(wanted, ",\"after {i}\":1e{i}")?;
    }
    file.push_str("  \"last\" : null\n}\n")?;
    wanted.push_str(",\"last\":null}")?;
    let Ok(mut settings) = OwnedLazyValue::from_str(alloc, file.as_str()) else {
        panic!(rt; "the file is a document");
    };
    let theme = FastStr::new(alloc, "hell")?;
    match set_theme(alloc, &mut settings, theme) {
        Ok(is_set) => assert!(rt; is_set),
        Err(error) => panic!(rt; "{error}"),
    }
    assert_eq!(rt; &format!(in alloc; "{settings}")?[..], wanted.as_str());
    Ok(())
}
