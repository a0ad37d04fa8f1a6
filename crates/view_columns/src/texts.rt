ghost use Rattle.std.specs.Prelude.{◌≡◌, ◌==◌, ◌||◌, ◌++◌, IfOk, OnOk, encode_utf8, string_bytes};
ghost use Rattle.std.specs.List.{flat_map};
ghost use Rattle.cal_units.specs.DateText.{date_text};
ghost use Rattle.view_spec.specs.Cells.{escaped_byte, part_text, path_text as text_of_path};

use cal_units::{Day, write_date};
use cell_core::{Cell, Memory, Text};
use std::alloc::Global;

/// The text of a column under a split path: each split value before a bar, and then the column's name as it is. In a
/// string a bar and a backslash stand behind a backslash, and null is `\-`. Want of memory is the only refusal.
pub fn path_text(alloc: Global, split: &[Cell], name: &str) -> Result<Text, Memory>
    ensures { IfOk result (λ text. text ≡ text_of_path split.now name.now) }
{
    let mut text = String::new(alloc);
    for value in split {
        add_part(alloc, &mut text, value)?;
        text.push('|')?;
    }
    text.push_str(name)?;
    Ok(Text::from_string(text))
}

/// Adds the text of one split value.
fn add_part(alloc: Global, text: &mut String, value: &Cell) -> Result<(), Memory>
    ensures { OnOk result (string_bytes text.new ≡ string_bytes text.old ++ part_text value.now) }
{
    match value {
        Cell::Null => text.push_str("\\-")?,
        Cell::Bool(true) => text.push_str("true")?,
        Cell::Bool(false) => text.push_str("false")?,
        Cell::Int(number) => text.push_str(format!(in alloc; "{number}")?.as_str())?,
        Cell::Date(day) => add_date(text, *day)?,
        Cell::Moment(moment) => {
            let number = moment.number();
            text.push_str(format!(in alloc; "{number}")?.as_str())?;
        }
        Cell::Words(words) => add_escaped(text, words.as_str())?,
    }
    Ok(())
}

fn add_date(text: &mut String, day: Day) -> Result<(), Memory>
    ensures { OnOk result (string_bytes text.new ≡ string_bytes text.old ++ date_text day) }
{
    let digits = write_date(day);
    match str::from_utf8(&digits) {
        Ok(date) => text.push_str(date)?,
        Err(_) => unreachable!(),
    }
    Ok(())
}

/// Adds a string with its bars and backslashes escaped.
fn add_escaped(text: &mut String, words: &str) -> Result<(), Memory>
    ensures { OnOk result (string_bytes text.new ≡ string_bytes text.old ++ flat_map escaped_byte words.now) }
{
    for letter in words.chars() {
        add_letter(text, letter)?;
    }
    Ok(())
}

fn add_letter(text: &mut String, letter: char) -> Result<(), Memory>
    ensures { OnOk result (string_bytes text.new ≡ string_bytes text.old ++ flat_map escaped_byte (encode_utf8 letter)) }
{
    if needs_escape(letter) {
        text.push('\\')?;
    }
    text.push(letter)?;
    Ok(())
}

fn needs_escape(letter: char) -> bool
    ensures { result ≡ ((letter == 92) || (letter == 124)) }
{
    letter == '\\' || letter == '|'
}
