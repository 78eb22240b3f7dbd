//! The members of a row.

use anyhow::{Result, bail};
use serde_json::Value;
use std::alloc::Global;
use tui_cells::Size;

/// A member; none if it is absent or null.
pub(crate) fn member<'v>(value: &'v Value, key: &str) -> Option<&'v Value> {
    match value.get(key) {
        Some(member) if !member.is_null() => Some(member),
        _ => None,
    }
}

/// Fails if a value is not an object, or has other keys than these: a key that is misspelt is an error.
pub(crate) fn check_keys(value: &Value, known: &[&str]) -> Result<()> {
    let Some(members) = value.as_object() else {
        bail!("not an object");
    };
    for (key, _member) in members {
        if !is_among(key.as_str(), known) {
            bail!("an unknown key");
        }
    }
    Ok(())
}

fn is_among(key: &str, known: &[&str]) -> bool {
    for name in known {
        if *name == key {
            return true;
        }
    }
    false
}

/// A member that is a text.
pub(crate) fn text<'v>(value: &'v Value, key: &str) -> Option<&'v str> {
    member(value, key)?.as_str()
}

/// A text in a member that is an object.
pub(crate) fn text_in<'v>(value: &'v Value, key: &str, name: &str) -> Option<&'v str> {
    text(member(value, key)?, name)
}

/// A value that is a number below 2^16.
pub(crate) fn small(value: &Value) -> Option<u16> {
    match u16::try_from(value.as_u64()?) {
        Ok(number) => Some(number),
        Err(_) => None,
    }
}

/// A member that is a truth value; false if it is absent.
pub(crate) fn flag(value: &Value, key: &str) -> Option<bool> {
    match member(value, key) {
        None => Some(false),
        Some(member) => member.as_bool(),
    }
}

/// A member that is an array; an empty one if it is absent.
pub(crate) fn list<'v>(value: &'v Value, key: &str) -> Option<&'v [Value]> {
    match member(value, key) {
        None => Some(&[]),
        Some(member) => Some(member.as_array()?.as_slice()),
    }
}

/// A member that is an array of numbers.
pub(crate) fn numbers(alloc: Global, value: &Value, key: &str) -> Result<Vec<u64>> {
    let mut numbers = Vec::new(alloc);
    let Some(values) = list(value, key) else {
        bail!("no array of numbers");
    };
    for value in values {
        match value.as_u64() {
            Some(number) => numbers.push(number)?,
            None => bail!("no number"),
        }
    }
    Ok(numbers)
}

/// A member that is an array of texts.
pub(crate) fn texts<'v>(alloc: Global, value: &'v Value, key: &str) -> Result<Vec<&'v str>> {
    let mut texts = Vec::new(alloc);
    let Some(values) = list(value, key) else {
        bail!("no array of texts");
    };
    for value in values {
        match value.as_str() {
            Some(text) => texts.push(text)?,
            None => bail!("no text"),
        }
    }
    Ok(texts)
}

/// A member that is an object of texts, as names with their texts; none if it is absent.
pub(crate) fn texts_by_name<'v>(
    alloc: Global,
    value: &'v Value,
    key: &str,
) -> Result<Vec<(&'v str, &'v str)>> {
    let mut texts = Vec::new(alloc);
    let Some(member) = member(value, key) else {
        return Ok(texts);
    };
    let Some(members) = member.as_object() else {
        bail!("no object of texts");
    };
    for (name, text) in members {
        match text.as_str() {
            Some(text) => texts.push((name.as_str(), text))?,
            None => bail!("no text"),
        }
    }
    Ok(texts)
}

/// The columns and rows of a screen.
pub(crate) fn size(value: &Value) -> Result<Size> {
    match (member(value, "width"), member(value, "height")) {
        (Some(width), Some(height)) => {
            let (width, height) = pair(width, height)?;
            Ok(Size { width, height })
        }
        _ => bail!("no size"),
    }
}

/// Two numbers below 2^16.
pub(crate) fn pair(first: &Value, second: &Value) -> Result<(u16, u16)> {
    match (small(first), small(second)) {
        (Some(first), Some(second)) => Ok((first, second)),
        _ => bail!("no number below 65536"),
    }
}
