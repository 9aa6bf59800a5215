//! Values, as answers show them.
use rkt_base::NoMemory;
use rkt_uri::PathBuf;
use std::fmt::Debug;

/// A value with a text for the answer.
pub trait Shown {
    /// Adds the text.
    fn show(&self, out: &mut String) -> Result<(), NoMemory>;
}

impl Shown for u8 {
    fn show(&self, out: &mut String) -> Result<(), NoMemory> {
        write!(out, "{self}")
    }
}

impl Shown for String {
    fn show(&self, out: &mut String) -> Result<(), NoMemory> {
        write!(out, "{self:?}")
    }
}

impl Shown for Vec<String> {
    fn show(&self, out: &mut String) -> Result<(), NoMemory> {
        write!(out, "{self:?}")
    }
}

impl Shown for PathBuf {
    fn show(&self, out: &mut String) -> Result<(), NoMemory> {
        write!(out, "{:?}", self.as_str())
    }
}

/// Adds a value between brackets, behind the name of its variant.
fn show_named<V: Shown>(name: &str, value: &V, out: &mut String) -> Result<(), NoMemory> {
    write!(out, "{name}(")?;
    value.show(out)?;
    out.push_str(")")
}

impl<V: Shown> Shown for Option<V> {
    fn show(&self, out: &mut String) -> Result<(), NoMemory> {
        match self {
            Some(value) => show_named("Some", value, out),
            None => out.push_str("None"),
        }
    }
}

impl<V: Shown, E: Debug> Shown for Result<V, E> {
    fn show(&self, out: &mut String) -> Result<(), NoMemory> {
        match self {
            Ok(value) => show_named("Ok", value, out),
            Err(error) => write!(out, "Err({error:?})"),
        }
    }
}
