//! The edits that make one value of another.

use json5_edit::{EditError, Result, Step, remove};
use json5_edit_values::{insert_value, push_value, set_value};
use json5_types::value::Value;
use std::alloc::Global;

/// How many objects and arrays are gone into, one within another.
const LEVELS: usize = 128;

/// Where a text is edited.
#[derive(Drop)]
struct Edits<'v> {
    alloc: Global,
    path: Vec<Step<'v>>,
    text: String,
}

/// The text with the wanted value, which had the other before.
pub(crate) fn edited(alloc: Global, text: &str, before: &Value, wanted: &Value) -> Result<String> {
    let mut edits = Edits {
        alloc,
        path: Vec::new(alloc),
        text: String::from_str(alloc, text).map_err(|_| EditError::NoMemory)?,
    };
    edits.make(before, wanted, LEVELS)?;
    Ok(edits.text)
}

impl<'v> Edits<'v> {
    /// Makes the wanted value of the one that the path leads to.
    #[cycle(edits)]
    fn make(&mut self, before: &'v Value, wanted: &'v Value, levels: usize) -> Result<()> {
        if before == wanted {
            return Ok(());
        }
        match (before, wanted) {
            (Value::Object(_), Value::Object(_)) if levels > 0 && keeps_order(before, wanted) => {
                self.remove_gone(before, wanted)?;
                self.make_members(before, wanted, levels - 1)
            }
            (Value::Array(olds), Value::Array(news)) if levels > 0 => {
                self.make_elements(olds.as_slice(), news.as_slice(), levels - 1)?;
                self.make_long(olds.len(), news.as_slice())
            }
            _ => self.set(wanted),
        }
    }

    /// Removes the members whose keys the wanted object lacks.
    fn remove_gone(&mut self, before: &'v Value, wanted: &Value) -> Result<()> {
        for (key, _) in before.entries() {
            if wanted.get(key.as_str()).is_none() {
                self.remove_at(Step::Key(key.as_str()))?;
            }
        }
        Ok(())
    }

    /// Makes the wanted members, of those with equal keys the last.
    #[cycle(edits)]
    fn make_members(&mut self, before: &'v Value, wanted: &'v Value, levels: usize) -> Result<()> {
        for (key, _) in wanted.entries() {
            let key = key.as_str();
            match (before.get(key), wanted.get(key)) {
                (Some(old), Some(new)) => self.make_at(Step::Key(key), old, new, levels)?,
                (None, Some(new)) => self.insert(key, new)?,
                _ => {}
            }
        }
        Ok(())
    }

    /// Makes the wanted elements where there were others.
    #[cycle(edits)]
    fn make_elements(&mut self, olds: &'v [Value], news: &'v [Value], levels: usize) -> Result<()> {
        for index in 0..olds.len().min(news.len()) {
            self.make_at(Step::Index(index), &olds[index], &news[index], levels)?;
        }
        Ok(())
    }

    /// Makes the wanted value of the one that the step leads to.
    #[cycle(edits)]
    fn make_at(
        &mut self,
        step: Step<'v>,
        before: &'v Value,
        wanted: &'v Value,
        levels: usize,
    ) -> Result<()> {
        self.path.push(step).map_err(|_| EditError::NoMemory)?;
        self.make(before, wanted, levels)?;
        self.path.pop();
        Ok(())
    }

    /// Takes the elements past the wanted ones, the last first, or adds what is lacking.
    fn make_long(&mut self, len: usize, news: &[Value]) -> Result<()> {
        for back in 0..len.saturating_sub(news.len()) {
            self.remove_at(Step::Index(len.saturating_sub(back + 1)))?;
        }
        for index in len..news.len() {
            self.text = push_value(self.alloc, &self.text, self.path.as_slice(), &news[index])?;
        }
        Ok(())
    }

    fn set(&mut self, wanted: &Value) -> Result<()> {
        self.text = set_value(self.alloc, &self.text, self.path.as_slice(), wanted)?;
        Ok(())
    }

    fn insert(&mut self, key: &str, new: &Value) -> Result<()> {
        self.text = insert_value(self.alloc, &self.text, self.path.as_slice(), key, new)?;
        Ok(())
    }

    fn remove_at(&mut self, step: Step<'v>) -> Result<()> {
        self.path.push(step).map_err(|_| EditError::NoMemory)?;
        self.text = remove(self.alloc, &self.text, self.path.as_slice())?;
        self.path.pop();
        Ok(())
    }
}

/// Whether the wanted object begins with the members that stay, in their order.
fn keeps_order(before: &Value, wanted: &Value) -> bool {
    let news = wanted.entries();
    let mut count: usize = 0;
    for (key, _) in before.entries() {
        if wanted.get(key.as_str()).is_some() {
            if !is_named(news, count, key.as_str()) {
                return false;
            }
            count = count.saturating_add(1);
        }
    }
    for index in count..news.len() {
        if before.get(news[index].0.as_str()).is_some() {
            return false;
        }
    }
    true
}

/// Whether the member at this place has the key.
fn is_named(fields: &[(String, Value)], place: usize, key: &str) -> bool {
    match fields.get(place) {
        Some((name, _)) => name.as_str() == key,
        None => false,
    }
}
