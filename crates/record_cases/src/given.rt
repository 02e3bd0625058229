//! What a line gives.

use crate::sips::Sips;
use crate::text::text_of;
use case_text::{items_of, member_text};
use osq_outside::{Fail, FailList, MemorySource};
use osq_value::{Bytes, Category, CategoryList, Copied, NoMemory, SourceKind, Str, TextList};
use serde_json::Value as Json;
use std::alloc::Global;

/// A source gives so many bytes at a time where its line doesn't say how many.
const WIDTH: usize = 65_536;

/// A line, with the lines that gave texts and categories.
#[derive(Clone, Copy)]
pub(crate) struct Given<'a> {
    pub(crate) line: &'a Json,
    pub(crate) texts: &'a Json,
    pub(crate) categories: &'a Json,
}

/// Adds a pattern, of excluded paths where a `!` stands before it.
fn add_pattern(alloc: Global, category: &mut Category, text: &str) -> Result<(), NoMemory> {
    match text.strip_prefix('!') {
        Some(pattern) => category.excluded.push(Str::of(alloc, pattern)?),
        None => category.patterns.push(Str::of(alloc, text)?),
    }
}

/// Names the category by the first of these texts, and adds the others as patterns.
fn fill_category(alloc: Global, category: &mut Category, items: &[Json]) -> Result<(), NoMemory> {
    let mut texts = items.iter().filter_map(Json::as_str);
    category.name = Str::of(alloc, texts.next().unwrap_or(""))?;
    for text in texts {
        add_pattern(alloc, category, text)?;
    }
    Ok(())
}

/// The category of an array of its name and its patterns.
fn category_of(alloc: Global, item: &Json) -> Result<Category, NoMemory> {
    let mut category = Category {
        name: Str::empty(),
        patterns: TextList::new(alloc),
        excluded: TextList::new(alloc),
    };
    fill_category(alloc, &mut category, items_of(Some(item)))?;
    Ok(category)
}

/// The categories of arrays.
fn categories_of(alloc: Global, items: &[Json]) -> Result<CategoryList, NoMemory> {
    let mut categories = CategoryList::new(alloc);
    for item in items {
        categories.push(category_of(alloc, item)?)?;
    }
    Ok(categories)
}

/// The call that is to fail, if any is.
fn failing(alloc: Global, call: Option<u64>) -> Result<FailList, NoMemory> {
    let mut fails = FailList::new(alloc);
    if let Some(call) = call {
        fails.push(Fail { call })?;
    }
    Ok(fails)
}

impl<'a> Given<'a> {
    /// The items of the member of this name.
    pub(crate) fn items(self, key: &str) -> &'a [Json] {
        items_of(self.line.get(key))
    }

    pub(crate) fn number(self, key: &str) -> Option<u64> {
        self.line.get(key)?.as_u64()
    }

    pub(crate) fn is_set(self, key: &str) -> bool {
        self.line.get(key).and_then(Json::as_bool).unwrap_or(false)
    }

    /// The text that a member or an item is.
    pub(crate) fn text(self, alloc: Global, item: &Json) -> Result<Bytes, NoMemory> {
        text_of(alloc, self.texts, item)
    }

    /// The text of the member of this name.
    pub(crate) fn text_at(self, alloc: Global, key: &str) -> Result<Bytes, NoMemory> {
        self.text(alloc, self.line.get(key).unwrap_or(&Json::Null))
    }

    /// A copy of the categories, so that copying them is tried too.
    pub(crate) fn categories(self, alloc: Global) -> Result<CategoryList, NoMemory> {
        let categories = categories_of(alloc, items_of(self.categories.get("categories")))?;
        categories.copy(alloc)
    }

    /// What the lines of the source are, by the member of this name.
    pub(crate) fn kind(self, key: &str) -> Option<SourceKind> {
        match member_text(self.line, key) {
            "audit" => Some(SourceKind::Audit),
            "changes" => Some(SourceKind::Changes),
            "tables" => Some(SourceKind::Tables),
            _ => None,
        }
    }

    /// By how many bytes the text is given, for each run.
    pub(crate) fn widths(self, alloc: Global) -> Result<Vec<usize>, NoMemory> {
        let mut widths = Vec::new(alloc);
        for width in self.items("by").iter().filter_map(Json::as_u64) {
            widths.push(usize::try_from(width).unwrap_or(WIDTH))?;
        }
        if widths.is_empty() {
            widths.push(WIDTH)?;
        }
        Ok(widths)
    }

    /// The source, which gives at most so many bytes at a time, and fails at the call that the line says.
    pub(crate) fn source(self, alloc: Global, most: usize) -> Result<Sips, NoMemory> {
        let fails = failing(alloc, self.number("fails"))?;
        let text = self.text_at(alloc, "source")?;
        Ok(Sips {
            inner: MemorySource::new(text, fails),
            most,
        })
    }
}
