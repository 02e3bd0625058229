//! The categories of paths.

ghost use Rattle.std.specs.Prelude.{◌≡◌, [], Some, IfOk, codes, option_and_then};
ghost use Rattle.serde_json.specs.Find.{get};
ghost use Rattle.serde_json.specs.View.{members_view, view};
ghost use Rattle.osq_config.specs.Faults.{fault_at, fault_of, fault_of_members, path_to};
ghost use Rattle.osq_config.specs.Kinds.{each, texts};
ghost use Rattle.osq_config.specs.Reads.{Reads};
ghost use Rattle.osq_config.specs.Values.{categories_in, categories_of, category_of, texts_in};

use crate::error::ConfigError;
use crate::field::{texts_of, wrong_shape, wrong_shape_at};
use osq_value::{Category, CategoryList, NoMemory, Str, TextList};
use serde_json::{Map, Value as Json};
use std::alloc::Global;

/// What a document excludes has the right kinds of values.
/// WrongShape where the value is no object, or a member of it no array of texts.
pub fn check_excluded(alloc: Global, document: &Json) -> Result<(), ConfigError>
    ensures { Reads (fault_at (each texts) [] (codes "exclude_paths") (view document.now)) tt result }
{
    match document.get("exclude_paths") {
        Some(value) => check_lists(alloc, "exclude_paths", value),
        None => Ok(()),
    }
}

fn check_lists(alloc: Global, path: &str, value: &Json) -> Result<(), ConfigError>
    ensures { Reads (fault_of (each texts) path.now (view value.now)) tt result }
{
    match value.as_object() {
        Some(members) => check_all_lists(alloc, path, members),
        None => Err(wrong_shape(alloc, path)),
    }
}

fn check_all_lists(
    alloc: Global,
    path: &str,
    members: &Map<String, Json>,
) -> Result<(), ConfigError>
    ensures { Reads (fault_of_members (fault_of texts) path.now (members_view members.now.entries))
        tt result }
{
    for (name, value) in members {
        check_texts(alloc, path, name.as_str(), value)?;
    }
    Ok(())
}

/// The member of a name under a path is an array of texts.
fn check_texts(alloc: Global, path: &str, name: &str, value: &Json) -> Result<(), ConfigError>
    ensures { Reads (fault_of texts (path_to path.now name.now) (view value.now)) tt result }
{
    match texts_of(alloc, value)? {
        Some(_) => Ok(()),
        None => Err(wrong_shape_at(alloc, path, name)),
    }
}

/// The categories of a document, in byte order of their names, each with what is excluded under its name.
/// WrongShape where the value is no object, or a member of it no array of texts.
pub fn categories_of(alloc: Global, document: &Json) -> Result<CategoryList, ConfigError>
    ensures { Reads (fault_at (each texts) [] (codes "file_paths") (view document.now))
        (categories_in (get (codes "exclude_paths") (view document.now))
        (get (codes "file_paths") (view document.now))) result }
{
    match document.get("file_paths") {
        Some(value) => categories_in(alloc, document, "file_paths", value),
        None => Ok(CategoryList::new(alloc)),
    }
}

fn categories_in(
    alloc: Global,
    document: &Json,
    path: &str,
    value: &Json,
) -> Result<CategoryList, ConfigError>
    ensures { Reads (fault_of (each texts) path.now (view value.now))
        (categories_in (get (codes "exclude_paths") (view document.now)) (Some (view value.now))) result }
{
    match value.as_object() {
        Some(members) => all_categories(alloc, document, path, members),
        None => Err(wrong_shape(alloc, path)),
    }
}

fn all_categories(
    alloc: Global,
    document: &Json,
    path: &str,
    members: &Map<String, Json>,
) -> Result<CategoryList, ConfigError>
    ensures { Reads (fault_of_members (fault_of texts) path.now (members_view members.now.entries))
        (categories_of (get (codes "exclude_paths") (view document.now))
        (members_view members.now.entries)) result }
{
    let mut categories = CategoryList::new(alloc);
    for (name, value) in members {
        categories.push(category(alloc, document, path, name.as_str(), value)?)?;
    }
    Ok(categories)
}

fn category(
    alloc: Global,
    document: &Json,
    path: &str,
    name: &str,
    value: &Json,
) -> Result<Category, ConfigError>
    ensures { Reads (fault_of texts (path_to path.now name.now) (view value.now))
        (category_of (get (codes "exclude_paths") (view document.now)) name.now (view value.now)) result }
{
    let Some(patterns) = texts_of(alloc, value)? else {
        return Err(wrong_shape_at(alloc, path, name));
    };
    let excluded = excluded(alloc, document, name)?;
    Ok(Category {
        name: Str::of(alloc, name)?,
        patterns,
        excluded,
    })
}

/// The patterns that are excluded under the name of a category.
fn excluded(alloc: Global, document: &Json, name: &str) -> Result<TextList, NoMemory>
    ensures { IfOk result (λ found. found ≡ texts_in
        (option_and_then (get name.now) (get (codes "exclude_paths") (view document.now)))) }
{
    let Some(lists) = document.get("exclude_paths") else {
        return Ok(TextList::new(alloc));
    };
    let Some(value) = lists.get(name) else {
        return Ok(TextList::new(alloc));
    };
    match texts_of(alloc, value)? {
        Some(patterns) => Ok(patterns),
        None => Ok(TextList::new(alloc)),
    }
}
