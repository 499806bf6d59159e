//! Look-ups in a table, and the keys that no scene has.
ghost use Rattle.std.specs.Prelude.{◌≡◌, IfNone, IfOk, IfSome, None, Some, option_copied};
ghost use Rattle.toml.specs.Data.{get_member};
ghost use Rattle.toml.specs.View.{items_view, table_view, view};
ghost use Rattle.scene_toml.specs.Tables.{first_unknown, unknown_inside_items, unknown_key, unknown_key_inside, unknown_key_of_parts, unknown_name};
ghost use Rattle.scene_toml.specs.declared.keys.Section.TheVariants.{Material};
ghost use Rattle.scene_toml.specs.Parts.{part};
ghost use Rattle.scene_toml.specs.Readings.{material};

use crate::keys::{self, MATERIAL, PART, Section};
use crate::texts::KeyText;
use std::alloc::{AllocError, Global};
use toml::{Table, Value};

/// The value at a key.
pub(crate) fn value_at<'a>(table: &'a Table, name: &str) -> Option<&'a Value>
    ensures found { IfSome result (λ value. get_member name.now (table_view table.now) ≡ Some (view value.now)) }
    ensures absent { IfNone result (get_member name.now (table_view table.now) ≡ None) }
{
    table.get(name)
}

// The first name in a table that no key of its section has.
fn unknown_name(section: Section, table: &Table) -> Option<&str>
    ensures { option_copied result ≡ unknown_name section (table_view table.now) }
{
    for name in table.keys() {
        if !keys::is_known(section, name.as_str()) {
            return Some(name.as_str());
        }
    }
    None
}

fn unknown_key(
    alloc: Global,
    section: Section,
    table: &Table,
) -> Result<Option<KeyText>, AllocError>
    ensures { IfOk result (λ key. key ≡ unknown_key section (table_view table.now)) }
{
    match unknown_name(section, table) {
        Some(name) => Ok(Some(keys::printed(alloc, section, name)?)),
        None => Ok(None),
    }
}

fn unknown_key_inside(
    alloc: Global,
    section: Section,
    value: &Value,
) -> Result<Option<KeyText>, AllocError>
    ensures { IfOk result (λ key. key ≡ unknown_key_inside section (Some (view value.now))) }
{
    match value.as_table() {
        Some(table) => unknown_key(alloc, section, table),
        None => Ok(None),
    }
}

// The same of the items of an array of parts.
fn unknown_inside_items(alloc: Global, items: &[Value]) -> Result<Option<KeyText>, AllocError>
    ensures { IfOk result (λ key. key ≡ unknown_inside_items 0 (items_view items.now)) }
{
    for (index, item) in items.iter().enumerate() {
        if let Some(key) = unknown_key_inside(alloc, Section::Part(index), item)? {
            return Ok(Some(key));
        }
    }
    Ok(None)
}

fn unknown_key_of_parts(alloc: Global, table: &Table) -> Result<Option<KeyText>, AllocError>
    ensures { IfOk result (λ key. key ≡
        unknown_key_of_parts (get_member part.name (table_view table.now))) }
{
    let Some(value) = value_at(table, PART.name()) else {
        return Ok(None);
    };
    match value.as_array() {
        Some(items) => unknown_inside_items(alloc, items.as_slice()),
        None => Ok(None),
    }
}

fn unknown_key_of_material(alloc: Global, table: &Table) -> Result<Option<KeyText>, AllocError>
    ensures { IfOk result (λ key. key ≡
        unknown_key_inside Material (get_member material.name (table_view table.now))) }
{
    match value_at(table, MATERIAL.name()) {
        Some(value) => unknown_key_inside(alloc, Section::Material, value),
        None => Ok(None),
    }
}

/// The first key that no scene has: of the top table, else of the material, else of the parts in their order.
pub(crate) fn first_unknown(alloc: Global, table: &Table) -> Result<Option<KeyText>, AllocError>
    ensures { IfOk result (λ key. key ≡ first_unknown (table_view table.now)) }
{
    if let Some(key) = unknown_key(alloc, Section::Top, table)? {
        return Ok(Some(key));
    }
    if let Some(key) = unknown_key_of_material(alloc, table)? {
        return Ok(Some(key));
    }
    unknown_key_of_parts(alloc, table)
}
