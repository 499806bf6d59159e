//! The parts of a scene.
ghost use Rattle.std.specs.Prelude.{◌≡◌, List, [], ◌∷◌, ◌++◌, IfOk, OnOk};
ghost use Rattle.std.specs.List.{list_any};
ghost use Rattle.std.specs.Ordering.{int_eq};
ghost use Rattle.toml.specs.View.{items_view, table_view, view};
ghost use Rattle.whole_laws.specs.Ranges.{IsFrom};
ghost use Rattle.scene_toml.specs.declared.keys.TheConstants.{TAGS};
ghost use Rattle.scene_toml.specs.Calls.{new_tag_at, parts_at};
ghost use Rattle.scene_toml.specs.Gives.{Gives};
ghost use Rattle.scene_toml.specs.Parts.{are_tables, part_in, part_of, parts_from};

use crate::keys::{DENSITY, FIXED, LAMBDA, MU, PART, Section, TAG, VELOCITY};
use crate::refusal::{ReadSceneErr, SceneErr};
use crate::tables::value_at;
use crate::values::{
    in_range, integer_at, optional_bool_at, optional_integer_at, optional_vector_at, wrong_type,
};
use space3::V3;
use std::alloc::{AllocError, Global};
use std::marker::Model;
use toml::{Table, Value};

/// A part as its table gives it: its tag, and what it has in place of the base material's.
#[derive(Clone, Copy)]
pub(crate) struct PartKeys {
    pub tag: i32,
    pub density: Option<i64>,
    pub mu: Option<i64>,
    pub lambda: Option<i64>,
    pub fixed: Option<bool>,
    pub velocity: Option<V3>,
}

/// Parts in the array's order.
#[derive(Drop)]
pub(crate) struct Parts {
    list: Vec<PartKeys>,
}

impl Model for Parts {
    ghost use Rattle.std.specs.Prelude.{List};
    ghost use Rattle.scene_toml.specs.declared.parts.PartKeys.{PartKeys};

    ghost Value = { List PartKeys };

    ghost view = { λ p. p.list.items };
}

impl Parts {
    /// The parts, in order.
    pub(crate) fn items(&self) -> &[PartKeys]
        ensures { result.now ≡ self.now }
    {
        self.list.as_slice()
    }
}

/// The parts of a scene's table.
pub(crate) fn parts_at(alloc: Global, table: &Table) -> Result<Parts, ReadSceneErr>
    ensures { Gives result (parts_at (table_view table.now)) }
{
    let Some(value) = value_at(table, PART.name()) else {
        return Ok(Parts {
            list: Vec::new(alloc),
        });
    };
    let Some(array) = value.as_array() else {
        return Err(wrong_type(alloc, Section::Top, &PART)?);
    };
    let items = array.as_slice();
    if !are_tables(items) {
        return Err(wrong_type(alloc, Section::Top, &PART)?);
    }
    in_range(alloc, Section::Top, &PART, items.len() as i64)?;
    parts_from(alloc, items)
}

// Whether each item is a table.
fn are_tables(items: &[Value]) -> bool
    ensures { result ≡ are_tables (items_view items.now) }
{
    for item in items {
        if !item.is_table() {
            return false;
        }
    }
    true
}

// The parts that items give.
fn parts_from(alloc: Global, items: &[Value]) -> Result<Parts, ReadSceneErr>
    ensures { Gives result (parts_from [] (items_view items.now)) }
{
    let mut list = Vec::new(alloc);
    for item in items {
        let part = part_of(alloc, list.as_slice(), item)?;
        add_part(&mut list, part)?;
    }
    Ok(Parts { list })
}

fn add_part(parts: &mut Vec<PartKeys>, part: PartKeys) -> Result<(), AllocError>
    ensures { OnOk result (parts.new.items ≡ parts.old.items ++ part ∷ []) }
{
    parts.push(part)?;
    Ok(())
}

// The part that an item gives after the earlier ones.
fn part_of(alloc: Global, earlier: &[PartKeys], item: &Value) -> Result<PartKeys, ReadSceneErr>
    ensures { Gives result (part_of earlier.now (view item.now)) }
{
    match item.as_table() {
        Some(table) => part_in(alloc, earlier, table),
        None => Err(wrong_type(alloc, Section::Top, &PART)?),
    }
}

// The part that a table gives after the earlier ones.
fn part_in(alloc: Global, earlier: &[PartKeys], table: &Table) -> Result<PartKeys, ReadSceneErr>
    ensures { Gives result (part_in earlier.now (table_view table.now)) }
{
    let section = Section::Part(earlier.len());
    let tag = new_tag_at(alloc, earlier, table)?;
    let density = optional_integer_at(alloc, section, &DENSITY, table)?;
    let mu = optional_integer_at(alloc, section, &MU, table)?;
    let lambda = optional_integer_at(alloc, section, &LAMBDA, table)?;
    let fixed = optional_bool_at(alloc, section, &FIXED, table)?;
    let velocity = optional_vector_at(alloc, section, &VELOCITY, table)?;
    Ok(PartKeys {
        tag: tag as i32,
        density,
        mu,
        lambda,
        fixed,
        velocity,
    })
}

// The tag of a part, which no earlier part has.
fn new_tag_at(alloc: Global, earlier: &[PartKeys], table: &Table) -> Result<i64, ReadSceneErr>
    ensures reading { Gives result (new_tag_at earlier.now (table_view table.now)) }
    ensures range { IfOk result (IsFrom TAGS.0 TAGS.1) }
{
    let section = Section::Part(earlier.len());
    let tag = integer_at(alloc, section, &TAG, table)?;
    if has_tag(earlier, tag) {
        let key = TAG.printed(alloc, section)?;
        return Err(ReadSceneErr::Scene(SceneErr::OutOfRange { key, value: tag }));
    }
    Ok(tag)
}

fn has_tag(parts: &[PartKeys], tag: i64) -> bool
    ensures { result ≡ list_any (λ part. int_eq part.tag tag) parts.now }
{
    parts.iter().any(|part| i64::from(part.tag) == tag)
}
