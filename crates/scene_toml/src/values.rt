//! The value at a key, or why it is refused.
ghost use Rattle.std.specs.Prelude.{◌≡◌, IfOk};
ghost use Rattle.toml.specs.View.{items_view, table_view, view};
ghost use Rattle.whole_laws.specs.Ranges.{IsFrom};
ghost use Rattle.scene_toml.specs.declared.refusal.ReadSceneErr.TheVariants.{Scene};
ghost use Rattle.scene_toml.specs.declared.refusal.SceneErr.TheVariants.{Missing, OutOfRange, WrongType};
ghost use Rattle.scene_toml.specs.Gives.{Gives};
ghost use Rattle.scene_toml.specs.Keys.{printed};
ghost use Rattle.scene_toml.specs.Calls.{bool_at, integer_at, integer_or_at, optional_bool_at, optional_integer_at, optional_text_at, optional_vector_at, snap_at, text_at, vector_at};
ghost use Rattle.scene_toml.specs.Values.{in_range, components_of, snap_named, three_integers, vector_of_three};

use crate::keys::{Key, Section};
use crate::refusal::{ReadSceneErr, SceneErr};
use crate::tables::value_at;
use crate::texts::NameText;
use dec_text::Snap;
use space3::V3;
use std::alloc::{AllocError, Global};
use toml::{Table, Value};

pub(crate) const ORIGIN: V3 = V3 { x: 0, y: 0, z: 0 };

/// The refusal of a table without the key.
pub(crate) fn missing(
    alloc: Global,
    section: Section,
    key: &Key,
) -> Result<ReadSceneErr, AllocError>
    ensures { IfOk result (λ e. e ≡ Scene (Missing (printed section key.now.name))) }
{
    let key = key.printed(alloc, section)?;
    Ok(ReadSceneErr::Scene(SceneErr::Missing { key }))
}

/// The refusal of a value of another type at the key.
pub(crate) fn wrong_type(
    alloc: Global,
    section: Section,
    key: &Key,
) -> Result<ReadSceneErr, AllocError>
    ensures { IfOk result (λ e. e ≡ Scene (WrongType (printed section key.now.name))) }
{
    let key = key.printed(alloc, section)?;
    Ok(ReadSceneErr::Scene(SceneErr::WrongType { key }))
}

/// The refusal of this value at the key.
pub(crate) fn out_of_range(
    alloc: Global,
    section: Section,
    key: &Key,
    value: i64,
) -> Result<ReadSceneErr, AllocError>
    ensures { IfOk result (λ e. e ≡ Scene (OutOfRange (printed section key.now.name) value)) }
{
    let key = key.printed(alloc, section)?;
    Ok(ReadSceneErr::Scene(SceneErr::OutOfRange { key, value }))
}

// The number, where it lies in the key's range.
pub(crate) fn in_range(
    alloc: Global,
    section: Section,
    key: &Key,
    number: i64,
) -> Result<i64, ReadSceneErr>
    ensures reading { Gives result (in_range section key.now number) }
    ensures range { IfOk result (IsFrom key.now.least key.now.most) }
{
    if key.allows(number) {
        return Ok(number);
    }
    Err(out_of_range(alloc, section, key, number)?)
}

/// The integer at a key, which has to lie in the key's range.
pub(crate) fn integer_at(
    alloc: Global,
    section: Section,
    key: &Key,
    table: &Table,
) -> Result<i64, ReadSceneErr>
    ensures reading { Gives result (integer_at section key.now (table_view table.now)) }
    ensures range { IfOk result (IsFrom key.now.least key.now.most) }
{
    let Some(value) = value_at(table, key.name()) else {
        return Err(missing(alloc, section, key)?);
    };
    let Some(number) = value.as_integer() else {
        return Err(wrong_type(alloc, section, key)?);
    };
    in_range(alloc, section, key, number)
}

/// The integer at a key, which has to lie in the key's range, or what stands for one that is absent.
pub(crate) fn integer_or_at(
    alloc: Global,
    section: Section,
    key: &Key,
    absent: i64,
    table: &Table,
) -> Result<i64, ReadSceneErr>
    requires { IsFrom key.now.least key.now.most absent }
    ensures reading { Gives result (integer_or_at section key.now absent (table_view table.now)) }
    ensures range { IfOk result (IsFrom key.now.least key.now.most) }
{
    match value_at(table, key.name()) {
        Some(_) => integer_at(alloc, section, key, table),
        None => Ok(absent),
    }
}

/// The truth value at a key, or what stands for one that is absent.
pub(crate) fn bool_at(
    alloc: Global,
    section: Section,
    key: &Key,
    absent: bool,
    table: &Table,
) -> Result<bool, ReadSceneErr>
    ensures { Gives result (bool_at section key.now absent (table_view table.now)) }
{
    let Some(value) = value_at(table, key.name()) else {
        return Ok(absent);
    };
    match value.as_bool() {
        Some(truth) => Ok(truth),
        None => Err(wrong_type(alloc, section, key)?),
    }
}

// The snap that a word names.
fn snap_named(word: &str) -> Option<Snap>
    ensures { result ≡ snap_named word.now }
{
    match word {
        "nearest" => Some(Snap::Nearest),
        "exact" => Some(Snap::Exact),
        _ => None,
    }
}

/// The snap that is named at a key, or what stands for one that is absent.
pub(crate) fn snap_at(
    alloc: Global,
    section: Section,
    key: &Key,
    absent: Snap,
    table: &Table,
) -> Result<Snap, ReadSceneErr>
    ensures { Gives result (snap_at section key.now absent (table_view table.now)) }
{
    let Some(value) = value_at(table, key.name()) else {
        return Ok(absent);
    };
    let Some(word) = value.as_str() else {
        return Err(wrong_type(alloc, section, key)?);
    };
    match snap_named(word) {
        Some(snap) => Ok(snap),
        None => Err(out_of_range(alloc, section, key, word.len() as i64)?),
    }
}

/// The text at a key, whose length in bytes has to lie in the key's range.
pub(crate) fn text_at(
    alloc: Global,
    section: Section,
    key: &Key,
    table: &Table,
) -> Result<NameText, ReadSceneErr>
    ensures { Gives result (text_at section key.now (table_view table.now)) }
{
    let Some(value) = value_at(table, key.name()) else {
        return Err(missing(alloc, section, key)?);
    };
    let Some(text) = value.as_str() else {
        return Err(wrong_type(alloc, section, key)?);
    };
    in_range(alloc, section, key, text.len() as i64)?;
    Ok(NameText::of_text(String::from_str(alloc, text)?))
}

// The vector of three items, where each is an integer.
fn vector_of_three(x: &Value, y: &Value, z: &Value) -> Option<V3>
    ensures { result ≡ vector_of_three (view x.now) (view y.now) (view z.now) }
{
    Some(V3 {
        x: x.as_integer()?,
        y: y.as_integer()?,
        z: z.as_integer()?,
    })
}

// The vector of a list that has just three items, each an integer.
fn three_integers(items: &[Value]) -> Option<V3>
    ensures { result ≡ three_integers (items_view items.now) }
{
    let [x, y, z] = items else {
        return None;
    };
    vector_of_three(x, y, z)
}

// The vector, where each component lies in the key's range.
fn components_in_range(
    alloc: Global,
    section: Section,
    key: &Key,
    vector: V3,
) -> Result<V3, ReadSceneErr>
    ensures { Gives result (components_of section key.now (Some vector)) }
{
    let x = in_range(alloc, section, key, vector.x)?;
    let y = in_range(alloc, section, key, vector.y)?;
    let z = in_range(alloc, section, key, vector.z)?;
    Ok(V3 { x, y, z })
}

/// The list of three integers at a key, each in the key's range, or what stands for one that is absent.
pub(crate) fn vector_at(
    alloc: Global,
    section: Section,
    key: &Key,
    absent: V3,
    table: &Table,
) -> Result<V3, ReadSceneErr>
    ensures { Gives result (vector_at section key.now absent (table_view table.now)) }
{
    let Some(value) = value_at(table, key.name()) else {
        return Ok(absent);
    };
    let Some(items) = value.as_array() else {
        return Err(wrong_type(alloc, section, key)?);
    };
    let Some(vector) = three_integers(items.as_slice()) else {
        return Err(wrong_type(alloc, section, key)?);
    };
    components_in_range(alloc, section, key, vector)
}

/// The integer at a key that may be absent.
pub(crate) fn optional_integer_at(
    alloc: Global,
    section: Section,
    key: &Key,
    table: &Table,
) -> Result<Option<i64>, ReadSceneErr>
    ensures { Gives result (optional_integer_at section key.now (table_view table.now)) }
{
    match value_at(table, key.name()) {
        Some(_) => Ok(Some(integer_at(alloc, section, key, table)?)),
        None => Ok(None),
    }
}

/// The text at a key that may be absent.
pub(crate) fn optional_text_at(
    alloc: Global,
    section: Section,
    key: &Key,
    table: &Table,
) -> Result<Option<NameText>, ReadSceneErr>
    ensures { Gives result (optional_text_at section key.now (table_view table.now)) }
{
    match value_at(table, key.name()) {
        Some(_) => Ok(Some(text_at(alloc, section, key, table)?)),
        None => Ok(None),
    }
}

/// The truth value at a key that may be absent.
pub(crate) fn optional_bool_at(
    alloc: Global,
    section: Section,
    key: &Key,
    table: &Table,
) -> Result<Option<bool>, ReadSceneErr>
    ensures { Gives result (optional_bool_at section key.now (table_view table.now)) }
{
    match value_at(table, key.name()) {
        Some(_) => Ok(Some(bool_at(alloc, section, key, false, table)?)),
        None => Ok(None),
    }
}

/// The vector at a key that may be absent.
pub(crate) fn optional_vector_at(
    alloc: Global,
    section: Section,
    key: &Key,
    table: &Table,
) -> Result<Option<V3>, ReadSceneErr>
    ensures { Gives result (optional_vector_at section key.now (table_view table.now)) }
{
    match value_at(table, key.name()) {
        Some(_) => Ok(Some(vector_at(alloc, section, key, ORIGIN, table)?)),
        None => Ok(None),
    }
}
