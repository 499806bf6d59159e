//! The keys of a scene with their ranges. A new key is a constant here, a name in its table's list, and an item of the
//! list of readings in specs/Readings.antt.
ghost use Rattle.std.specs.Prelude.{◌≡◌, ◌&&◌, ◌++◌, IfOk, int_le, bytes_eq, codes, decimal, string_bytes};
ghost use Rattle.std.specs.List.{list_any};
ghost use Rattle.scene_toml.specs.declared.keys.Section.TheVariants.{Material, Top};
ghost use Rattle.scene_toml.specs.Keys.{prefix, printed};
ghost use Rattle.scene_toml.specs.Readings.{is_known};

use crate::texts::KeyText;
use dec_text::FINEST_GRID;
use itoa::Buffer;
use space3::NUMBER_LIMIT;
use std::alloc::{AllocError, Global};
use std::marker::Model;
use surface_mesh::{
    FASTEST, LEAST_DHAT, MOST_DENSITY, MOST_DHAT, MOST_FRICTION, MOST_GRAVITY, MOST_KAPPA,
    MOST_MODULUS, MOST_PARTS, MOST_SLIP,
};

/// The longest name of a file in bytes: with a frame's number and ending it stays within what file systems take, 255.
pub const NAME_LIMIT: usize = 200;

/// The most frames after the first: their numbers are written with four digits.
pub const FRAME_LIMIT: u32 = 9999;

/// The greatest budget of a frame: no frame takes more steps.
pub const BUDGET_LIMIT: u32 = 1000;

/// The greatest tolerance: a signed 64-bit word holds it with a bit to spare.
pub const TOL_LIMIT: i64 = 1 << 62;

/// The least and the greatest value of an integer, of each of three integers, or of a text's length in bytes.
#[derive(Clone, Copy)]
pub(crate) struct Range(i64, i64);

pub(crate) const NAME_LENGTHS: Range = Range(1, NAME_LIMIT as i64);

/// Digits after the point.
pub(crate) const GRIDS: Range = Range(0, FINEST_GRID as i64);

pub(crate) const FRAME_COUNTS: Range = Range(0, FRAME_LIMIT as i64);

pub(crate) const BUDGETS: Range = Range(1, BUDGET_LIMIT as i64);

pub(crate) const TOLERANCES: Range = Range(0, TOL_LIMIT);

pub(crate) const GRAVITIES: Range = Range(-(MOST_GRAVITY as i64), MOST_GRAVITY as i64);

pub(crate) const CONTACT_DISTANCES: Range = Range(LEAST_DHAT, MOST_DHAT);

pub(crate) const STIFFNESSES: Range = Range(1, MOST_KAPPA);

pub(crate) const FRICTIONS: Range = Range(0, MOST_FRICTION);

pub(crate) const SLIPS: Range = Range(1, MOST_SLIP);

pub(crate) const DENSITIES: Range = Range(1, MOST_DENSITY);

pub(crate) const MODULI: Range = Range(0, MOST_MODULUS);

pub(crate) const TAGS: Range = Range(-(NUMBER_LIMIT as i64), NUMBER_LIMIT as i64);

pub(crate) const PART_COUNTS: Range = Range(0, MOST_PARTS as i64);

pub(crate) const VELOCITIES: Range = Range(-(FASTEST as i64), FASTEST as i64);

/// What stands for the range of a key that has none: one of a table, of a truth value or of a word.
pub(crate) const NO_RANGE: Range = Range(0, 0);

/// A key: its name, and what it allows.
#[derive(Drop)]
pub(crate) struct Key(&'static str, Range);

impl Model for Key {
    ghost use Rattle.scene_toml.specs.Keys.{Key, key};

    ghost Value = { Key };

    ghost view = { λ k. key k.0.now k.1 };
}

/// The table that a key stands in.
#[derive(Clone, Copy)]
pub(crate) enum Section {
    Top,
    Material,
    /// The part at this position of the array.
    Part(usize),
}

pub(crate) const MESH: Key = Key("mesh", NAME_LENGTHS);

pub(crate) const OUT: Key = Key("out", NAME_LENGTHS);

pub(crate) const DIGITS: Key = Key("digits", GRIDS);

pub(crate) const SNAP: Key = Key("snap", NO_RANGE);

pub(crate) const FRAMES: Key = Key("frames", FRAME_COUNTS);

pub(crate) const BUDGET: Key = Key("budget", BUDGETS);

pub(crate) const TOL: Key = Key("tol", TOLERANCES);

pub(crate) const GRAVITY: Key = Key("gravity", GRAVITIES);

pub(crate) const DHAT: Key = Key("dhat", CONTACT_DISTANCES);

pub(crate) const KAPPA: Key = Key("kappa", STIFFNESSES);

pub(crate) const FRICTION: Key = Key("friction", FRICTIONS);

pub(crate) const SLIP: Key = Key("slip", SLIPS);

pub(crate) const TRACE: Key = Key("trace", NAME_LENGTHS);

pub(crate) const MATERIAL: Key = Key("material", NO_RANGE);

pub(crate) const DENSITY: Key = Key("density", DENSITIES);

pub(crate) const MU: Key = Key("mu", MODULI);

pub(crate) const LAMBDA: Key = Key("lambda", MODULI);

pub(crate) const FIXED: Key = Key("fixed", NO_RANGE);

pub(crate) const VELOCITY: Key = Key("velocity", VELOCITIES);

pub(crate) const PART: Key = Key("part", PART_COUNTS);

pub(crate) const TAG: Key = Key("tag", TAGS);

const TOP_KEYS: [Key; 15] = [
    MESH, OUT, DIGITS, SNAP, FRAMES, BUDGET, TOL, GRAVITY, DHAT, KAPPA, FRICTION, SLIP, TRACE,
    MATERIAL, PART,
];

const MATERIAL_KEYS: [Key; 5] = [DENSITY, MU, LAMBDA, FIXED, VELOCITY];

const PART_KEYS: [Key; 6] = [TAG, DENSITY, MU, LAMBDA, FIXED, VELOCITY];

impl Key {
    /// The key's name in its table.
    pub(crate) fn name(&self) -> &'static str
        ensures { result.now ≡ self.now.name }
    {
        self.0
    }

    /// Whether a number lies in the key's range.
    pub(crate) fn allows(&self, number: i64) -> bool
        ensures { result ≡ (int_le self.now.least number && int_le number self.now.most) }
    {
        self.1.0 <= number && number <= self.1.1
    }

    /// The key as it is printed.
    pub(crate) fn printed(&self, alloc: Global, section: Section) -> Result<KeyText, AllocError>
        ensures { IfOk result (λ text. text ≡ printed section self.now.name) }
    {
        printed(alloc, section, self.0)
    }
}

// What the keys of a section are printed after.
fn prefix(alloc: Global, section: Section) -> Result<String, AllocError>
    ensures { IfOk result (λ text. string_bytes text ≡ prefix section) }
{
    match section {
        Section::Top => Ok(String::new(alloc)),
        Section::Material => String::from_str(alloc, "material."),
        Section::Part(index) => part_prefix(alloc, index),
    }
}

fn part_prefix(alloc: Global, index: usize) -> Result<String, AllocError>
    ensures { IfOk result (λ text. string_bytes text ≡ codes "part." ++ decimal index ++ codes ".") }
{
    let mut digits = Buffer::new();
    let mut text = String::from_str(alloc, "part.")?;
    text.push_str(digits.format(index))?;
    text.push_str(".")?;
    Ok(text)
}

/// A name as it is printed.
pub(crate) fn printed(alloc: Global, section: Section, name: &str) -> Result<KeyText, AllocError>
    ensures { IfOk result (λ text. text ≡ printed section name.now) }
{
    let mut text = prefix(alloc, section)?;
    text.push_str(name)?;
    Ok(KeyText::of_text(text))
}

fn is_among(keys: &[Key], name: &str) -> bool
    ensures { result ≡ list_any (λ key. bytes_eq key.name name.now) keys.now }
{
    keys.iter().any(|key| key.0 == name)
}

fn is_top_key(name: &str) -> bool
    ensures { result ≡ is_known Top name.now }
{
    is_among(&TOP_KEYS, name)
}

fn is_material_key(name: &str) -> bool
    ensures { result ≡ is_known Material name.now }
{
    is_among(&MATERIAL_KEYS, name)
}

/// Whether a section may have a key of this name.
pub(crate) fn is_known(section: Section, name: &str) -> bool
    ensures { result ≡ is_known section name.now }
{
    match section {
        Section::Top => is_top_key(name),
        Section::Material => is_material_key(name),
        Section::Part(_) => is_among(&PART_KEYS, name),
    }
}
