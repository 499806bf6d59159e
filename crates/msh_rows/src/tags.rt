//! The tags of an element.
ghost use Rattle.std.specs.Prelude.{◌≡◌, ◌≤◌, length};
ghost use Rattle.line_fields.specs.Lines.{fields};
ghost use Rattle.msh_rows.specs.Calls.Elements.{TagsRead};

use crate::elements::RowErr;
use line_fields::{next_field, tag};
use mesh_words::MshKind;

/// Puts the tags that the first `count` fields of a line are into `tags`, in place of what it held, and gives what follows
/// them in the line.
pub(crate) fn read_tags<'a>(
    line: &'a [u8],
    count: u32,
    tags: &mut Vec<i32>,
) -> Result<&'a [u8], RowErr>
    requires { count ≤ length (fields line.now) }
    ensures { TagsRead (λ rest. fields rest.now) count (fields line.now) result tags.new.items }
{
    tags.clear();
    let mut rest = line;
    let mut left = count;
    while left > 0 {
        let Some((field, after)) = next_field(rest) else {
            unreachable!()
        };
        let Some(number) = tag(field) else {
            return Err(RowErr::Kind(MshKind::BadNumber));
        };
        tags.push(number)?;
        rest = after;
        left -= 1;
    }
    Ok(rest)
}
