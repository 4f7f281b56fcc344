//! The texts and their numbers as one JSON object.
ghost use Rattle.std.specs.Prelude.{◌≡◌, ◌++◌, OnOk, map as each};
ghost use Rattle.nibble_map.specs.Lists.{IsPrefix};
ghost use Rattle.trie_tool.specs.Numbers.{text};
ghost use Rattle.trie_tool.specs.Request.{json_text, member_tokens, object_tokens};

use json::Writer;
use radix_trie::iter::Iter;
use std::alloc::AllocError;
use std::mem;

/// Writes each text with its number as a member, and the end of the object.
fn write_members(writer: &mut Writer, walk: Iter<'_, String, u64>) -> Result<(), AllocError>
    ensures members { OnOk result
        (writer.new.tokens ≡ writer.old.tokens ++ member_tokens (each text walk.entry)) }
    ensures before { writer.new.before ≡ writer.old.before }
{
    for (key, number) in walk {
        writer.key(key.as_str())?;
        writer.u64(*number)?;
    }
    writer.end_object()
}

fn write_object(writer: &mut Writer, walk: Iter<'_, String, u64>) -> Result<(), AllocError>
    ensures object { OnOk result
        (writer.new.tokens ≡ writer.old.tokens ++ object_tokens (each text walk.entry)) }
    ensures before { writer.new.before ≡ writer.old.before }
{
    writer.begin_object()?;
    write_members(writer, walk)
}

/// Adds the compact text of the object of these texts and their numbers.
pub fn add_object(out: &mut Vec<u8>, walk: Iter<'_, String, u64>) -> Result<(), AllocError>
    ensures text { OnOk result
        (out.new.items ≡ out.old.items ++ json_text (each text walk.entry)) }
    ensures kept { IsPrefix out.old.items out.new.items }
{
    let alloc = *out.allocator();
    let mut writer = Writer::new(mem::replace(out, Vec::new(alloc)));
    let outcome = write_object(&mut writer, walk);
    *out = writer.into_inner();
    outcome
}
