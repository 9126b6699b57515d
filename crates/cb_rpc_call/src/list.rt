//! Lists, an item after another.
ghost use Rattle.std.specs.List.{flat_map};
ghost use Rattle.cb_rpc_call.specs.Fields.{list_field, list_tokens};
ghost use Rattle.cb_rpc_call.specs.Writing.{Adds};

use crate::field::put_hash_text;
use cb_base::Hash256;
use json::Writer;
use std::alloc::{AllocError, Global};

/// What is written as an item of a list.
pub trait ListItem {
    ghost use Rattle.std.specs.Prelude.{List};
    ghost use Rattle.json.specs.Token.{Token};

    /// What is written.
    ghost item_tokens: { Self → List Token };

    /// Writes it.
    fn put(&self, alloc: Global, writer: &mut Writer) -> Result<(), AllocError>
        ensures { Adds result writer.old writer.new (item_tokens self.now) };
}

impl ListItem for Hash256 {
    ghost use Rattle.cb_rpc_call.specs.Fields.{hash_item};

    ghost item_tokens = { hash_item };

    fn put(&self, alloc: Global, writer: &mut Writer) -> Result<(), AllocError> {
        put_hash_text(alloc, writer, self)
    }
}

/// Writes items, with no brackets.
pub fn put_items<T: ListItem>(
    alloc: Global,
    writer: &mut Writer,
    items: &[T],
) -> Result<(), AllocError>
    ensures { Adds result writer.old writer.new (flat_map T.item_tokens items.now) }
{
    for item in items {
        item.put(alloc, writer)?;
    }
    Ok(())
}

/// Writes a list.
#[tactic(auto, unfolding(crate::specs::Fields::list_tokens))]
pub fn put_list<T: ListItem>(
    alloc: Global,
    writer: &mut Writer,
    items: &[T],
) -> Result<(), AllocError>
    ensures { Adds result writer.old writer.new (list_tokens T.item_tokens items.now) }
{
    writer.begin_array()?;
    put_items(alloc, writer, items)?;
    writer.end_array()
}

/// Writes a member that is a list.
#[tactic(auto, unfolding(crate::specs::Fields::list_field))]
pub fn put_list_member<T: ListItem>(
    alloc: Global,
    writer: &mut Writer,
    name: &str,
    items: &[T],
) -> Result<(), AllocError>
    ensures { Adds result writer.old writer.new (list_field name.now T.item_tokens items.now) }
{
    writer.key(name)?;
    put_list(alloc, writer, items)
}
