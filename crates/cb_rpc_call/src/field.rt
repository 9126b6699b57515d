//! The members of a JSON object, one function for each kind: a name and its value.
ghost use Rattle.std.specs.Prelude.{[], ◌∷◌};
ghost use Rattle.hex.specs.Hex.{encode_lower};
ghost use Rattle.json.specs.Print.{IsNumber};
ghost use Rattle.json.specs.Token.{string};
ghost use Rattle.cb_rpc_call.specs.Fields.{empty_field, exact_field, hash_field, hash_item, hex_field, number_field, signed_field, switch_field, text_field};
ghost use Rattle.cb_rpc_call.specs.Writing.{Adds};

use cb_base::Hash256;
use json::Writer;
use std::alloc::{AllocError, Global};

/// Writes a member that is a number.
#[tactic(auto, unfolding(crate::specs::Fields::number_field))]
pub fn put_number(writer: &mut Writer, name: &str, number: u64) -> Result<(), AllocError>
    ensures { Adds result writer.old writer.new (number_field name.now number) }
{
    writer.key(name)?;
    writer.u64(number)
}

/// Writes a member that is a number with a sign.
#[tactic(auto, unfolding(crate::specs::Fields::signed_field))]
pub fn put_signed(writer: &mut Writer, name: &str, number: i64) -> Result<(), AllocError>
    ensures { Adds result writer.old writer.new (signed_field name.now number) }
{
    writer.key(name)?;
    writer.i64(number)
}

/// Writes a member that is a number, whose text is given.
#[tactic(auto, unfolding(crate::specs::Fields::exact_field))]
pub fn put_exact(writer: &mut Writer, name: &str, text: &str) -> Result<(), AllocError>
    requires { IsNumber text.now }
    ensures { Adds result writer.old writer.new (exact_field name.now text.now) }
{
    writer.key(name)?;
    writer.number(text)
}

/// Writes a member that is yes or no.
#[tactic(auto, unfolding(crate::specs::Fields::switch_field))]
pub fn put_switch(writer: &mut Writer, name: &str, is_so: bool) -> Result<(), AllocError>
    ensures { Adds result writer.old writer.new (switch_field name.now is_so) }
{
    writer.key(name)?;
    writer.boolean(is_so)
}

/// Writes a member that is a text.
#[tactic(auto, unfolding(crate::specs::Fields::text_field))]
pub fn put_text(writer: &mut Writer, name: &str, text: &str) -> Result<(), AllocError>
    ensures { Adds result writer.old writer.new (text_field name.now text.now) }
{
    writer.key(name)?;
    writer.string(text)
}

/// Writes bytes in hex, two digits each.
pub fn put_bytes(alloc: Global, writer: &mut Writer, bytes: &[u8]) -> Result<(), AllocError>
    ensures { Adds result writer.old writer.new (string (encode_lower bytes.now) ∷ []) }
{
    let text = hex::encode(alloc, bytes)?;
    writer.string(text.as_str())
}

/// Writes a member that is bytes in hex.
#[tactic(auto, unfolding(crate::specs::Fields::hex_field))]
pub fn put_hex(
    alloc: Global,
    writer: &mut Writer,
    name: &str,
    bytes: &[u8],
) -> Result<(), AllocError>
    ensures { Adds result writer.old writer.new (hex_field name.now bytes.now) }
{
    writer.key(name)?;
    put_bytes(alloc, writer, bytes)
}

/// Writes a hash: 64 digits of hex, its last byte first.
pub fn put_hash_text(alloc: Global, writer: &mut Writer, hash: &Hash256) -> Result<(), AllocError>
    ensures { Adds result writer.old writer.new (hash_item hash.now) }
{
    let mut bytes = hash.0;
    bytes.reverse();
    put_bytes(alloc, writer, bytes.as_slice())
}

/// Writes a member that is a hash.
#[tactic(auto, unfolding(crate::specs::Fields::hash_field))]
pub fn put_hash(
    alloc: Global,
    writer: &mut Writer,
    name: &str,
    hash: &Hash256,
) -> Result<(), AllocError>
    ensures { Adds result writer.old writer.new (hash_field name.now hash.now) }
{
    writer.key(name)?;
    put_hash_text(alloc, writer, hash)
}

/// Writes a member that is a list of nothing.
#[tactic(auto, unfolding(crate::specs::Fields::empty_field))]
pub fn put_empty(writer: &mut Writer, name: &str) -> Result<(), AllocError>
    ensures { Adds result writer.old writer.new (empty_field name.now) }
{
    writer.key(name)?;
    writer.begin_array()?;
    writer.end_array()
}
