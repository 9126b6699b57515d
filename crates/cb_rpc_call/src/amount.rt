//! Amounts of money and seconds, as numbers with a fixed count of decimals.
ghost use Rattle.std.specs.Prelude.{◌≡◌, ℤ, FitsSigned, IfOk, string_bytes};
ghost use Rattle.std.specs.Fmt.{sign_text};
ghost use Rattle.std.specs.Int.{is_negative, w64};
ghost use Rattle.json.specs.Print.{IsNumber};
ghost use Rattle.cb_rpc_call.specs.Amounts.{IsAmount, amount_field, amount_text, millis_text};
ghost use Rattle.cb_rpc_call.specs.Fields.{exact_field};
ghost use Rattle.cb_rpc_call.specs.Writing.{Adds};

use crate::field::put_exact;
use json::Writer;
use std::alloc::{AllocError, Global};

/// Satoshis in a bitcoin.
const COIN: u64 = 100_000_000;

/// The sign of an amount: `-` or nothing.
fn sign_of(satoshis: i64) -> &'static str
    ensures { result.now ≡ sign_text (is_negative satoshis) }
{
    if satoshis < 0 { "-" } else { "" }
}

/// The text of an amount: satoshis as bitcoins with eight decimals.
fn amount_text(alloc: Global, satoshis: i64) -> Result<String, AllocError>
    ensures text { IfOk result (λ text. string_bytes text ≡ amount_text satoshis) }
    ensures number { IfOk result (λ text. IsNumber (string_bytes text)) }
{
    let sign = sign_of(satoshis);
    let size = satoshis.unsigned_abs();
    let (whole, decimals) = (size / COIN, size % COIN);
    let text = format!(in alloc; "{sign}{whole}.{decimals:08}")?;
    Ok(text)
}

/// Writes a member that is an amount: satoshis as a number of bitcoins with eight decimals.
pub fn put_amount(
    alloc: Global,
    writer: &mut Writer,
    name: &str,
    satoshis: i64,
) -> Result<(), AllocError>
    ensures { Adds result writer.old writer.new (amount_field name.now satoshis) }
{
    let text = amount_text(alloc, satoshis)?;
    put_exact(writer, name, text.as_str())
}

/// The text of milliseconds: seconds with three decimals.
fn millis_text(alloc: Global, millis: u64) -> Result<String, AllocError>
    ensures text { IfOk result (λ text. string_bytes text ≡ millis_text millis) }
    ensures number { IfOk result (λ text. IsNumber (string_bytes text)) }
{
    let (seconds, decimals) = (millis / 1_000, millis % 1_000);
    let text = format!(in alloc; "{seconds}.{decimals:03}")?;
    Ok(text)
}

/// Writes a member that is a number of seconds with three decimals.
pub fn put_millis(
    alloc: Global,
    writer: &mut Writer,
    name: &str,
    millis: u64,
) -> Result<(), AllocError>
    ensures { Adds result writer.old writer.new (exact_field name.now (millis_text millis)) }
{
    let text = millis_text(alloc, millis)?;
    put_exact(writer, name, text.as_str())
}

/// The text of an amount is that amount, with exactly eight digits behind its point. The function
/// does nothing: its contract is a theorem.
pub fn amounts_are_exact()
    ensures { (satoshis : ℤ) → FitsSigned w64 satoshis → IsAmount satoshis (amount_text satoshis) }
{}
