//! The options of `node` about JSON-RPC, and whether it reads lines.
ghost use Rattle.std.specs.Prelude.{◌≡◌, codes, false, option_map, string_bytes, IfOk, None, Some};
ghost use Rattle.clap.specs.Words.{app_of, first_of, rule_of};
ghost use Rattle.cb_command.specs.NodeWords.{rows_in};
ghost use Rattle.cb_command.specs.RpcWords.{AreSettings, IsRpc, IsSecret, is_set, switch, with_rpc, worded};

use crate::limit_words::text_of;
use crate::node_words::{BadWords, address_in};
use cb_rpc_serve::RpcSettings;
use clap::{Arg, ArgAction, ArgMatches, Command};
use std::alloc::{AllocError, Global};

/// The command with the options about JSON-RPC.
pub fn with_rpc<'a>(alloc: Global, node: Command<'a>) -> Result<Command<'a>, AllocError>
    ensures { IfOk result (λ more. app_of more ≡ with_rpc (app_of node.entry)) }
{
    node.arg(rpc_arg(alloc))?
        .arg(user_arg(alloc))?
        .arg(password_arg(alloc))?
        .arg(remote_arg(alloc))?
        .arg(no_input_arg(alloc))
}

/// The option `--rpc`.
fn rpc_arg<'a>(alloc: Global) -> Arg<'a>
    ensures rule { rule_of result ≡ worded (codes "rpc") }
    ensures local { result.global ≡ false }
{
    Arg::new(alloc, "rpc")
        .long("rpc")
        .value_name("ADDR:PORT")
        .help("Where it answers JSON-RPC over HTTP; it doesn't if it isn't told")
}

/// The option `--rpc-user`.
fn user_arg<'a>(alloc: Global) -> Arg<'a>
    ensures rule { rule_of result ≡ worded (codes "rpc-user") }
    ensures local { result.global ≡ false }
{
    Arg::new(alloc, "rpc-user")
        .long("rpc-user")
        .value_name("U")
        .help("The user who may ask by JSON-RPC")
}

/// The option `--rpc-password`.
fn password_arg<'a>(alloc: Global) -> Arg<'a>
    ensures rule { rule_of result ≡ worded (codes "rpc-password") }
    ensures local { result.global ≡ false }
{
    Arg::new(alloc, "rpc-password")
        .long("rpc-password")
        .value_name("P")
        .help(
            "The password of that user; that of the environment's CBRELAY_RPC_PASSWORD if it \
                isn't told",
        )
}

/// The flag `--rpc-allow-remote`.
fn remote_arg<'a>(alloc: Global) -> Arg<'a>
    ensures rule { rule_of result ≡ switch (codes "rpc-allow-remote") }
    ensures local { result.global ≡ false }
{
    Arg::new(alloc, "rpc-allow-remote")
        .long("rpc-allow-remote")
        .help("Lets --rpc name another address than loopback. Nothing is encrypted")
        .action(ArgAction::SetTrue)
}

/// The flag `--no-input`.
fn no_input_arg<'a>(alloc: Global) -> Arg<'a>
    ensures rule { rule_of result ≡ switch (codes "no-input") }
    ensures local { result.global ≡ false }
{
    Arg::new(alloc, "no-input")
        .long("no-input")
        .help("Reads no lines: it goes on until JSON-RPC's stop")
        .action(ArgAction::SetTrue)
}

/// Whether a flag was told.
pub fn is_set(node: Option<&ArgMatches>, id: &str) -> bool
    ensures { result ≡ is_set id.now (rows_in (option_map (λ m. m.now) node.entry)) }
{
    match text_of(node, id) {
        Some(text) => text == "true",
        None => false,
    }
}

/// Where and to whom a node answers JSON-RPC, if it is to. It needs a user without a colon and a
/// password, and an address that isn't loopback has to be allowed.
pub fn rpc_in(alloc: Global, node: Option<&ArgMatches>) -> Result<Option<RpcSettings>, BadWords>
    ensures { IfOk result (IsRpc (rows_in (option_map (λ m. m.now) node.entry))) }
{
    match text_of(node, "rpc") {
        Some(text) => Ok(Some(settings_in(alloc, node, text)?)),
        None => no_rpc(node),
    }
}

/// Nothing, if no word about JSON-RPC was told.
fn no_rpc(node: Option<&ArgMatches>) -> Result<Option<RpcSettings>, BadWords>
    ensures { IfOk result (λ rpc. rpc ≡ None) }
{
    let secret = text_of(node, "rpc-user").is_some() || text_of(node, "rpc-password").is_some();
    if secret || is_set(node, "rpc-allow-remote") {
        return Err(BadWords::RpcAlone);
    }
    Ok(None)
}

/// What the other options ask for, where `--rpc` has this value.
fn settings_in(
    alloc: Global,
    node: Option<&ArgMatches>,
    text: &str,
) -> Result<RpcSettings, BadWords>
    ensures { IfOk result
        (AreSettings (rows_in (option_map (λ m. m.now) node.entry)) text.now) }
{
    let address = address_in(text, BadWords::Rpc)?;
    let remote = is_set(node, "rpc-allow-remote");
    if !address.ip().is_loopback() && !remote {
        return Err(BadWords::Remote);
    }
    let (Some(user), Some(password)) = (text_of(node, "rpc-user"), text_of(node, "rpc-password"))
    else {
        return Err(BadWords::NoSecret);
    };
    Ok(RpcSettings {
        address,
        user_and_password: secret_of(alloc, user, password)?,
        remote,
    })
}

/// A user and a password as HTTP's basic authentication joins them (RFC 7617): neither is empty,
/// and the user has no colon.
fn secret_of(alloc: Global, user: &str, password: &str) -> Result<String, BadWords>
    ensures { IfOk result
        (λ secret. IsSecret (Some user.now) (Some password.now) (string_bytes secret)) }
{
    if user.is_empty() || password.is_empty() {
        return Err(BadWords::NoSecret);
    }
    if user.as_bytes().contains(&b':') {
        return Err(BadWords::User);
    }
    match format!(in alloc; "{user}:{password}") {
        Ok(text) => Ok(text),
        Err(_) => Err(BadWords::Memory),
    }
}
