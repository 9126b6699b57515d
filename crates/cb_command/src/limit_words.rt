//! The options of `node` about what peers may do.
ghost use Rattle.std.specs.Prelude.{◌≡◌, ◌≤◌, ◌^◌, codes, false, option_map, IfOk};
ghost use Rattle.clap.specs.Words.{app_of, first_of, rule_of};
ghost use Rattle.std.specs.Str.Parse.{without_leading_plus};
ghost use Rattle.cb_control.specs.Words.{number_in};
ghost use Rattle.cb_command.specs.NodeWords.{AreLimits, IsUsualShare, Shares, in_bounds, millis_or, number_or, number_told, numbered, numbered_from, rows_in, with_limits};

use cb_process::Limits;
use clap::{Arg, ArgMatches, Command, value_parser};
use std::alloc::{AllocError, Global};
use std::net::IpAddr;

/// How many seconds a handshake lasts at most if nothing else is told.
const HANDSHAKE: u64 = 60;

/// How many seconds pass at most without a message if nothing else is told.
const IDLE: u64 = 1_200;

/// How many seconds a block is waited for at most if nothing else is told.
const BLOCK: u64 = 120;

/// How many slots a node has if nothing else is told.
const SLOTS: u64 = 64;

/// How many connections of one address last at most if nothing else is told, beside loopback.
const SHARE: u64 = 8;

/// The command with the options about what peers may do.
pub fn with_limits<'a>(alloc: Global, node: Command<'a>) -> Result<Command<'a>, AllocError>
    ensures { IfOk result (λ more. app_of more ≡ with_limits (app_of node.entry)) }
{
    node.arg(handshake_arg(alloc))?
        .arg(idle_arg(alloc))?
        .arg(block_arg(alloc))?
        .arg(most_arg(alloc))?
        .arg(share_arg(alloc))
}

/// The option `--handshake-timeout`.
fn handshake_arg<'a>(alloc: Global) -> Arg<'a>
    ensures rule { rule_of result ≡ numbered (codes "handshake-timeout") 86400 }
    ensures local { result.global ≡ false }
{
    Arg::new(alloc, "handshake-timeout")
        .long("handshake-timeout")
        .value_name("S")
        .help("How many seconds a handshake lasts at most, 1 to 86,400; 60 if it isn't told")
        .value_parser(value_parser!(u32).range(1..=86_400))
}

/// The option `--idle-timeout`.
fn idle_arg<'a>(alloc: Global) -> Arg<'a>
    ensures rule { rule_of result ≡ numbered (codes "idle-timeout") 86400 }
    ensures local { result.global ≡ false }
{
    Arg::new(alloc, "idle-timeout")
        .long("idle-timeout")
        .value_name("S")
        .help(
            "How many seconds a peer may send no whole message, 1 to 86,400; 1,200 if it isn't \
                told",
        )
        .value_parser(value_parser!(u32).range(1..=86_400))
}

/// The option `--block-timeout`.
fn block_arg<'a>(alloc: Global) -> Arg<'a>
    ensures rule { rule_of result ≡ numbered (codes "block-timeout") 86400 }
    ensures local { result.global ≡ false }
{
    Arg::new(alloc, "block-timeout")
        .long("block-timeout")
        .value_name("S")
        .help(
            "How many seconds a peer may give none of the blocks that it was asked for, 1 to \
                86,400; 120 if it isn't told",
        )
        .value_parser(value_parser!(u32).range(1..=86_400))
}

/// The option `--max-connections`.
fn most_arg<'a>(alloc: Global) -> Arg<'a>
    ensures rule { rule_of result ≡ numbered_from (codes "max-connections") 2 1000 }
    ensures local { result.global ≡ false }
{
    Arg::new(alloc, "max-connections")
        .long("max-connections")
        .value_name("N")
        .help(
            "How many connections last at most, 2 to 1,000; 64 if it isn't told. A quarter of \
                them, 1 to 16, to peers that it dials",
        )
        .value_parser(value_parser!(u32).range(2..=1_000))
}

/// The option `--per-address`.
fn share_arg<'a>(alloc: Global) -> Arg<'a>
    ensures rule { rule_of result ≡ numbered (codes "per-address") 1000 }
    ensures local { result.global ≡ false }
{
    Arg::new(alloc, "per-address")
        .long("per-address")
        .value_name("N")
        .help(
            "How many connections from one address last at most, 1 to 1,000, and 10 new ones a \
                second; 8 if it isn't told, but no limit where it listens at loopback",
        )
        .value_parser(value_parser!(u32).range(1..=1_000))
}

/// The limits that the options ask for, at a node that listens there.
pub fn limits_in(node: Option<&ArgMatches>, at: IpAddr) -> Limits
    ensures { AreLimits (rows_in (option_map (λ m. m.now) node.entry)) at result }
{
    let most = number_of(node, "max-connections", SLOTS, 2, 1_000) as u16;
    Limits {
        handshake: millis_of(node, "handshake-timeout", HANDSHAKE),
        idle: millis_of(node, "idle-timeout", IDLE),
        block: millis_of(node, "block-timeout", BLOCK),
        per_address: share_of(text_of(node, "per-address"), at),
        ..Limits::usual()
    }
    .with_most(most)
}

/// The milliseconds of an option that takes seconds, 1 to 86,400.
fn millis_of(node: Option<&ArgMatches>, id: &str, usual: u64) -> u64
    requires { (1 ≤ usual) × (usual ≤ 86400) }
    ensures { result ≡ millis_or usual
        (first_of id.now (rows_in (option_map (λ m. m.now) node.entry))) }
{
    1_000 * number_of(node, id, usual, 1, 86_400)
}

/// How many connections of one address last at most, by the value of `--per-address`.
fn share_of(text: Option<&str>, at: IpAddr) -> Option<u16>
    ensures { Shares at (option_map (λ text. text.now) text.entry) result }
{
    match text {
        Some(text) => Some(number_told(text, SHARE, 1, 1_000) as u16),
        None => usual_share(at),
    }
}

/// The same if the option isn't told.
fn usual_share(at: IpAddr) -> Option<u16>
    ensures { IsUsualShare at result }
{
    if at.is_loopback() {
        None
    } else {
        Some(SHARE as u16)
    }
}

/// The number of an option.
pub fn number_of(node: Option<&ArgMatches>, id: &str, usual: u64, least: u64, most: u64) -> u64
    requires { (least ≤ usual) × (usual ≤ most) }
    ensures exact { result ≡ number_or usual least most
        (first_of id.now (rows_in (option_map (λ m. m.now) node.entry))) }
    ensures within { (least ≤ result) × (result ≤ most) }
{
    number_or(text_of(node, id), usual, least, most)
}

/// The number of an option with this value, or the usual one if it wasn't told.
fn number_or(text: Option<&str>, usual: u64, least: u64, most: u64) -> u64
    requires { (least ≤ usual) × (usual ≤ most) }
    ensures exact { result ≡ number_or usual least most (option_map (λ text. text.now) text.entry) }
    ensures within { (least ≤ result) × (result ≤ most) }
{
    match text {
        Some(text) => number_told(text, usual, least, most),
        None => usual,
    }
}

/// The number that a value writes, if that is one from `least` to `most`, or else the usual one.
fn number_told(text: &str, usual: u64, least: u64, most: u64) -> u64
    requires { (least ≤ usual) × (usual ≤ most) }
    ensures exact { result ≡ number_told usual least most text.now }
    ensures within { (least ≤ result) × (result ≤ most) }
{
    match number_in(text) {
        Some(number) => in_bounds(number, usual, least, most),
        None => usual,
    }
}

/// A number, if it is one from `least` to `most`, or else the usual one.
fn in_bounds(number: u64, usual: u64, least: u64, most: u64) -> u64
    requires { (least ≤ usual) × (usual ≤ most) }
    ensures exact { result ≡ in_bounds usual least most number }
    ensures within { (least ≤ result) × (result ≤ most) }
{
    if least <= number && number <= most {
        number
    } else {
        usual
    }
}

/// The number that a value writes: decimal digits, and a plus before them may stand.
fn number_in(text: &str) -> Option<u64>
    ensures { result ≡ number_in (2 ^ 64) (without_leading_plus text.now) }
{
    text.parse().ok()
}

/// The value of an option, if it was told.
#[tactic(auto, using(crate::proofs::Options::given_text))]
pub fn text_of<'b, 'a>(node: Option<&'b ArgMatches<'a>>, id: &str) -> Option<&'a str>
    ensures { option_map (λ text. text.now) result
        ≡ first_of id.now (rows_in (option_map (λ m. m.now) node.entry)) }
{
    match node {
        Some(node) => node.get_str(id),
        None => None,
    }
}
