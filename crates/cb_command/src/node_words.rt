//! The command `node` of the command line.
ghost use Rattle.std.specs.Prelude.{◌≡◌, ◌≤◌, codes, false, is_some, not, option_map, true, IfErr, IfOk};
ghost use Rattle.clap.specs.Words.{app_of, rule_of, subcommand_rows_of};
ghost use Rattle.std.specs.Net.Grammar.{IsSocketText};
ghost use Rattle.cb_command.specs.NodeWords.{HasSizes, IsNodeOrders, bad_words_text, node_line, node_rows, numbered, repeated, rows_in, valued};
ghost use Rattle.cb_command.specs.RpcWords.{is_set};

use crate::limit_words::{limits_in, number_of, text_of, with_limits};
use crate::rpc_words::{is_set, rpc_in, with_rpc};
use cb_process::NodeOrders;
use cb_rpc_serve::RpcSettings;
use clap::{Arg, ArgAction, ArgMatches, Command, value_parser};
use log::LevelFilter;
use std::alloc::{AllocError, Global};
use std::net::{IpAddr, Ipv4Addr, SocketAddr};

/// The port at which a node listens if nothing else is told: that of regtest.
const PORT: u16 = 18_444;

/// How many handler threads a node has if nothing else is told.
const HANDLERS: u64 = 2;

/// How many milliseconds pass from tick to tick if nothing else is told.
const TICK: u64 = 100;

/// The text that `node --help` prints below the options.
const NODE_USE: &str = "\
It prints 'listening ADDR:PORT' once it listens. A connection to a peer that ends is made again \
    after
1, 2, 4, .. 60 seconds. Each line of standard input is answered by a line, or by 'error ..':

  tip               the height and the hash of the best chain's tip
  block HASH        what the chain has of a block
  tx HEX            gives the node a transaction
  submit-block HEX  gives the node a block
  mine [N]          mines a block, or N, at most 1,000
  pool              how many transactions the mempool has, and then a line for each
  peers             how many connections last, and then a line for each
  kick SLOT         ends the connection in a slot
  connect ADDR:PORT connects to a peer, and again whenever the connection ends
  disconnect ADDR:PORT
                    ends the connection to such a peer, and dials it no more
  network off       ends all connections, and lets none begin until 'network on'
  checkpoint        the node drops its log of calls
  stats             what all connections moved
  restart           ends the node and audits it, and starts another one over its chain and mempool
  quit              ends the node and audits it, as the end of input does

Connections, their ends and new tips are logged on standard error. With --rpc it also answers \
    requests of
JSON-RPC, as Bitcoin Core's daemon does; the method 'help' lists them.

Examples:
  cbrelay node --listen 127.0.0.1:18444
  cbrelay node --listen 127.0.0.1:18445 --connect 127.0.0.1:18444 --log debug
  cbrelay node --rpc 127.0.0.1:18443 --rpc-user me --rpc-password secret --no-input";

/// Why the words of `node` can't be followed.
#[derive(Clone, Copy)]
pub enum BadWords {
    /// The value of `--listen` isn't an IP address and a port.
    Listen,
    /// A value of `--connect` isn't an IP address and a port.
    Connect,
    /// The value of `--log` is no level.
    Log,
    /// The value of `--rpc` isn't an IP address and a port.
    Rpc,
    /// `--rpc` needs a user and a password.
    NoSecret,
    /// The user has a colon.
    User,
    /// `--rpc` names another address than loopback, and that isn't allowed.
    Remote,
    /// What goes with `--rpc` was told alone.
    RpcAlone,
    /// `--no-input` was told without `--rpc`.
    NoInput,
    /// Memory ran out.
    Memory,
}

impl BadWords {
    /// The message, which names the word; empty for want of memory.
    pub fn message(self) -> &'static str
        ensures { result.now ≡ bad_words_text self }
    {
        match self {
            BadWords::Listen => {
                "error: --listen takes ADDR:PORT in numbers alone, as 127.0.0.1:18444 or \
                    [::1]:18444; names of hosts aren't looked up\n"
            }
            BadWords::Connect => {
                "error: --connect takes ADDR:PORT in numbers alone, as 127.0.0.1:18444 or \
                    [::1]:18444; names of hosts aren't looked up\n"
            }
            BadWords::Log => "error: --log takes off, error, warn, info, debug or trace\n",
            BadWords::Rpc => {
                "error: --rpc takes ADDR:PORT in numbers alone, as 127.0.0.1:18444 or \
                    [::1]:18444; names of hosts aren't looked up\n"
            }
            BadWords::NoSecret => {
                "error: --rpc takes --rpc-user and --rpc-password too, and neither is empty; the \
                    environment's CBRELAY_RPC_PASSWORD stands for the second\n"
            }
            BadWords::User => "error: --rpc-user takes a name without a colon\n",
            BadWords::Remote => {
                "error: --rpc takes a loopback address, and another one only with \
                    --rpc-allow-remote\n"
            }
            BadWords::RpcAlone => {
                "error: --rpc-user, --rpc-password and --rpc-allow-remote go with --rpc\n"
            }
            BadWords::NoInput => {
                "error: --no-input takes --rpc too: nothing else could end the node\n"
            }
            BadWords::Memory => "",
        }
    }
}

/// The command `node`.
pub fn node_line<'a>(alloc: Global) -> Result<Command<'a>, AllocError>
    ensures { IfOk result (λ node. app_of node ≡ node_line) }
{
    let node = Command::new(alloc, "node")
        .about("Run a node: listen, dial, relay, and answer the lines of standard input")
        .after_help(NODE_USE)
        .arg(listen_arg(alloc))?
        .arg(connect_arg(alloc))?
        .arg(threads_arg(alloc))?
        .arg(tick_arg(alloc))?;
    with_rpc(alloc, with_limits(alloc, node)?.arg(log_arg(alloc))?)
}

/// The option `--listen`.
fn listen_arg<'a>(alloc: Global) -> Arg<'a>
    ensures rule { rule_of result ≡ valued (codes "listen") }
    ensures local { result.global ≡ false }
{
    Arg::new(alloc, "listen")
        .long("listen")
        .value_name("ADDR:PORT")
        .help("Where it listens; 127.0.0.1:18444 if it isn't told. Port 0 is any that is free")
}

/// The option `--connect`.
fn connect_arg<'a>(alloc: Global) -> Arg<'a>
    ensures rule { rule_of result ≡ repeated (codes "connect") }
    ensures local { result.global ≡ false }
{
    Arg::new(alloc, "connect")
        .long("connect")
        .value_name("ADDR:PORT")
        .help("A peer to which it connects, and again whenever that ends. Any number of times")
        .action(ArgAction::Append)
}

/// The option `--handlers`.
fn threads_arg<'a>(alloc: Global) -> Arg<'a>
    ensures rule { rule_of result ≡ numbered (codes "handlers") 16 }
    ensures local { result.global ≡ false }
{
    Arg::new(alloc, "handlers")
        .long("handlers")
        .value_name("H")
        .help("How many threads serve its peers, 1 to 16; 2 if it isn't told")
        .value_parser(value_parser!(u16).range(1..=16))
}

/// The option `--tick`.
fn tick_arg<'a>(alloc: Global) -> Arg<'a>
    ensures rule { rule_of result ≡ numbered (codes "tick") 60000 }
    ensures local { result.global ≡ false }
{
    Arg::new(alloc, "tick")
        .long("tick")
        .value_name("MS")
        .help(
            "How often peers are told what is new, in milliseconds, 1 to 60,000; 100 if it isn't \
                told",
        )
        .value_parser(value_parser!(u16).range(1..=60_000))
}

/// The option `--log`.
fn log_arg<'a>(alloc: Global) -> Arg<'a>
    ensures rule { rule_of result ≡ valued (codes "log") }
    ensures local { result.global ≡ false }
{
    Arg::new(alloc, "log").long("log").value_name("LEVEL").help(
        "What is logged: off, error, warn, info, debug or trace; info if it isn't told",
    )
}

/// What `node` is asked for; what it does if nothing is told, if it isn't the command.
pub fn node_orders_of(alloc: Global, matches: &ArgMatches) -> Result<NodeOrders, BadWords>
    ensures sizes { IfOk result HasSizes }
    ensures told { IfOk result (IsNodeOrders (node_rows (subcommand_rows_of matches.now))) }
{
    orders_in(alloc, matches.subcommand_matches("node"))
}

/// Where a node listens if nothing else is told.
fn usual_address() -> SocketAddr {
    SocketAddr::new(IpAddr::V4(Ipv4Addr::LOCALHOST), PORT)
}

/// What `node` is asked for by its options, if it was entered.
fn orders_in(alloc: Global, node: Option<&ArgMatches>) -> Result<NodeOrders, BadWords>
    ensures sizes { IfOk result HasSizes }
    ensures told { IfOk result (IsNodeOrders (rows_in (option_map (λ m. m.now) node.entry))) }
{
    let listen = match text_of(node, "listen") {
        Some(text) => address_in(text, BadWords::Listen)?,
        None => usual_address(),
    };
    let level = match text_of(node, "log") {
        Some(text) => level_in(text)?,
        None => LevelFilter::Info,
    };
    let rpc = rpc_in(alloc, node)?;
    let reads_input = reads_input(node, &rpc)?;
    Ok(NodeOrders {
        listen,
        connect: addresses_in(alloc, node)?,
        handlers: number_of(node, "handlers", HANDLERS, 1, 16) as u16,
        tick: number_of(node, "tick", TICK, 1, 60_000),
        limits: limits_in(node, listen.ip()),
        level,
        rpc,
        reads_input,
    })
}

/// Whether a node reads lines. One that neither reads lines nor answers JSON-RPC couldn't be ended.
fn reads_input(node: Option<&ArgMatches>, rpc: &Option<RpcSettings>) -> Result<bool, BadWords>
    ensures told { IfOk result (λ reads.
        reads ≡ not (is_set (codes "no-input") (rows_in (option_map (λ m. m.now) node.entry)))) }
    ensures ends { IfOk result (λ reads. reads ≡ false → is_some rpc.now ≡ true) }
{
    let reads = !is_set(node, "no-input");
    if !reads && rpc.is_none() {
        return Err(BadWords::NoInput);
    }
    Ok(reads)
}

/// The level that a value names.
fn level_in(text: &str) -> Result<LevelFilter, BadWords>
    ensures { IfErr result (λ bad. bad ≡ BadWords.Log) }
{
    let Ok(level) = text.parse::<LevelFilter>() else {
        return Err(BadWords::Log);
    };
    Ok(level)
}

/// The addresses of `--connect`, in their order.
fn addresses_in(alloc: Global, node: Option<&ArgMatches>) -> Result<Vec<SocketAddr>, BadWords> {
    let mut all = Vec::new(alloc);
    let Some(node) = node else {
        return Ok(all);
    };
    let Some(texts) = node.get_strs("connect") else {
        return Ok(all);
    };
    for text in texts {
        let address = address_in(text, BadWords::Connect)?;
        if all.push(address).is_err() {
            return Err(BadWords::Memory);
        }
    }
    Ok(all)
}

/// The address that a value writes. If it writes none, the words are bad as the caller says.
pub fn address_in(text: &str, bad: BadWords) -> Result<SocketAddr, BadWords>
    ensures bad { IfErr result (λ told. told ≡ bad) }
    ensures read { IfOk result (λ address. IsSocketText text.now address) }
{
    match text.parse::<SocketAddr>() {
        Ok(address) => Ok(address),
        Err(_) => Err(bad),
    }
}
