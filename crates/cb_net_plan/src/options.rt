//! The command `net` of the command line.
ghost use Rattle.std.specs.Prelude.{◌≡◌, codes, false, IfOk};
ghost use Rattle.clap.specs.Words.{app_of, rule_of};
ghost use Rattle.cb_net_plan.specs.NetLine.{flag, needed, net_line, short, valued, wide, with_blocks, with_faults, with_links, with_prints};

use clap::builder::ValueParser;
use clap::{Arg, ArgAction, Command};
use std::alloc::{AllocError, Global};

/// The highest value of an option with a number, but for the two that take 64 bits.
const MOST: u64 = 4_294_967_295;

/// The text that `net --help` prints below the options.
const NET_USE: &str = "\
Nodes run the sessions and chains of 'node', in virtual time. All is drawn from the seed, so the \
    same
words print the same text on every machine. For each block:

  block N miner NODE half MS most MS all MS once NODES asked NODES whole NODES
  bytes N COMMAND MESSAGES BYTES ..

Half, nine of ten and all of the honest nodes had it after these milliseconds. So many of them \
    rebuilt
it at once, asked for some of its transactions, or for all of it. The second line tells what they \
    sent.
At the end stand the bytes of all blocks, the tip and how many honest nodes have it, how many
connections to dishonest and to honest nodes they closed, and the audits.

The status is 0 if the honest nodes have one tip and each audit says yes; else 2, with the seed.

Examples:
  cbrelay net --nodes 100
  cbrelay net --nodes 300 --missing 2 --lacking 50 --part 100@2..2 --restart 17@3 --stall 10 \
    --lie 5
  cbrelay net --nodes 300 --seed 7 --blocks 10 --csv";

/// The command `net`.
pub fn net_line<'a>(alloc: Global) -> Result<Command<'a>, AllocError>
    ensures { IfOk result (λ net. app_of net ≡ net_line) }
{
    let net = Command::new(alloc, "net")
        .about("Play a network of nodes in virtual time, from a seed, with faults")
        .after_help(NET_USE);
    let linked = with_links(alloc, net)?;
    let relaying = with_blocks(alloc, linked)?;
    with_prints(alloc, with_faults(alloc, relaying)?)
}

/// The command with the options about its nodes and links.
fn with_links<'a>(alloc: Global, net: Command<'a>) -> Result<Command<'a>, AllocError>
    ensures { IfOk result (λ more. app_of more ≡ with_links (app_of net.entry)) }
{
    net.arg(nodes_arg(alloc))?
        .arg(number_arg(
            alloc,
            "links",
            "N",
            "How many links a node has on average, 2 to 64; 8 if it isn't told",
        ))?
        .arg(wide_arg(alloc, "seed", "What all is drawn from; 1 if it isn't told"))?
        .arg(value_arg(
            alloc,
            "latency",
            "A..B",
            "How long a message is under way, in milliseconds; 20..200 if it isn't told",
        ))?
        .arg(wide_arg(
            alloc,
            "rate",
            "How many bytes a node sends a second; 1,250,000 if it isn't told",
        ))
}

/// The command with the options about its blocks.
fn with_blocks<'a>(alloc: Global, net: Command<'a>) -> Result<Command<'a>, AllocError>
    ensures { IfOk result (λ more. app_of more ≡ with_blocks (app_of net.entry)) }
{
    net.arg(number_arg(
        alloc,
        "blocks",
        "N",
        "How many blocks are mined; 3 if it isn't told",
    ))?
    .arg(number_arg(
        alloc,
        "transactions",
        "N",
        "How many transactions a block has, at most 4,000; 100 if it isn't told",
    ))?
    .arg(number_arg(
        alloc,
        "missing",
        "N",
        "How many of them some nodes lack; 0 if it isn't told",
    ))?
    .arg(number_arg(
        alloc,
        "lacking",
        "PERCENT",
        "How many of 100 nodes lack these; 0 if it isn't told",
    ))
}

/// The command with the options about what goes wrong.
fn with_faults<'a>(alloc: Global, net: Command<'a>) -> Result<Command<'a>, AllocError>
    ensures { IfOk result (λ more. app_of more ≡ with_faults (app_of net.entry)) }
{
    net.arg(value_arg(
        alloc,
        "part",
        "N@A..B",
        "The nodes below N are cut off from the others, from block A to block B",
    ))?
    .arg(value_arg(
        alloc,
        "restart",
        "N@B",
        "Node N begins anew with nothing, before block B",
    ))?
    .arg(number_arg(
        alloc,
        "stall",
        "N",
        "How many nodes never answer; 0 if it isn't told",
    ))?
    .arg(number_arg(
        alloc,
        "lie",
        "N",
        "How many nodes send messages that break the rules; 0 if it isn't told",
    ))
}

/// The command with the options about what is printed.
fn with_prints<'a>(alloc: Global, net: Command<'a>) -> Result<Command<'a>, AllocError>
    ensures { IfOk result (λ more. app_of more ≡ with_prints (app_of net.entry)) }
{
    net.arg(value_arg(
        alloc,
        "audit",
        "WHICH",
        "Which nodes are audited: all or none; all if it isn't told",
    ))?
    .arg(csv_arg(alloc))
}

/// The option `--nodes`.
fn nodes_arg<'a>(alloc: Global) -> Arg<'a>
    ensures rule { rule_of result ≡ needed (codes "nodes") }
    ensures local { result.global ≡ false }
{
    number_arg(
        alloc,
        "nodes",
        "N",
        "How many nodes there are, 2 to 100,000",
    )
    .required(true)
}

/// An option of this name with a number of 32 bits.
fn number_arg<'a>(alloc: Global, name: &'a str, value: &'a str, help: &'a str) -> Arg<'a>
    ensures rule { rule_of result ≡ short name.entry.now }
    ensures local { result.global ≡ false }
{
    value_arg(alloc, name, value, help).value_parser(ValueParser::unsigned(0, MOST))
}

/// An option of this name with a number of 64 bits.
fn wide_arg<'a>(alloc: Global, name: &'a str, help: &'a str) -> Arg<'a>
    ensures rule { rule_of result ≡ wide name.entry.now }
    ensures local { result.global ≡ false }
{
    value_arg(alloc, name, "N", help).value_parser(ValueParser::unsigned(0, u64::MAX))
}

/// An option of this name with a value.
fn value_arg<'a>(alloc: Global, name: &'a str, value: &'a str, help: &'a str) -> Arg<'a>
    ensures rule { rule_of result ≡ valued name.entry.now }
    ensures local { result.global ≡ false }
{
    Arg::new(alloc, name)
        .long(name)
        .value_name(value)
        .help(help)
}

/// The flag `--csv`.
fn csv_arg<'a>(alloc: Global) -> Arg<'a>
    ensures rule { rule_of result ≡ flag (codes "csv") }
    ensures local { result.global ≡ false }
{
    Arg::new(alloc, "csv")
        .long("csv")
        .help("Prints a row of comma-separated values for each block, in place of words")
        .action(ArgAction::SetTrue)
}
