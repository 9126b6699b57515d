//! The command line and its commands.

ghost use Rattle.std.specs.Prelude.{◌≡◌, ◌⊎◌, ◌≤◌, ℕ, true, false, IsErrOf, List, [], ◌∷◌, codes, map, option_map, string_bytes, IfOk, IfErr, MatchResult, Result};
ghost use Rattle.std.specs.Io.KnownBytes.{Appends};
ghost use Rattle.cb_peer_state.specs.declared.state.CloseReason.{CloseReason};
ghost use Rattle.cb_peer_state.specs.declared.state.CloseReason.TheVariants as reasons;
ghost use Rattle.cb_control.specs.declared.ending.Halt.TheVariants.{Memory, ReadFailed, WriteFailed};
ghost use Rattle.cb_control.specs.declared.ending.Status.TheVariants.{Usage};
ghost use Rattle.cb_command.specs.Command.{PrintsReport, EndsEarly, EndsNet, Halts, Refuses, RunsNode, TellsPeer, code_of, end_line};
ghost use Rattle.cb_control.specs.Ending.{halt_status};
ghost use Rattle.cb_command.specs.Peer.{WasServed};
ghost use Rattle.cb_net_plan.specs.Settings.{usual_settings};
ghost use Rattle.cb_commands.specs.SimInput.{SimulatesKnown};
ghost use Rattle.cb_net.specs.Playing.{RunsNet};
ghost use Rattle.cb_command.specs.Words.{AreAsked, AreRefused, AreWithin, ByTask, IsWithin, flag, net_asked, node_program, plain_program, program, scripted_program, sized, task_in, task_named};
ghost use Rattle.cb_driver.specs.Auditing.{IsOfAnEnd};
ghost use Rattle.cb_driver.specs.Summary.{AreReported, RunsKnown};
ghost use Rattle.cb_process.specs.declared.orders.NodeOrders.{NodeOrders};
ghost use Rattle.cb_command.specs.NodeWords.{HasSizes, bad_words_text};
ghost use Rattle.cb_command.specs.declared.node_words.BadWords.{BadWords};
ghost use Rattle.cb_driver.specs.declared.running.RunOrders.{RunOrders};
ghost use Rattle.clap.specs.Words.{FailsBy, app_of, fault_of, kind_of, rule_of, takes};
ghost use Rattle.clap.specs.declared.error.kind.ErrorKind.TheVariants.{OutOfMemory};

use crate::node_words::{BadWords, node_line, node_orders_of};
use crate::serve::serve_peer;
use cb_base::{Seed, Shared, Sink, Source};
use cb_commands::{decode, simulate};
use cb_control::{Halt, Status, write_all};
use cb_driver::{RunOrders, RunSizes, run_nodes};
use cb_net::{Progress, run_net};
use cb_net_plan::{BadNet, NetSettings, net_line, net_settings_of};
use cb_node_process::run_node;
use cb_peer_state::MessageSink;
use cb_pipes::Pipes;
use cb_process::{NodeOrders, ProcessHost};
use clap::error::ErrorKind;
use clap::{Arg, ArgAction, ArgMatches, Command, value_parser};
use std::alloc::{AllocError, Global};

/// The command that a command line names.
#[derive(Drop)]
pub enum Task {
    /// `decode`: print the items of a stream.
    Decode,
    /// `serve`: answer a peer.
    Serve,
    /// `sim`: run the pure core of the crew, which is the threads that share the peers' work, one
    /// line for each act.
    Sim,
    /// `run`: play a script of nodes that are joined over loopback.
    Run(RunOrders),
    /// `node`: run a node until its operator ends it.
    Node(Result<NodeOrders, BadWords>),
    /// `net`: play a network of nodes in virtual time.
    Net(Result<NetSettings, BadNet>),
}

/// The version that `--version` prints.
const VERSION: &str = "0.1.0";

/// The text that `--help` prints below the commands.
const USE: &str = "\
Without a command `decode` runs. All input is standard input. The network is Bitcoin's regression
test network (regtest).

Exit status:
  0  all was done
  1  the command line was refused, or help or the version was asked for
  2  sim: an act was refused; run: a node refused what it was given; net: several tips, or an \
    audit
  3  the input has a fault, or a read or a write failed; run: also a slot, a socket, a wait or an \
    audit;
     node: also an address, a port that is in use, a peer that was never reached, or an audit;
     net: also settings that no network can have
  4  memory ran out

Examples:
  echo fabfb5da76657261636b000000000000000000005df6e0e2 | cbrelay decode
  printf 'link 0 1\\nmine 0\\nwait\\n' | cbrelay run --nodes 2 --handlers 1
  cbrelay node --listen 127.0.0.1:18444
  cbrelay net --nodes 100";

/// The text that `run --help` prints below the options.
const RUN_USE: &str = "\
Nodes have the numbers 0 to N-1. Standard input is a script; each line is one of

  link A B      node A connects to node B
  tx A HEX      node A is given a transaction
  block A HEX   node A is given a block
  mine A        node A mines a block
  kick A SLOT   node A kicks the peer in a slot; slots 0 to 31 are of peers that
                connected to it, slots 32 to 63 of those it connected to
  wait          ticks until all nodes have one tip, at most 2,000
  checkpoint A  node A drops its log of calls

What was refused or failed is printed with the line's number. At the end each node
prints its height, its tip, its mempool's size, and whether its log and the traces of
its connections tell one history.

Example:
  printf 'link 0 1\\nmine 0\\nwait\\n' | cbrelay run --nodes 2 --handlers 1";

/// Words and the commands that they name. Clap accepts them.
pub fn words_name_commands()
    ensures named { (orders : RunOrders) (node : Result NodeOrders BadWords) (name : List ℕ) →
        (task_in orders node (name ∷ []) ≡ Task.Decode)
        × (task_in orders node (name ∷ codes "decode" ∷ []) ≡ Task.Decode)
        × (task_in orders node (name ∷ codes "serve" ∷ []) ≡ Task.Serve)
        × (task_in orders node (name ∷ codes "sim" ∷ []) ≡ Task.Sim)
        × (task_in orders node (name ∷ codes "run" ∷ codes "--nodes" ∷ codes "8"
        ∷ codes "--handlers" ∷ codes "16" ∷ []) ≡ Task.Run orders)
        × (task_in orders node (name ∷ codes "node" ∷ []) ≡ Task.Node node)
        × (task_in orders node (name ∷ codes "net" ∷ codes "--nodes" ∷ codes "5" ∷ [])
        ≡ Task.Net (Ok (usual_settings 5))) }
    ensures taken { (name : List ℕ) →
        (takes program (name ∷ []) ≡ true) × (takes program (name ∷ codes "decode" ∷ []) ≡ true)
        × (takes program (name ∷ codes "serve" ∷ []) ≡ true)
        × (takes program (name ∷ codes "sim" ∷ []) ≡ true)
        × (takes program (name ∷ codes "run" ∷ codes "--nodes" ∷ codes "8" ∷ codes "--handlers"
        ∷ codes "16" ∷ []) ≡ true) × (takes program (name ∷ codes "node" ∷ []) ≡ true)
        × (takes program (name ∷ codes "net" ∷ codes "--nodes" ∷ codes "5" ∷ []) ≡ true) }
{}

/// Runs the command that the words name, and returns the exit status, the code of a `Status`.
///
/// The first word is the program's name. All input is read from `reader`. Output goes to `writer`.
/// Messages about the command line, about want of memory, and about a failed read or write, go to
/// `errors`; `serve` also prints there why its session ended, and `node` why it can't listen.
/// `node` reads standard input and logs on standard error by `rt`, and looks at `pipes`, which it
/// tells when its end is asked for. The tables of the halls of `serve`, `run` and `node` have this
/// seed, which changes no result. Peers choose the keys of these tables, so a seed that no peer
/// knows keeps a lookup short. Meanwhile `net` tells by `progress` how far it is.
pub fn command<N: ProcessHost, R: Source, W: MessageSink, E: Sink, P: Sink>(
    rt: N,
    alloc: Global,
    seed: Seed,
    words: Vec<String>,
    pipes: &Shared<Pipes>,
    reader: &mut R,
    writer: &mut W,
    errors: &mut E,
    progress: &mut Progress<P>,
) -> u8
    // For every reader, writer and standard error: if the status is 1, clap refuses the words.
    // Nothing was read, and nothing was written to `writer`.
    ensures refused { result ≡ 1 →
        AreRefused (map string_bytes words.items) × (reader.new ≡ reader.old)
        × (writer.new ≡ writer.old) }
    // Either the words were refused. Or memory ran out before the command began. Or clap finds no
    // fault in the words, and the command ended normally or ended early for a cause.
    ensures ran { (AreRefused (map string_bytes words.items)
        × Refuses (E.has_failed errors.new) result × (reader.new ≡ reader.old)
        × (writer.new ≡ writer.old))
        ⊎ ((EndsEarly (E.contents errors.old) (E.contents errors.new)
        (E.has_failed errors.new) result Memory × (reader.new ≡ reader.old)
        × (writer.new ≡ writer.old))
        ⊎ ((fault_of program (map string_bytes words.items) ≡ [])
        × ((orders : RunOrders) × (node : Result NodeOrders BadWords)
        × AreAsked orders node (map string_bytes words.items)
        × ByTask (task_in orders node (map string_bytes words.items))
        ((PrintsReport (R.remaining reader.old) (W.contents writer.old)
        (W.contents writer.new) result × (errors.new ≡ errors.old))
        ⊎ Halts (R.remaining reader.old) (R.has_failed reader.new) (W.has_failed writer.new)
        (E.contents errors.old) (E.contents errors.new) (E.has_failed errors.new) result)
        ((reason : CloseReason)
        × (WasServed (R.remaining reader.old) (R.remaining reader.new) (R.has_failed reader.new)
        (W.contents writer.old) (W.contents writer.new) (W.has_failed writer.old)
        (W.has_failed writer.new) reason
        ⊎ ((reason ≡ reasons.Memory) × (reader.new ≡ reader.old) × (writer.new ≡ writer.old)))
        × TellsPeer (R.has_failed reader.new) (W.has_failed writer.new) (E.contents errors.old)
        (E.contents errors.new) (E.has_failed errors.new) result reason)
        ((SimulatesKnown (R.remaining reader.old) (W.contents writer.old)
        (W.contents writer.new) result × (errors.new ≡ errors.old))
        ⊎ Halts (R.remaining reader.old) (R.has_failed reader.new) (W.has_failed writer.new)
        (E.contents errors.old) (E.contents errors.new) (E.has_failed errors.new) result)
        ((RunsKnown (AreReported N) orders.sizes.nodes orders.stats (R.remaining reader.old)
        (W.contents writer.old) (W.contents writer.new) result × (errors.new ≡ errors.old))
        ⊎ Halts (R.remaining reader.old) (R.has_failed reader.new) (W.has_failed writer.new)
        (E.contents errors.old) (E.contents errors.new) (E.has_failed errors.new) result)
        ((reader.new ≡ reader.old)
        × RunsNode (IsOfAnEnd N) (errors.new ≡ errors.old) (W.contents writer.old)
        (W.contents writer.new) (W.has_failed writer.new) (E.contents errors.old)
        (E.contents errors.new) (E.has_failed errors.new) node result)
        ((reader.new ≡ reader.old)
        × (RunsNet (writer.new ≡ writer.old) (errors.new ≡ errors.old) (W.contents writer.old)
        (W.contents writer.new) (E.contents errors.old) (E.contents errors.new)
        (net_asked (map string_bytes words.items)) result
        ⊎ EndsNet (W.has_failed writer.new) (E.contents errors.old) (E.contents errors.new)
        (E.has_failed errors.new) result))))) }
{
    match task_of(alloc, words.as_slice()) {
        Ok(Task::Decode) => settle(code_of(decode(alloc, reader, writer)), errors),
        Ok(Task::Serve) => answer_peer(alloc, seed, reader, writer, errors),
        Ok(Task::Sim) => settle(simulate(alloc, reader, writer), errors),
        Ok(Task::Run(orders)) => settle(run_nodes(rt, alloc, seed, orders, reader, writer), errors),
        Ok(Task::Node(node)) => start_node(rt, alloc, seed, node, pipes, writer, errors),
        Ok(Task::Net(net)) => settle(run_net(alloc, net, writer, errors, progress), errors),
        Err(error) => settle_refusal(alloc, &error, errors),
    }
}

/// Tells on `errors` that the random source for a seed failed, as a failed read, and returns the
/// exit status 3.
pub fn refuse_unseeded<E: Sink>(errors: &mut E) -> u8
    ensures { EndsEarly (E.contents errors.old) (E.contents errors.new)
        (E.has_failed errors.new) result ReadFailed }
{
    settle(Err(Halt::ReadFailed), errors)
}

/// Tells on `errors` that memory ran out before the words were read, and returns the exit status 4.
pub fn refuse_for_memory<E: Sink>(errors: &mut E) -> u8
    ensures { EndsEarly (E.contents errors.old) (E.contents errors.new)
        (E.has_failed errors.new) result Memory }
{
    settle(Err(Halt::Memory), errors)
}

/// Whether these words, the first of which is the program's name, begin with the command `node`.
pub fn names_node(words: &[String]) -> bool {
    match words.get(1) {
        Some(word) => word.as_str() == "node",
        None => false,
    }
}

/// These words of `node`, with a password that the environment tells, if they ask for JSON-RPC and
/// name no password.
pub fn with_password(
    alloc: Global,
    words: Vec<String>,
    password: Option<String>,
) -> Result<Vec<String>, AllocError> {
    let mut words = words;
    let Some(password) = password else {
        return Ok(words);
    };
    if has_option(words.as_slice(), "--rpc") && !has_option(words.as_slice(), "--rpc-password") {
        let mut word = format!(in alloc; "--rpc-password=")?;
        word.push_str(password.as_str())?;
        words.push(word)?;
    }
    Ok(words)
}

/// Whether one of these words is this option, with its value or without.
fn has_option(words: &[String], option: &str) -> bool {
    words.iter().any(|word| is_option(word.as_str(), option))
}

/// Whether a word is this option, with its value or without.
fn is_option(word: &str, option: &str) -> bool {
    match word.split_once('=') {
        Some((name, _)) => name == option,
        None => word == option,
    }
}

/// Refuses a command line with a word that isn't UTF-8: reports it on `errors`, and returns the
/// exit status 1, or 3 if that write failed.
pub fn refuse_foreign<E: Sink>(errors: &mut E) -> u8
    ensures { ((result ≡ 1)
        × Appends (E.contents errors.old) (E.contents errors.new)
        (codes "error: a word of the command line isn't UTF-8\n"))
        ⊎ ((result ≡ 3) × (E.has_failed errors.new ≡ true)) }
{
    match write_all(errors, b"error: a word of the command line isn't UTF-8\n") {
        Ok(()) => Status::Usage.code(),
        Err(halt) => halt.status().code(),
    }
}

/// Runs a node, or tells why the words of `node` can't be followed. Returns the exit status.
fn start_node<N: ProcessHost, W: Sink, E: Sink>(
    rt: N,
    alloc: Global,
    seed: Seed,
    node: Result<NodeOrders, BadWords>,
    pipes: &Shared<Pipes>,
    writer: &mut W,
    errors: &mut E,
) -> u8
    requires { IfOk node HasSizes }
    ensures runs { RunsNode (IsOfAnEnd N) (errors.new ≡ errors.old) (W.contents writer.old)
        (W.contents writer.new) (W.has_failed writer.new) (E.contents errors.old)
        (E.contents errors.new) (E.has_failed errors.new) node result }
{
    match node {
        Ok(orders) => settle(
            run_node(rt, alloc, seed, orders, pipes, writer, errors),
            errors,
        ),
        Err(bad) => settle(refuse_words(bad, errors), errors),
    }
}

/// Tells why the words of `node` can't be followed. Returns the exit status.
fn refuse_words<E: Sink>(bad: BadWords, errors: &mut E) -> Result<u8, Halt>
    ensures told { IfOk result (λ status. (status ≡ 3)
        × Appends (E.contents errors.old) (E.contents errors.new) (bad_words_text bad)) }
    ensures err { IfErr result
        (λ halt. (halt ≡ Memory) ⊎ ((halt ≡ WriteFailed) × (E.has_failed errors.new ≡ true))) }
    ensures quiet { IfErr result
        (λ halt. (errors.new ≡ errors.old) ⊎ (E.has_failed errors.new ≡ true)) }
{
    if let BadWords::Memory = bad {
        return Err(Halt::Memory);
    }
    write_all(errors, bad.message().as_bytes())?;
    Ok(Status::RunFailed.code())
}

/// Serves a peer, reports on `errors` what failed, and returns the exit status.
fn answer_peer<R: Source, W: MessageSink, E: Sink>(
    alloc: Global,
    seed: Seed,
    reader: &mut R,
    writer: &mut W,
    errors: &mut E,
) -> u8
    ensures { (reason : CloseReason)
        × (WasServed (R.remaining reader.old) (R.remaining reader.new) (R.has_failed reader.new)
        (W.contents writer.old) (W.contents writer.new) (W.has_failed writer.old)
        (W.has_failed writer.new) reason
        ⊎ ((reason ≡ reasons.Memory) × (reader.new ≡ reader.old) × (writer.new ≡ writer.old)))
        × TellsPeer (R.has_failed reader.new) (W.has_failed writer.new) (E.contents errors.old)
        (E.contents errors.new) (E.has_failed errors.new) result reason }
{
    let ended = serve_peer(alloc, seed, reader, writer, errors);
    settle(code_of(ended), errors)
}

/// Reports why the command line was refused, or prints the help or version that it asked for.
/// Returns the exit status.
fn settle_refusal<E: Sink>(alloc: Global, error: &clap::Error, errors: &mut E) -> u8
    ensures ends { Refuses (E.has_failed errors.new) result
        ⊎ EndsEarly (E.contents errors.old) (E.contents errors.new)
        (E.has_failed errors.new) result Memory }
    ensures memory { kind_of error.now ≡ OutOfMemory →
        EndsEarly (E.contents errors.old) (E.contents errors.new)
        (E.has_failed errors.new) result Memory }
{
    let ended = refuse(alloc, error, errors);
    settle(code_of(ended), errors)
}

/// The exit status of a run. If it ended early, `errors` is told why.
fn settle<E: Sink>(ended: Result<u8, Halt>, errors: &mut E) -> u8
    ensures settled { MatchResult ended (λ code. (result ≡ code) × (errors.new ≡ errors.old))
        (EndsEarly (E.contents errors.old) (E.contents errors.new)
        (E.has_failed errors.new) result) }
    ensures stays { E.has_failed errors.old ≡ true → E.has_failed errors.new ≡ true }
{
    match ended {
        Ok(code) => code,
        Err(halt) => report_halt(halt, errors).code(),
    }
}

/// The exit status as a number.
fn code_of(ended: Result<Status, Halt>) -> Result<u8, Halt>
    ensures { result ≡ code_of ended }
{
    let status = ended?;
    Ok(status.code())
}

/// The command line that the program accepts.
fn command_line<'a>(alloc: Global) -> Result<Command<'a>, AllocError>
    ensures { IfOk result (λ line. app_of line ≡ program) }
{
    let line = peered_line(alloc)?;
    let net = net_line(alloc)?;
    line.subcommand(net)
}

/// The command line without `net`.
fn peered_line<'a>(alloc: Global) -> Result<Command<'a>, AllocError>
    ensures { IfOk result (λ line. app_of line ≡ node_program) }
{
    let line = scripted_line(alloc)?;
    let node = node_line(alloc)?;
    line.subcommand(node)
}

/// The command line without `node` and `net`.
fn scripted_line<'a>(alloc: Global) -> Result<Command<'a>, AllocError>
    ensures { IfOk result (λ line. app_of line ≡ scripted_program) }
{
    let line = plain_line(alloc)?;
    let script = Command::new(alloc, "run")
        .about("Play a script of nodes that are joined over loopback")
        .after_help(RUN_USE)
        .arg(nodes_arg(alloc))?
        .arg(handlers_arg(alloc))?
        .arg(stats_arg(alloc))?;
    line.subcommand(script)
}

/// The command line without `run`, `node` and `net`.
fn plain_line<'a>(alloc: Global) -> Result<Command<'a>, AllocError>
    ensures { IfOk result (λ line. app_of line ≡ plain_program) }
{
    let decode = Command::new(alloc, "decode").about("Print the items of a stream of hex pieces");
    let serve = Command::new(alloc, "serve").about("Answer a peer: its bytes in, ours out");
    let sim = Command::new(alloc, "sim").about("Run the crew's core, a line for each act");
    Command::new(alloc, "cbrelay")
        .about("A Bitcoin node for compact block relay, and its parts (regtest)")
        .version(VERSION)
        .after_help(USE)
        .subcommand(decode)?
        .subcommand(serve)?
        .subcommand(sim)
}

/// The option `--nodes`.
fn nodes_arg<'a>(alloc: Global) -> Arg<'a>
    ensures rule { rule_of result ≡ sized (codes "nodes") 8 }
    ensures local { result.global ≡ false }
{
    Arg::new(alloc, "nodes")
        .long("nodes")
        .value_name("N")
        .help("How many nodes there are, 1 to 8")
        .required(true)
        .value_parser(value_parser!(u16).range(1..=8))
}

/// The option `--handlers`.
fn handlers_arg<'a>(alloc: Global) -> Arg<'a>
    ensures rule { rule_of result ≡ sized (codes "handlers") 16 }
    ensures local { result.global ≡ false }
{
    Arg::new(alloc, "handlers")
        .long("handlers")
        .value_name("H")
        .help("How many threads serve a node's peers, 1 to 16")
        .required(true)
        .value_parser(value_parser!(u16).range(1..=16))
}

/// The flag `--stats`.
fn stats_arg<'a>(alloc: Global) -> Arg<'a>
    ensures rule { rule_of result ≡ flag (codes "stats") }
    ensures local { result.global ≡ false }
{
    Arg::new(alloc, "stats")
        .long("stats")
        .help("Also print what each connection moved")
        .action(ArgAction::SetTrue)
}

/// The task that the words name; `decode` if they name none. Fails if clap refuses the words or
/// asks to print help or the version, or if memory runs out.
fn task_of(alloc: Global, words: &[String]) -> Result<Task, clap::Error>
    ensures task { IfOk result (λ task. (orders : RunOrders)
        × (node : Result NodeOrders BadWords) × AreAsked orders node (map string_bytes words.now)
        × (task ≡ task_in orders node (map string_bytes words.now))) }
    ensures within { IfOk result (λ task. IsWithin task) }
    ensures kinds { FailsBy (fault_of program (map string_bytes words.now)) result }
    ensures passes { IfErr result
        (λ error. takes program (map string_bytes words.now) ≡ true → kind_of error ≡ OutOfMemory) }
{
    let line = command_line(alloc)?;
    match line.try_get_matches_from(words) {
        Ok(matches) => Ok(task_named(
            matches.subcommand_name(),
            orders_of(&matches),
            node_orders_of(alloc, &matches),
            net_settings_of(&matches),
        )),
        Err(error) => Err(error),
    }
}

/// What `run` is asked for; the least if it isn't the command.
fn orders_of(matches: &ArgMatches) -> RunOrders
    ensures { AreWithin result }
{
    match matches.subcommand_matches("run") {
        Some(run) => RunOrders {
            sizes: RunSizes {
                nodes: size_of(run, "nodes", 8),
                handlers: size_of(run, "handlers", 16),
            },
            stats: run.get_flag("stats"),
        },
        None => RunOrders {
            sizes: RunSizes {
                nodes: 1,
                handlers: 1,
            },
            stats: false,
        },
    }
}

/// The number from 1 to `most` that an option of `run` has. Clap has seen to it that it is there
/// and in this range.
fn size_of(run: &ArgMatches, name: &str, most: u16) -> u16
    requires { 1 ≤ most }
    ensures { (1 ≤ result) × (result ≤ most) }
{
    run.get_one::<u16>(name).unwrap_or(1).clamp(1, most)
}

/// The task of the command that was named, with these orders for `run`, `node` and `net`; `decode`
/// if none was.
fn task_named(
    name: Option<&str>,
    orders: RunOrders,
    node: Result<NodeOrders, BadWords>,
    net: Result<NetSettings, BadNet>,
) -> Task
    requires orders { AreWithin orders }
    requires node { IfOk node HasSizes }
    ensures named { result
        ≡ task_named orders node net (option_map (λ text. text.now) name.entry) }
    ensures within { IsWithin result }
{
    match name {
        Some("serve") => Task::Serve,
        Some("sim") => Task::Sim,
        Some("run") => Task::Run(orders),
        Some("node") => Task::Node(node),
        Some("net") => Task::Net(net),
        Some(_) | None => Task::Decode,
    }
}

/// Prints to `errors` why the command line was refused, or the help or version that it asked for.
/// Fails if memory runs out or the write fails.
fn refuse<E: Sink>(alloc: Global, error: &clap::Error, errors: &mut E) -> Result<Status, Halt>
    ensures usage { IfOk result (λ status. status ≡ Usage) }
    ensures err { IfErr result
        (λ halt. ((halt ≡ Memory) × (errors.new ≡ errors.old))
        ⊎ ((halt ≡ WriteFailed) × (E.has_failed errors.new ≡ true))) }
    ensures memory { kind_of error.now ≡ OutOfMemory → IsErrOf result Memory }
{
    if error.kind() == ErrorKind::OutOfMemory {
        return Err(Halt::Memory);
    }
    let text = error.to_string(alloc)?;
    write_all(errors, text.as_bytes())?;
    Ok(Status::Usage)
}

/// Reports on standard error why the run ended early, and returns the status.
fn report_halt<E: Sink>(halt: Halt, errors: &mut E) -> Status
    ensures told { Appends (E.contents errors.old) (E.contents errors.new) (end_line halt)
        ⊎ (E.has_failed errors.new ≡ true) }
    ensures status { result ≡ halt_status halt }
    ensures stays { E.has_failed errors.old ≡ true → E.has_failed errors.new ≡ true }
{
    // If this can't be written either, only the status shows it.
    let _ = write_all(errors, end_line(halt).as_bytes());
    halt.status()
}

/// The line on standard error about an early end.
fn end_line(halt: Halt) -> &'static str
    ensures { result.now ≡ end_line halt }
{
    match halt {
        Halt::Memory => "memory ran out\n",
        Halt::TooManyLines => Halt::TooManyLines.line(),
        Halt::ReadFailed => Halt::ReadFailed.line(),
        Halt::WriteFailed => Halt::WriteFailed.line(),
    }
}
