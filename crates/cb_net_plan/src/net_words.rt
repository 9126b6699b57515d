//! The network that the words of `net` ask for.
ghost use Rattle.std.specs.Prelude.{◌≡◌, option_map};
ghost use Rattle.clap.specs.Words.{first_of, subcommand_rows_of};
ghost use Rattle.cb_net_plan.specs.NetWords.{asked_settings, audit_told, behind, beside, cut_at, is_flagged, judged_settings, latency_told, net_rows, number_in, number_or, numbers_in, pair_in, part_in, part_of, part_told, range_in, restart_in, restart_told, rows_in, without_dot};

use crate::bad_net::BadNet;
use crate::settings::{NetSettings, Partition, Restart};
use clap::ArgMatches;

/// What `net` is asked for, or why no network can be so. If `net` isn't the command, there are no
/// nodes.
pub fn net_settings_of(matches: &ArgMatches) -> Result<NetSettings, BadNet>
    ensures { result ≡ asked_settings (net_rows (subcommand_rows_of matches.now)) }
{
    asked_settings(matches.subcommand_matches("net"))
}

/// What `net` is asked for by its options, if it was entered.
fn asked_settings(net: Option<&ArgMatches>) -> Result<NetSettings, BadNet>
    ensures { result ≡ asked_settings (rows_in (option_map (λ m. m.now) net.entry)) }
{
    let latency = latency_told(text_of(net, "latency"))?;
    let part = part_told(text_of(net, "part"))?;
    let restart = restart_told(text_of(net, "restart"))?;
    let audit = audit_told(text_of(net, "audit"))?;
    judged_settings(NetSettings {
        latency_low: latency.0,
        latency_high: latency.1,
        part,
        restart,
        audit,
        ..numbers_in(net)
    })
}

/// The settings, if a network can be so.
fn judged_settings(settings: NetSettings) -> Result<NetSettings, BadNet>
    ensures { result ≡ judged_settings settings }
{
    match settings.judge() {
        Ok(()) => Ok(settings),
        Err(fault) => Err(BadNet::Fault(fault)),
    }
}

/// The usual settings, with the numbers that were told, and whether rows are printed.
fn numbers_in(net: Option<&ArgMatches>) -> NetSettings
    ensures { result ≡ numbers_in (rows_in (option_map (λ m. m.now) net.entry)) }
{
    let usual = NetSettings::usual(number_of(net, "nodes", 0));
    NetSettings {
        links: number_of(net, "links", usual.links),
        seed: wide_of(net, "seed", usual.seed),
        rate: wide_of(net, "rate", usual.rate),
        blocks: number_of(net, "blocks", usual.blocks),
        transactions: number_of(net, "transactions", usual.transactions),
        missing: number_of(net, "missing", usual.missing),
        lacking: number_of(net, "lacking", usual.lacking),
        stall: number_of(net, "stall", usual.stall),
        lie: number_of(net, "lie", usual.lie),
        csv: is_flagged(text_of(net, "csv")),
        ..usual
    }
}

/// Whether a flag with this value was told.
fn is_flagged(text: Option<&str>) -> bool
    ensures { result ≡ is_flagged (option_map (λ text. text.now) text.entry) }
{
    match text {
        Some(text) => text == "true",
        None => false,
    }
}

/// The lowest and the highest latency, by the value of `--latency`.
fn latency_told(text: Option<&str>) -> Result<(u32, u32), BadNet>
    ensures { result ≡ latency_told (option_map (λ text. text.now) text.entry) }
{
    match text {
        Some(text) => range_in(text).ok_or(BadNet::Latency),
        None => Ok((20, 200)),
    }
}

/// Which nodes are cut off, by the value of `--part`.
fn part_told(text: Option<&str>) -> Result<Option<Partition>, BadNet>
    ensures { result ≡ part_told (option_map (λ text. text.now) text.entry) }
{
    let Some(text) = text else {
        return Ok(None);
    };
    match part_in(text) {
        Some(part) => Ok(Some(part)),
        None => Err(BadNet::Part),
    }
}

/// Which node begins anew, by the value of `--restart`.
fn restart_told(text: Option<&str>) -> Result<Option<Restart>, BadNet>
    ensures { result ≡ restart_told (option_map (λ text. text.now) text.entry) }
{
    let Some(text) = text else {
        return Ok(None);
    };
    match restart_in(text) {
        Some(restart) => Ok(Some(restart)),
        None => Err(BadNet::Restart),
    }
}

/// Whether nodes are audited, by the value of `--audit`.
fn audit_told(text: Option<&str>) -> Result<bool, BadNet>
    ensures { result ≡ audit_told (option_map (λ text. text.now) text.entry) }
{
    match text {
        Some("all") | None => Ok(true),
        Some("none") => Ok(false),
        Some(_) => Err(BadNet::Audit),
    }
}

/// Nodes and blocks, as in `500@3..5`: the nodes below 500, from block 3 to block 5.
fn part_in(text: &str) -> Option<Partition>
    ensures { result ≡ part_in (cut_at 64 text.now) }
{
    match cut_at_sign(text) {
        Some((below, blocks)) => part_of(number_in(below).zip(range_in(blocks))),
        None => None,
    }
}

/// The nodes that are cut off, and the blocks.
fn part_of(numbers: Option<(u32, (u32, u32))>) -> Option<Partition>
    ensures { result ≡ part_of numbers }
{
    let (below, (from, to)) = numbers?;
    Some(Partition { below, from, to })
}

/// A node and a block, as in `17@4`.
fn restart_in(text: &str) -> Option<Restart>
    ensures { result ≡ restart_in (cut_at 64 text.now) }
{
    let (node, block) = pair_in(cut_at_sign(text))?;
    Some(Restart { node, block })
}

/// Two numbers, as in `20..200`.
fn range_in(text: &str) -> Option<(u32, u32)>
    ensures { result ≡ range_in text.now }
{
    pair_in(cut_at_dots(text))
}

/// Two numbers, by their texts.
fn pair_in(texts: Option<(&str, &str)>) -> Option<(u32, u32)>
    ensures { result ≡ pair_in (option_map (λ texts. (texts.0.now, texts.1.now)) texts.entry) }
{
    match texts {
        Some((one, other)) => number_in(one).zip(number_in(other)),
        None => None,
    }
}

/// The texts before and behind the first two dots, if no single one stands before them.
fn cut_at_dots(text: &str) -> Option<(&str, &str)>
    ensures { option_map (λ texts. (texts.0.now, texts.1.now)) result
        ≡ without_dot (cut_at 46 text.now) }
{
    match cut_at_dot(text) {
        Some((low, rest)) => beside(low, behind_dot(rest)),
        None => None,
    }
}

/// Two texts, if the second one is there.
fn beside<'a>(low: &'a str, high: Option<&'a str>) -> Option<(&'a str, &'a str)>
    ensures { option_map (λ texts. (texts.0.now, texts.1.now)) result
        ≡ beside low.entry.now (option_map (λ high. high.now) high.entry) }
{
    Some((low, high?))
}

/// The texts before and behind the first `@`.
fn cut_at_sign(text: &str) -> Option<(&str, &str)>
    ensures { option_map (λ texts. (texts.0.now, texts.1.now)) result ≡ cut_at 64 text.now }
{
    text.split_once('@')
}

/// The same of a dot.
fn cut_at_dot(text: &str) -> Option<(&str, &str)>
    ensures { option_map (λ texts. (texts.0.now, texts.1.now)) result ≡ cut_at 46 text.now }
{
    text.split_once('.')
}

/// The text behind a dot, if one stands first.
fn behind_dot(text: &str) -> Option<&str>
    ensures { option_map (λ rest. rest.now) result ≡ behind 46 text.now }
{
    text.strip_prefix('.')
}

/// The number of 32 bits that an option has, or the usual one.
fn number_of(net: Option<&ArgMatches>, id: &str, usual: u32) -> u32
    ensures { result ≡ number_or 32 usual
        (first_of id.now (rows_in (option_map (λ m. m.now) net.entry))) }
{
    match text_of(net, id) {
        Some(text) => number_in(text).unwrap_or(usual),
        None => usual,
    }
}

/// The number of 64 bits that an option has, or the usual one.
fn wide_of(net: Option<&ArgMatches>, id: &str, usual: u64) -> u64
    ensures { result ≡ number_or 64 usual
        (first_of id.now (rows_in (option_map (λ m. m.now) net.entry))) }
{
    match text_of(net, id) {
        Some(text) => wide_in(text).unwrap_or(usual),
        None => usual,
    }
}

/// The number of 32 bits that a text writes: decimal digits, and a plus before them may stand.
fn number_in(text: &str) -> Option<u32>
    ensures { result ≡ number_in 32 text.now }
{
    text.parse().ok()
}

/// The same of 64 bits.
fn wide_in(text: &str) -> Option<u64>
    ensures { result ≡ number_in 64 text.now }
{
    text.parse().ok()
}

/// The value of an option, if it was told.
#[tactic(auto, using(crate::proofs::Reading::given_text))]
fn text_of<'b, 'a>(net: Option<&'b ArgMatches<'a>>, id: &str) -> Option<&'a str>
    ensures { option_map (λ text. text.now) result
        ≡ first_of id.now (rows_in (option_map (λ m. m.now) net.entry)) }
{
    match net {
        Some(net) => net.get_str(id),
        None => None,
    }
}
