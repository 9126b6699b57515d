//! What a network is to be like.
ghost use Rattle.std.specs.Prelude.{◌≡◌, Ok, Some};
ghost use Rattle.cb_net_plan.specs.Settings.{AreSound, fault_words, first_fault, judged, keeps, is_part, is_restart, lies_in, usual_settings};

use std::fmt;

/// The most nodes of a network.
const MOST_NODES: u32 = 100_000;

/// The most links of a node, on average.
const MOST_LINKS: u32 = 64;

/// The highest latency, in milliseconds: an hour.
const MOST_LATENCY: u32 = 3_600_000;

/// The most transactions of a block.
const MOST_TRANSACTIONS: u32 = 4_000;

/// Nodes that are cut off from the others for some blocks.
#[derive(Clone, Copy)]
pub struct Partition {
    /// The nodes with lower numbers are cut off from the others.
    pub below: u32,
    /// The block before which they are cut off, from 1 on.
    pub from: u32,
    /// The block behind which they are linked again.
    pub to: u32,
}

/// A node that begins anew, with nothing, before a block.
#[derive(Clone, Copy)]
pub struct Restart {
    /// The number of the node.
    pub node: u32,
    /// The block, from 1 on.
    pub block: u32,
}

/// What a network is to be like.
#[derive(Clone, Copy)]
pub struct NetSettings {
    /// How many nodes it has: 2 to 100,000. They are numbered from 0 on.
    pub nodes: u32,
    /// How many links a node has on average, 2 to 64: each link has two nodes, so that there are
    /// nodes * links / 2 in all, where so many are possible and found.
    pub links: u32,
    /// What all is drawn from.
    pub seed: u64,
    /// The lowest latency of a link, in milliseconds.
    pub latency_low: u32,
    /// The highest latency of a link, in milliseconds: at most an hour.
    pub latency_high: u32,
    /// How many bytes a node sends a second, above 0.
    pub rate: u64,
    /// How many blocks are mined, from 1 on.
    pub blocks: u32,
    /// How many transactions a block has beside its coinbase: at most 4,000.
    pub transactions: u32,
    /// How many transactions of a block are kept from a drawn part of the nodes.
    pub missing: u32,
    /// What percentage of the nodes lacks them.
    pub lacking: u32,
    /// Which nodes are cut off from the others, and when.
    pub part: Option<Partition>,
    /// Which node begins anew, and when.
    pub restart: Option<Restart>,
    /// How many nodes never answer.
    pub stall: u32,
    /// How many nodes lie.
    pub lie: u32,
    /// Whether the record of each node is audited.
    pub audit: bool,
    /// Whether rows for a plot are printed in place of words.
    pub csv: bool,
}

/// What is wrong with the settings of a network.
#[derive(Clone, Copy, Debug, PartialEq, Eq)]
pub enum SettingsFault {
    /// There are fewer than 2 nodes, or more than 100,000.
    Nodes,
    /// There are fewer than 2 links a node, or more than 64.
    Links,
    /// The lowest latency is above the highest, or that is above an hour.
    Latency,
    /// No bytes are sent.
    Rate,
    /// No blocks are mined.
    Blocks,
    /// A block has more than 4,000 transactions.
    Transactions,
    /// More transactions are kept back than a block has.
    Missing,
    /// More than 100 of 100 nodes lack them.
    Lacking,
    /// Nobody is cut off, or the end is before the beginning, or there are no such blocks.
    Part,
    /// There is no such node, or no such block.
    Restart,
    /// No node is left that answers and is honest.
    Honest,
}

/// The rules of settings, in the order in which they are looked at.
const RULES: [SettingsFault; 11] = [
    SettingsFault::Nodes,
    SettingsFault::Links,
    SettingsFault::Latency,
    SettingsFault::Rate,
    SettingsFault::Blocks,
    SettingsFault::Transactions,
    SettingsFault::Missing,
    SettingsFault::Lacking,
    SettingsFault::Part,
    SettingsFault::Restart,
    SettingsFault::Honest,
];

impl NetSettings {
    /// The usual settings of a network with so many nodes: 8 links, seed 1, latencies of 20 to 200
    /// milliseconds, 1,250,000 bytes a second, 3 blocks of 100 transactions that all nodes have,
    /// no faults, audits, words.
    pub fn usual(nodes: u32) -> NetSettings
        ensures { result ≡ usual_settings nodes }
    {
        NetSettings {
            nodes,
            links: 8,
            seed: 1,
            latency_low: 20,
            latency_high: 200,
            rate: 1_250_000,
            blocks: 3,
            transactions: 100,
            missing: 0,
            lacking: 0,
            part: None,
            restart: None,
            stall: 0,
            lie: 0,
            audit: true,
            csv: false,
        }
    }

    /// Whether a network can be like this. Otherwise the first thing that is wrong, in the order
    /// of `SettingsFault`.
    pub fn judge(&self) -> Result<(), SettingsFault>
        ensures exact { result ≡ judged (first_fault self.now) }
        ensures sound { result ≡ Ok tt → AreSound self.now }
    {
        match self.first_fault() {
            Some(fault) => Err(fault),
            None => Ok(()),
        }
    }

    /// The first rule that it doesn't keep.
    fn first_fault(&self) -> Option<SettingsFault>
        ensures { result ≡ first_fault self.now }
    {
        RULES.iter().copied().find(|rule| !self.keeps(*rule))
    }

    /// Whether it keeps the rule that a fault names.
    fn keeps(&self, rule: SettingsFault) -> bool
        ensures { result ≡ keeps self.now rule }
    {
        match rule {
            SettingsFault::Nodes => lies_in(2, MOST_NODES, self.nodes),
            SettingsFault::Links => lies_in(2, MOST_LINKS, self.links),
            SettingsFault::Latency => {
                self.latency_low <= self.latency_high && self.latency_high <= MOST_LATENCY
            }
            SettingsFault::Rate => self.rate > 0,
            SettingsFault::Blocks => self.blocks > 0,
            SettingsFault::Transactions => self.transactions <= MOST_TRANSACTIONS,
            SettingsFault::Missing => self.missing <= self.transactions,
            SettingsFault::Lacking => self.lacking <= 100,
            SettingsFault::Part => self.is_part(),
            SettingsFault::Restart => self.is_restart(),
            SettingsFault::Honest => {
                u64::from(self.stall) + u64::from(self.lie) < u64::from(self.nodes)
            }
        }
    }

    /// Whether some of the nodes, but not all, are cut off for blocks that there are, if any are.
    fn is_part(&self) -> bool
        ensures { result ≡ is_part self.now self.now.part }
    {
        match self.part {
            Some(part) => {
                0 < part.below
                    && part.below < self.nodes
                    && 0 < part.from
                    && lies_in(part.from, self.blocks, part.to)
            }
            None => true,
        }
    }

    /// Whether there are the node and the block of a restart, if there is one.
    fn is_restart(&self) -> bool
        ensures { result ≡ is_restart self.now self.now.restart }
    {
        match self.restart {
            Some(restart) => { restart.node < self.nodes && lies_in(1, self.blocks, restart.block) }
            None => true,
        }
    }
}

/// Whether a number lies in a range, ends included.
fn lies_in(low: u32, high: u32, number: u32) -> bool
    ensures { result ≡ lies_in low high number }
{
    low <= number && number <= high
}

impl fmt::Display for SettingsFault {
    ghost output = { λ fault. Some (fault_words fault) };

    fn fmt<W: fmt::Write>(&self, f: &mut fmt::Formatter<W>) -> fmt::Result {
        match self {
            SettingsFault::Nodes => write!(f, "a network has 2 to 100000 nodes"),
            SettingsFault::Links => write!(f, "a node has 2 to 64 links on average"),
            SettingsFault::Latency => write!(f, "latencies go from low to high, up to an hour"),
            SettingsFault::Rate => write!(f, "a node sends at least 1 byte a second"),
            SettingsFault::Blocks => write!(f, "at least 1 block is mined"),
            SettingsFault::Transactions => write!(f, "a block has at most 4000 transactions"),
            SettingsFault::Missing => write!(f, "at most all transactions of a block are missing"),
            SettingsFault::Lacking => write!(f, "at most 100 percent of the nodes lack some"),
            SettingsFault::Part => write!(f, "a part cuts some nodes off for blocks there are"),
            SettingsFault::Restart => write!(f, "a restart names a node and a block there is"),
            SettingsFault::Honest => write!(f, "at least 1 node neither stalls nor lies"),
        }
    }
}
