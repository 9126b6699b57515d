ghost use Rattle.std.specs.Prelude.{◌≡◌, ◌≤◌, ◌↔◌, Some, IfSome};
ghost use Rattle.cb_commands.specs.declared.sim.read.Sizes.{Sizes};
ghost use Rattle.cb_crew.specs.declared.act.Act.{Act};
ghost use Rattle.cb_commands.specs.SimLine.{TellsAct, TellsSizes, act_in, act_named, sizes_in};

use cb_control::{cut, number, short};
use cb_crew::Act;

/// The sizes of a crew.
#[derive(Clone, Copy, PartialEq, Eq)]
pub struct Sizes {
    pub peers: u16,
    pub handlers: u16,
    pub capacity: usize,
}

/// Reads the sizes of a crew from a line: `system PEERS HANDLERS CAPACITY`, with 1 to 64 peers, 1
/// to 16 handlers, and 1 to 1,024 marks in an inbox. One space separates two words.
///
/// Returns `None` exactly if the line isn't of this form.
pub fn read_sizes(text: &[u8]) -> Option<Sizes>
    ensures told { (sizes : Sizes) → (result ≡ Some sizes) ↔ TellsSizes text.now sizes }
    ensures peers { IfSome result (λ sizes. (1 ≤ sizes.peers) × (sizes.peers ≤ 64)) }
    ensures handlers { IfSome result (λ sizes. (1 ≤ sizes.handlers) × (sizes.handlers ≤ 16)) }
    ensures capacity { IfSome result (λ sizes. (1 ≤ sizes.capacity) × (sizes.capacity ≤ 1024)) }
{
    match str::from_utf8(text) {
        Ok(text) => sizes_of(text),
        Err(_) => None,
    }
}

/// Reads the sizes of a crew.
fn sizes_of(text: &str) -> Option<Sizes>
    ensures { result ≡ sizes_in text.now }
{
    let (name, text) = cut(text)?;
    let (peers, text) = cut(text)?;
    let (handlers, capacity) = cut(text)?;
    let peers = short(peers)?;
    let handlers = short(handlers)?;
    let capacity = short(capacity)?;
    if name == "system"
        && (1..=64).contains(&peers)
        && (1..=16).contains(&handlers)
        && (1..=1024).contains(&capacity)
    {
        Some(Sizes {
            peers,
            handlers,
            capacity: usize::from(capacity),
        })
    } else {
        None
    }
}

/// Reads an act from a line: `put PEER ITEM`, `end PEER`, `open PEER`, `claim HANDLER`, `take
/// HANDLER` or `give HANDLER`.
///
/// Returns `None` exactly if the line isn't of one of these forms.
pub fn read_act(text: &[u8]) -> Option<Act>
    ensures { (act : Act) → (result ≡ Some act) ↔ TellsAct text.now act }
{
    match str::from_utf8(text) {
        Ok(text) => act_of(text),
        Err(_) => None,
    }
}

/// Reads an act.
fn act_of(text: &str) -> Option<Act>
    ensures { result ≡ act_in text.now }
{
    let (name, rest) = cut(text)?;
    named(name, rest)
}

/// The act with this name and the numbers in `rest`.
fn named(name: &str, rest: &str) -> Option<Act>
    ensures { result ≡ act_named name.now rest.now }
{
    match name {
        "put" => {
            let (peer, item) = cut(rest)?;
            Some(Act::Put(short(peer)?, number(item)?))
        }
        "end" => Some(Act::End(short(rest)?)),
        "open" => Some(Act::Open(short(rest)?)),
        "claim" => Some(Act::Claim(short(rest)?)),
        "take" => Some(Act::Take(short(rest)?)),
        "give" => Some(Act::Give(short(rest)?)),
        _ => None,
    }
}
