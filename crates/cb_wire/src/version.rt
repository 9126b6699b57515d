//! The payload of `version`.
ghost use Rattle.std.specs.Prelude.{if◌then◌else◌, ◌≡◌, ℕ, ◌^◌, ◌<◌, ◌≤◌, Bool, true, not, FitsSigned, List, ◌++◌, length, min, IfOk, IsOkUnless, MatchResult, OnErr, OnOk, IsOk, Ok, Err};
ghost use Rattle.std.specs.Int.{w32, w64, to_le_bytes, cast_unsigned};
ghost use Rattle.cb_base.specs.CompactSize.{Gives};
ghost use Rattle.cb_base.specs.Reading.{bytes_at};
ghost use Rattle.cb_base.specs.declared.fault.Fault.{Fault};
ghost use Rattle.cb_base.specs.declared.fault.Fault.TheVariants.{Memory};
ghost use Rattle.cb_wire.specs.RoundTrip as reading;
ghost use Rattle.cb_wire.specs.Version.{IsAddress, IsVersion, TakesMemory, address_at, address_text, agent_at, agent_text, relay_of, version_at, version_text};
ghost use Rattle.cb_block.specs.TxWriting.{Extends};

use crate::listed::Listed;
use cb_base::{Cursor, Fault, copy_bytes, put_compact};
use std::alloc::Global;

/// The user agent in `version`: at most 256 bytes, which this program doesn't interpret.
pub type Agent = Listed<u8, 256>;

/// A network address as `version` has it: without a timestamp.
#[derive(Clone, Copy, PartialEq, Eq)]
pub struct NetAddress {
    pub services: u64,
    /// An IPv6 address, or an IPv4 address in the last 4 bytes.
    pub ip: [u8; 16],
    pub port: u16,
}

/// The payload of `version`: how a node introduces itself.
#[derive(Drop)]
pub struct Version {
    /// The protocol version of the sender.
    pub version: i32,
    pub services: u64,
    /// The sender's clock, in seconds since 1970.
    pub time: i64,
    pub receiver: NetAddress,
    pub sender: NetAddress,
    /// A random number by which a node detects a connection to itself.
    pub nonce: u64,
    pub agent: Agent,
    /// The height of the sender's best chain.
    pub height: i32,
    /// Whether the sender wants transactions to be announced (BIP 37).
    pub relay: bool,
}

/// The fields of a `version`. The user agent is still borrowed from the payload.
#[derive(Drop)]
pub struct BorrowedVersion<'a> {
    /// The protocol version of the sender.
    pub version: i32,
    pub services: u64,
    /// The sender's clock, in seconds since 1970.
    pub time: i64,
    pub receiver: NetAddress,
    pub sender: NetAddress,
    /// A random number by which a node detects a connection to itself.
    pub nonce: u64,
    /// The user agent, at most 256 bytes.
    pub agent: &'a [u8],
    /// The height of the sender's best chain.
    pub height: i32,
    /// Whether the sender wants transactions to be announced (BIP 37).
    pub relay: bool,
}

/// Reads 16 bytes. After an error the cursor may stand anywhere.
fn read_ip(cursor: &mut Cursor) -> Result<[u8; 16], Fault>
    ensures { Gives (bytes_at 16 cursor.old) result cursor.new }
{
    let bytes = cursor.take(16)?;
    let mut ip = [0u8; 16];
    ip.copy_from_slice(bytes);
    Ok(ip)
}

#[tactic(auto, unfolding(crate::specs::Version::address_at))]
fn read_address(cursor: &mut Cursor) -> Result<NetAddress, Fault>
    ensures { Gives (address_at cursor.old) result cursor.new }
{
    let services = cursor.u64()?;
    let ip = read_ip(cursor)?;
    let port = cursor.u16_big()?;
    Ok(NetAddress { services, ip, port })
}

/// Reads the user agent and borrows it from the payload. A length above 256 is `Fault::TooMany`,
/// even if the bytes are missing.
#[tactic(auto, unfolding(crate::specs::Version::agent_at))]
fn read_agent<'a>(cursor: &mut Cursor<'a>) -> Result<&'a [u8], Fault>
    ensures exact { MatchResult result (λ agent. agent_at cursor.old ≡ Ok (agent.now, cursor.new))
        (λ fault. agent_at cursor.old ≡ Err fault) }
    ensures few { IfOk result (λ agent. length agent.now ≤ 256) }
{
    let len = cursor.compact()?;
    if len > 256 {
        return Err(Fault::TooMany);
    }
    cursor.take(len as usize)
}

/// Reads the relay byte: true unless it is present and 0.
fn read_relay(cursor: &mut Cursor) -> bool
    ensures { result ≡ relay_of cursor.old }
{
    match cursor.u8() {
        Ok(byte) => byte != 0,
        Err(_) => true,
    }
}

/// Reads all fields of a `version` as `read_version` does, with the same faults, but for
/// `Fault::Memory`: nothing is allocated.
#[tactic(auto, unfolding(crate::specs::Version::version_at))]
pub fn borrow_version(payload: &[u8]) -> Result<BorrowedVersion<'_>, Fault>
    ensures exact { MatchResult result
        (λ told. version_at payload.now
        ≡ Ok
        (record {
          version = told.version;
          services = told.services;
          time = told.time;
          receiver = told.receiver;
          sender = told.sender;
          nonce = told.nonce;
          agent = told.agent.now;
          height = told.height;
          relay = told.relay;
        }))
        (λ fault. version_at payload.now ≡ Err fault) }
    ensures few { IfOk result (λ told. length told.agent.now ≤ 256) }
{
    let mut cursor = Cursor::new(payload);
    let version = cursor.i32()?;
    let services = cursor.u64()?;
    let time = cursor.i64()?;
    let receiver = read_address(&mut cursor)?;
    let sender = read_address(&mut cursor)?;
    let nonce = cursor.u64()?;
    let agent = read_agent(&mut cursor)?;
    let height = cursor.i32()?;
    let relay = read_relay(&mut cursor);
    Ok(BorrowedVersion {
        version,
        services,
        time,
        receiver,
        sender,
        nonce,
        agent,
        height,
        relay,
    })
}

/// Reads the payload of a `version`, with the relay byte of BIP 37. Bytes after the relay byte are
/// ignored.
///
/// Fails with `Fault::Truncated` if bytes are missing, `Fault::NotShortest` if the user agent's
/// length isn't in its shortest form, `Fault::TooMany` if that length is above 256, and
/// `Fault::Memory` if the user agent can't be allocated. An empty user agent allocates nothing.
pub fn read_version(alloc: Global, payload: &[u8]) -> Result<Version, Fault>
    ensures exact { reading.Gives (version_at payload.now) result }
    // Memory is allocated only after all else has been read.
    ensures unpaid { (fault : Fault) → version_at payload.now ≡ Err fault → result ≡ Err fault }
    ensures paid { result ≡ Err Memory → TakesMemory payload.now }
{
    let told = borrow_version(payload)?;
    let agent = Agent::from_few(copy_bytes(alloc, told.agent)?);
    Ok(Version {
        version: told.version,
        services: told.services,
        time: told.time,
        receiver: told.receiver,
        sender: told.sender,
        nonce: told.nonce,
        agent,
        height: told.height,
        relay: told.relay,
    })
}

#[tactic(auto, unfolding(crate::specs::Version::address_text), using(cb_block::proofs::Appends::appends))]
fn put_address(out: &mut Vec<u8>, address: NetAddress) -> Result<(), Fault>
    ensures ok { OnOk result (out.new.items ≡ out.old.items ++ address_text address) }
    ensures err { OnErr result (Extends out.old.items out.new.items) }
    ensures memory { IsOkUnless result Memory }
    ensures kept { IsAddress address }
{
    out.extend_from_slice(&address.services.to_le_bytes())?;
    out.extend_from_slice(address.ip.as_slice())?;
    out.extend_from_slice(&address.port.to_be_bytes())?;
    Ok(())
}

#[tactic(auto, unfolding(crate::specs::Version::agent_text), using(cb_block::proofs::Appends::appends))]
fn put_agent(out: &mut Vec<u8>, agent: &Agent) -> Result<(), Fault>
    ensures ok { OnOk result (out.new.items ≡ out.old.items ++ agent_text agent.now) }
    ensures err { OnErr result (Extends out.old.items out.new.items) }
    ensures memory { IsOkUnless result Memory }
    ensures kept { length agent.now ≤ 256 }
{
    let bytes = agent.as_slice();
    put_compact(out, bytes.len() as u64)?;
    out.extend_from_slice(bytes)?;
    Ok(())
}

/// Appends the protocol version, the services and the time to `out`. Fails only with
/// `Fault::Memory`.
#[tactic(auto, using(cb_block::proofs::Appends::appends))]
fn put_numbers(out: &mut Vec<u8>, version: &Version) -> Result<(), Fault>
    ensures ok { OnOk result
        (out.new.items
        ≡ out.old.items
        ++ (to_le_bytes w32 (cast_unsigned w32 version.now.version)
        ++ (to_le_bytes w64 version.now.services
        ++ to_le_bytes w64 (cast_unsigned w64 version.now.time)))) }
    ensures err { OnErr result (Extends out.old.items out.new.items) }
    ensures memory { IsOkUnless result Memory }
    ensures version { OnOk result (FitsSigned w32 version.now.version) }
    ensures services { OnOk result (version.now.services < 2 ^ 64) }
    ensures time { OnOk result (FitsSigned w64 version.now.time) }
{
    out.extend_from_slice(&version.version.to_le_bytes())?;
    out.extend_from_slice(&version.services.to_le_bytes())?;
    out.extend_from_slice(&version.time.to_le_bytes())?;
    Ok(())
}

/// Appends the nonce, the user agent and the height to `out`. Fails only with `Fault::Memory`.
#[tactic(auto, using(cb_block::proofs::Appends::appends))]
fn put_tail(out: &mut Vec<u8>, version: &Version) -> Result<(), Fault>
    ensures ok { OnOk result
        (out.new.items
        ≡ out.old.items ++ (to_le_bytes w64 version.now.nonce ++ (agent_text version.now.agent
        ++ to_le_bytes w32 (cast_unsigned w32 version.now.height)))) }
    ensures err { OnErr result (Extends out.old.items out.new.items) }
    ensures memory { IsOkUnless result Memory }
    ensures nonce { OnOk result (version.now.nonce < 2 ^ 64) }
    ensures agent { OnOk result (length version.now.agent ≤ 256) }
    ensures height { OnOk result (FitsSigned w32 version.now.height) }
{
    out.extend_from_slice(&version.nonce.to_le_bytes())?;
    put_agent(out, &version.agent)?;
    out.extend_from_slice(&version.height.to_le_bytes())?;
    Ok(())
}

/// The relay byte: 1 for yes, 0 for no.
fn relay_byte(relay: bool) -> u8
    ensures { result ≡ (if relay then 1 else 0) }
{
    if relay { 1 } else { 0 }
}

/// Appends the payload of a `version` to `out`, with the relay byte. Fails only with
/// `Fault::Memory`; `out` may then end with a part of the payload.
#[tactic(auto, unfolding(crate::specs::Version::version_text, crate::specs::Version::version_fields), using(cb_block::proofs::Appends::appends))]
pub fn put_version(out: &mut Vec<u8>, version: &Version) -> Result<(), Fault>
    ensures ok { OnOk result (out.new.items ≡ out.old.items ++ version_text version.now) }
    ensures err { OnErr result (Extends out.old.items out.new.items) }
    ensures memory { IsOkUnless result Memory }
    ensures kept { OnOk result (IsVersion version.now) }
{
    put_numbers(out, version)?;
    put_address(out, version.receiver)?;
    put_address(out, version.sender)?;
    put_tail(out, version)?;
    out.push(relay_byte(version.relay))?;
    Ok(())
}

#[tactic(auto, unfolding(crate::specs::Version::address_text))]
fn address_size(address: NetAddress) -> u64
    ensures size { result ≡ length (address_text address) }
    ensures limit { result ≤ 26 }
{
    address.ip.as_slice().len() as u64 + 10
}

#[tactic(auto, unfolding(crate::specs::Version::agent_text, cb_base::specs::CompactSize::compact_text))]
fn agent_size(agent: &Agent) -> u64
    ensures size { result ≡ length (agent_text agent.now) }
    ensures limit { result ≤ 259 }
{
    let len = agent.as_slice().len() as u64;
    if len < 253 { len + 1 } else { len + 3 }
}

impl Version {
    /// The length of the payload in bytes.
    #[tactic(auto, unfolding(crate::specs::Version::version_text, crate::specs::Version::version_fields))]
    pub fn size(&self) -> u64
        ensures size { result ≡ length (version_text self.now) }
        ensures limit { result ≤ 1000 }
    {
        let addresses = address_size(self.receiver) + address_size(self.sender);
        agent_size(&self.agent) + addresses + 33
    }

    /// An equal version. Fails only with `Fault::Memory`; a version with an empty user agent
    /// allocates nothing.
    pub fn copy(&self, alloc: Global) -> Result<Version, Fault>
        ensures equal { IfOk result (λ copy. copy ≡ self.now) }
        ensures memory { IsOkUnless result Memory }
        ensures unpaid { length self.now.agent ≡ 0 → IsOk result }
    {
        Ok(Version {
            version: self.version,
            services: self.services,
            time: self.time,
            receiver: self.receiver,
            sender: self.sender,
            nonce: self.nonce,
            agent: self.agent.copy(alloc)?,
            height: self.height,
            relay: self.relay,
        })
    }
}
